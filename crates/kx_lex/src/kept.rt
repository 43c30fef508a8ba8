//! Values and bytes that trees keep in little room.
ghost use Rattle.std.specs.Prelude.{◌≡◌, take};

use std::alloc::{AllocError, Global};
use std::marker::Model;

/// A value in an allocation of its own, so that what holds it stays small; seen as the value.
#[derive(Drop)]
pub struct Boxed<T> {
    value: Box<T>,
}

impl<T> Model for Boxed<T> {
    ghost Value = { T };

    ghost view = { λ boxed. boxed.value.value };
}

impl<T> Boxed<T> {
    ghost use Rattle.std.specs.Prelude.{◌≡◌, IfOk};

    /// This value in an allocation of its own.
    ///
    /// # Errors
    /// Where a growth is refused.
    pub fn of(alloc: Global, value: T) -> Result<Boxed<T>, AllocError>
    where
        T: Drop,
        ensures { IfOk result (λ boxed. boxed ≡ value) }
    {
        Ok(Boxed {
            value: Box::new(alloc, value)?,
        })
    }

    /// The value.
    pub fn get(&self) -> &T
        ensures { result.now ≡ self.now }
    {
        &*self.value
    }
}

/// So many bytes stand in [`Bytes`] itself: most names have fewer.
const MOST_SHORT_BYTES: usize = 22;

#[derive(Drop)]
enum Kept {
    /// The first `len` of the bytes; those after them mean nothing.
    Short {
        len: u8,
        bytes: [u8; MOST_SHORT_BYTES],
    },
    Long(Box<Vec<u8>>),
}

fn front_of(bytes: &[u8], len: usize) -> &[u8]
    ensures { result.now ≡ take len bytes.now }
{
    bytes.get(..len).unwrap_or(bytes)
}

/// The bytes of a name, of which few take no allocation; seen as their list.
#[derive(Drop)]
pub struct Bytes {
    kept: Kept,
}

impl Model for Bytes {
    ghost use Rattle.std.specs.Prelude.{ℕ, List};
    ghost use Rattle.kx_lex.specs.Kept.{kept_bytes};

    ghost Value = { List ℕ };

    ghost view = { λ bytes. kept_bytes bytes.kept };
}

impl Bytes {
    ghost use Rattle.std.specs.Prelude.{◌≡◌, ◌≤◌, IfOk, take};

    /// These bytes.
    ///
    /// # Errors
    /// Where a growth is refused.
    pub fn of(alloc: Global, bytes: &[u8]) -> Result<Bytes, AllocError>
        ensures { IfOk result (λ kept. kept ≡ bytes.now) }
    {
        if bytes.len() > MOST_SHORT_BYTES {
            let long = Box::new(alloc, Vec::from_slice(alloc, bytes)?)?;
            return Ok(Bytes {
                kept: Kept::Long(long),
            });
        }
        let mut short = [0; MOST_SHORT_BYTES];
        short[..bytes.len()].copy_from_slice(bytes);
        Ok(Bytes::short(&short, bytes.len()))
    }

    /// The first `len` of these bytes, or all where they are fewer. Where a few of many are wanted, a
    /// fixed number is copied, which is faster.
    ///
    /// # Errors
    /// Where a growth is refused.
    #[inline(always)]
    pub fn front(alloc: Global, bytes: &[u8], len: usize) -> Result<Bytes, AllocError>
        ensures { IfOk result (λ kept. kept ≡ take len bytes.now) }
    {
        match bytes.first_chunk::<MOST_SHORT_BYTES>() {
            Some(chunk) if len <= MOST_SHORT_BYTES => Ok(Bytes::short(chunk, len)),
            _ => Bytes::of(alloc, front_of(bytes, len)),
        }
    }

    /// The first `len` of these bytes.
    #[inline(always)]
    fn short(bytes: &[u8; MOST_SHORT_BYTES], len: usize) -> Bytes
        requires { len ≤ 22 }
        ensures { result ≡ take len bytes.now }
    {
        Bytes {
            kept: Kept::Short {
                len: len as u8,
                bytes: *bytes,
            },
        }
    }

    /// The bytes in order.
    pub fn as_slice(&self) -> &[u8]
        ensures { result.now ≡ self.now }
    {
        match &self.kept {
            Kept::Short { len, bytes } => front_of(bytes, usize::from(*len)),
            Kept::Long(bytes) => bytes.as_slice(),
        }
    }
}
