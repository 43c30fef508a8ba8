//! What bytes are read from and written to.
ghost use Rattle.std.specs.Prelude.{◌≡◌, ◌<◌, ◌≤◌, ℕ, List, Option, length, IfOk};
ghost use Rattle.std.specs.Io.KnownBytes.{ReadConsumes, WriteAppends};
ghost use Rattle.ks_core.specs.Device.{Adds, Counts};

use std::io;
use std::io::{Read, Write};

/// A source of bytes, as a file, a terminal or a slice.
pub trait Feed {
    // The bytes that are left to take, where they are known.
    ghost left: { Self → Option (List ℕ) };

    // How many bytes were taken.
    ghost taken: { Self → ℕ };

    // A number that each failure changes.
    ghost failures: { Self → ℕ };

    /// Takes the next bytes into the front of `buffer`, and answers how many. 0 is the end, where the buffer has room.
    fn take(&mut self, buffer: &mut [u8]) -> io::Result<usize>
        ensures within { IfOk result (λ n. n ≤ length buffer.new) }
        ensures bytes { ReadConsumes (left self.old) (left self.new) result buffer.new }
        ensures added { Adds (taken self.old) (taken self.new) result }
        ensures counted { Counts (failures self.old) (failures self.new) result };
}

/// A sink of bytes.
pub trait Out {
    // The bytes that were put, where they are known.
    ghost written: { Self → Option (List ℕ) };

    // A number that each failure changes.
    ghost failures: { Self → ℕ };

    /// Puts a beginning of `piece`, at least 1 byte where it has one, and answers how many.
    fn put(&mut self, piece: &[u8]) -> io::Result<usize>
        ensures within { IfOk result (λ n. n ≤ length piece.now) }
        ensures some { IfOk result (λ n. 0 < length piece.now → 0 < n) }
        ensures bytes { WriteAppends (written self.old) (written self.new) result piece.now }
        ensures counted { Counts (failures self.old) (failures self.new) result };
}

/// A reader or a writer of std as a device. What it holds of the device's bytes is what std's traits say of them.
#[derive(Drop)]
pub struct Lent<D> {
    /// The reader or the writer.
    pub device: D,
    /// How many bytes were taken.
    pub taken: u64,
    /// A number that each failure changes.
    pub failures: u64,
}

impl<D> Lent<D> {
    /// The reader or writer as a device that has not failed yet.
    pub fn new(device: D) -> Lent<D>
        ensures device { result.device ≡ device }
        ensures taken { result.taken ≡ 0 }
        ensures failures { result.failures ≡ 0 }
    {
        Lent {
            device,
            taken: 0,
            failures: 0,
        }
    }
}

impl<D: Read> Feed for Lent<D> {
    ghost left = { λ s. D.remaining s.device };

    ghost taken = { λ s. s.taken };

    ghost failures = { λ s. s.failures };

    /// One `read` of the device. Where the count of bytes would pass 2^64, it is an error, and nothing is read.
    fn take(&mut self, buffer: &mut [u8]) -> io::Result<usize> {
        if buffer.len() as u64 > u64::MAX - self.taken {
            self.failures = self.failures.wrapping_add(1);
            return Err(io::Error::other("too many bytes were taken to be counted"));
        }
        match self.device.read(buffer) {
            Ok(count) => {
                self.taken += count as u64;
                Ok(count)
            }
            Err(error) => {
                self.failures = self.failures.wrapping_add(1);
                Err(error)
            }
        }
    }
}

impl<D: Write> Out for Lent<D> {
    ghost written = { λ s. D.contents s.device };

    ghost failures = { λ s. s.failures };

    /// One `write` of the device. A write of 0 bytes of a piece that has one is an error.
    fn put(&mut self, piece: &[u8]) -> io::Result<usize> {
        let result = match self.device.write(piece) {
            Ok(0) if !piece.is_empty() => Err(io::Error::from(io::ErrorKind::WriteZero)),
            other => other,
        };
        if result.is_err() {
            self.failures = self.failures.wrapping_add(1);
        }
        result
    }
}
