//! A file whose bytes were told.
ghost use Rattle.std.specs.IoError.{error_kind};
ghost use Rattle.std.specs.Prelude.{◌≡◌, ◌≤◌, IsErrAnd, length};
ghost use Rattle.std.specs.declared.io.ErrorKind.TheVariants.{Unsupported};

use std::fs::{Metadata, OpenFile};
use std::io;
use std::io::{Read, Seek, SeekFrom, Write};
use std::rc::Rc;

/// What isn't done here: nothing is written.
pub(crate) fn unsupported<T>() -> io::Result<T>
    ensures { IsErrAnd result (λ e. error_kind e ≡ Unsupported) }
{
    Err(io::Error::from(io::ErrorKind::Unsupported))
}

/// A file that is open for reading, over bytes that were told.
#[derive(Drop)]
pub struct ToldFile {
    bytes: Rc<Vec<u8>>,
    place: usize,
}

impl ToldFile {
    pub(crate) fn of(bytes: Rc<Vec<u8>>) -> ToldFile {
        ToldFile { bytes, place: 0 }
    }

    /// The bytes from its place on.
    fn rest(&self) -> &[u8] {
        self.bytes.as_slice().get(self.place..).unwrap_or(&[])
    }
}

/// Copies the front of bytes into a buffer, as far as it has room; answers how many.
fn copy_front(from: &[u8], buffer: &mut [u8]) -> usize
    ensures { result ≤ length buffer.new }
{
    let count = from.len().min(buffer.len());
    buffer[..count].copy_from_slice(&from[..count]);
    count
}

impl Read for ToldFile {
    fn read(&mut self, buf: &mut [u8]) -> io::Result<usize> {
        let count = copy_front(self.rest(), buf);
        self.place = self.place.saturating_add(count);
        Ok(count)
    }
}

impl Write for ToldFile {
    fn write(&mut self, _buf: &[u8]) -> io::Result<usize> {
        unsupported()
    }

    fn flush(&mut self) -> io::Result<()> {
        Ok(())
    }
}

impl Seek for ToldFile {
    fn seek(&mut self, to: SeekFrom) -> io::Result<u64> {
        let place = match to {
            SeekFrom::Start(place) => place as usize,
            SeekFrom::End(0) => self.bytes.len(),
            SeekFrom::Current(0) => self.place,
            _ => return unsupported(),
        };
        self.place = place;
        Ok(place as u64)
    }
}

impl OpenFile for ToldFile {
    fn metadata(&self) -> io::Result<Metadata> {
        Ok(Metadata::of_file(self.bytes.len() as u64))
    }

    fn set_len(&self, _size: u64) -> io::Result<()> {
        unsupported()
    }

    fn sync_all(&self) -> io::Result<()> {
        unsupported()
    }

    fn sync_data(&self) -> io::Result<()> {
        unsupported()
    }
}
