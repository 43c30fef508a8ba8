//! Sources that are read before they are compiled.
ghost use Rattle.std.specs.Prelude.{◌≤◌, length};

use ks_core::Feed;
use kx_lex::MOST_TEXT_BYTES;
use std::alloc::Global;
use std::io;

/// So many bytes are read at a time.
const CHUNK: usize = 4096;

/// The source at the front of bytes: all before a line `%%`.
pub fn source_in(bytes: &[u8]) -> &[u8] {
    let mut start: usize = 0;
    for line in bytes.split(|byte| *byte == b'\n') {
        if line == b"%%".as_slice() {
            return bytes.get(..start).unwrap_or(bytes);
        }
        start = start.saturating_add(line.len()).saturating_add(1);
    }
    bytes
}

/// Where the last line of bytes starts, and whether a line `%%` with its line feed stands from `start` on.
fn scan(bytes: &[u8], start: usize) -> (usize, bool) {
    let mut next = start;
    let rest = bytes.get(start..).unwrap_or(&[]);
    for line in rest.split(|byte| *byte == b'\n') {
        let behind = next.saturating_add(line.len());
        if behind >= bytes.len() {
            break;
        }
        if line == b"%%".as_slice() {
            return (next, true);
        }
        next = behind.saturating_add(1);
    }
    (next, false)
}

/// Copies the front of bytes into a buffer, as far as it has room; answers how many.
fn copy_front(from: &[u8], buffer: &mut [u8]) -> usize
    ensures within { result ≤ length buffer.new }
    ensures some { result ≤ length from.now }
{
    let count = from.len().min(buffer.len());
    buffer[..count].copy_from_slice(&from[..count]);
    count
}

/// A reader whose first bytes were read before, and are given again.
#[derive(Drop)]
pub struct Ahead<F> {
    bytes: Vec<u8>,
    given: usize,
    feed: F,
}

impl<F: Feed + Drop> Ahead<F> {
    /// Reads up to a line `%%`, to the end, or so far that no source has more bytes.
    ///
    /// # Errors
    /// Where the reader fails, or no memory is left.
    pub fn read(alloc: Global, feed: F) -> io::Result<Ahead<F>> {
        let mut feed = feed;
        let mut bytes = Vec::new(alloc);
        let mut start = 0;
        for _ in 0..u64::MAX {
            let mut chunk = [0u8; CHUNK];
            let count = feed.take(&mut chunk)?;
            bytes.extend_from_slice(&chunk[..count])?;
            let (line, is_whole) = scan(bytes.as_slice(), start);
            // A line of three bytes is not the one that is looked for, however it goes on, and isn't read again.
            start = line.max(bytes.len().saturating_sub(3));
            if count == 0 || is_whole || bytes.len() > MOST_TEXT_BYTES {
                break;
            }
        }
        Ok(Ahead {
            bytes,
            given: 0,
            feed,
        })
    }

    /// The source among the bytes that were read.
    pub fn source(&self) -> &[u8] {
        source_in(self.bytes.as_slice())
    }
}

impl<F: Feed> Feed for Ahead<F> {
    ghost use Rattle.std.specs.Prelude.{◌+◌, None};

    ghost left = { λ _. None };

    ghost taken = { λ s. s.given + F.taken s.feed };

    ghost failures = { λ s. F.failures s.feed };

    fn take(&mut self, buffer: &mut [u8]) -> io::Result<usize> {
        if self.given >= self.bytes.len() {
            return self.feed.take(buffer);
        }
        let count = copy_front(&self.bytes.as_slice()[self.given..], buffer);
        self.given += count;
        Ok(count)
    }
}
