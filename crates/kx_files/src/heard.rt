//! A reader whose last lines are kept.
use ks_core::Feed;
use std::alloc::Global;
use std::io;

/// So many bytes of the last line are kept.
const MOST_KEPT: usize = 128;

/// The lines among the bytes that were given last.
#[derive(Drop)]
struct Lines {
    /// The front of the line that those bytes went on with, and those bytes.
    bytes: Vec<u8>,
    /// How many lines ended before.
    before: u64,
    /// Whether no memory was left for them.
    is_lost: bool,
}

/// A reader that keeps the lines among the bytes that it gave last, so that one that is refused can be shown.
#[derive(Drop)]
pub struct Heard<F> {
    /// The reader itself.
    pub feed: F,
    lines: Lines,
}

/// How many lines end in bytes, which is how many line feeds there are.
pub fn lines_in(bytes: &[u8]) -> u64 {
    bytes.iter().fold(0u64, |count, byte| {
        count.saturating_add(u64::from(*byte == b'\n'))
    })
}

/// The line that the end of bytes cuts.
fn last_line(bytes: &[u8]) -> &[u8] {
    bytes.rsplit(|byte| *byte == b'\n').next().unwrap_or(bytes)
}

impl Lines {
    fn line(&self, number: u64) -> Option<&[u8]> {
        if self.is_lost {
            return None;
        }
        let place = number.checked_sub(1)?.checked_sub(self.before)?;
        let place = usize::try_from(place).ok()?;
        self.bytes
            .as_slice()
            .split(|byte| *byte == b'\n')
            .nth(place)
    }

    /// Keeps further bytes in the place of those before, of which the front of the last line stays.
    fn keep(&mut self, further: &[u8]) {
        let bytes = self.bytes.as_slice();
        self.before = self.before.saturating_add(lines_in(bytes));
        let line = last_line(bytes);
        let line = line.get(..MOST_KEPT).unwrap_or(line);
        let is_kept = match Vec::from_slice(*self.bytes.allocator(), line) {
            Ok(kept) => {
                self.bytes = kept;
                self.bytes.extend_from_slice(further).is_ok()
            }
            Err(_) => false,
        };
        self.is_lost = self.is_lost || !is_kept;
    }
}

impl<F: Feed> Heard<F> {
    /// Of a reader of which nothing was taken: no memory is asked for yet.
    pub fn new(alloc: Global, feed: F) -> Heard<F> {
        let bytes = Vec::new(alloc);
        Heard {
            feed,
            lines: Lines {
                bytes,
                before: 0,
                is_lost: false,
            },
        }
    }

    /// The line of a number, counted from 1, where it is among those that are kept.
    pub fn line(&self, number: u64) -> Option<&[u8]> {
        self.lines.line(number)
    }
}

impl<F: Feed> Feed for Heard<F> {
    ghost left = { λ s. F.left s.feed };

    ghost taken = { λ s. F.taken s.feed };

    ghost failures = { λ s. F.failures s.feed };

    fn take(&mut self, buffer: &mut [u8]) -> io::Result<usize> {
        let count = self.feed.take(buffer)?;
        self.lines.keep(&buffer[..count]);
        Ok(count)
    }
}
