//! A reader whose first bytes are kept.
use ks_core::Feed;
use kx_lex::MOST_TEXT_BYTES;
use kx_reach::source_in;
use std::alloc::Global;
use std::io;

/// A reader that keeps the bytes of which a source may consist, so that a fault of it can be shown.
#[derive(Drop)]
pub struct Kept<F> {
    feed: F,
    bytes: Vec<u8>,
    is_full: bool,
}

impl<F: Feed> Kept<F> {
    /// Of a reader of which nothing was taken: no memory is asked for yet.
    pub fn new(alloc: Global, feed: F) -> Kept<F> {
        Kept {
            feed,
            bytes: Vec::new(alloc),
            is_full: false,
        }
    }

    /// The source among the first bytes that were taken, as far as there is memory for them: all before a line `%%`.
    pub fn source(&self) -> &[u8] {
        source_in(self.bytes.as_slice())
    }
}

impl<F: Feed> Feed for Kept<F> {
    ghost left = { λ s. F.left s.feed };

    ghost taken = { λ s. F.taken s.feed };

    ghost failures = { λ s. F.failures s.feed };

    fn take(&mut self, buffer: &mut [u8]) -> io::Result<usize> {
        let count = self.feed.take(buffer)?;
        if !self.is_full {
            let is_refused = self.bytes.extend_from_slice(&buffer[..count]).is_err();
            self.is_full = is_refused || self.bytes.len() > MOST_TEXT_BYTES;
        }
        Ok(count)
    }
}
