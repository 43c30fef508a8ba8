//! What is read: the bytes that a reader gave, one at a time.
ghost use Rattle.std.specs.Prelude.{◌≡◌, ◌≢◌, ◌+◌, ◌∷◌, [], ◌==◌, ◌≤◌, not, length, IfOk, IfSome, IfNone, OnOk, OnErr};
ghost use Rattle.std.specs.List.{take_while};
ghost use Rattle.std.specs.Io.KnownBytes.{IsAtEnd, Keeps};
ghost use Rattle.kx_lines.specs.Input.{Came, FailsBehind, FailsToRead, budget, coming, nothing_read};
ghost use Rattle.kx_lines.specs.LineParts.{MovesPart};

use crate::event::Line;
use ks_core::Feed;
use std::marker::Model;

/// A reader of event lines, or of a source and event lines, may give this many bytes: 64 MiB.
pub const MOST_BYTES: u64 = 67_108_864;

const CHUNK: usize = 4096;

/// The reader failed, or gave a byte past the limit.
#[derive(Clone, Copy, PartialEq, Eq)]
pub struct ReadFailed;

/// Bytes that were taken from a reader and not used yet; the reader stands beside them.
#[derive(Drop)]
pub struct Input {
    chunk: [u8; CHUNK],
    start: usize,
    stop: usize,
    /// How many more bytes may be taken.
    allowance: u64,
}

impl Model for Input {
    ghost use Rattle.std.specs.Prelude.{◌≤◌, ◌-◌, take, drop};
    ghost use Rattle.kx_lines.specs.Input.{Waiting};

    ghost Value = { Waiting };

    ghost view = { λ s. record {
      bytes = drop s.start (take s.stop s.chunk);
      allowance = s.allowance;
    } };

    ghost invariant = { λ s. (s.start ≤ s.stop) × (s.stop ≤ 4096) };
}

/// How many bytes stand before the first line feed; all where there is none.
fn before_line_feed(bytes: &[u8]) -> usize
    ensures value { result ≡ length (take_while (λ byte. not (byte == 10)) bytes.now) }
    ensures within { result ≤ length bytes.now }
{
    bytes.iter().take_while(|byte| **byte != b'\n').count()
}

impl Input {
    /// Nothing was taken yet.
    pub fn new() -> Input
        ensures { result ≡ nothing_read }
    {
        Input {
            chunk: [0; CHUNK],
            start: 0,
            stop: 0,
            allowance: MOST_BYTES,
        }
    }

    /// Whether the next byte has to be taken from the reader.
    pub fn is_empty(&self) -> bool
        ensures { result ≡ (length self.now.bytes == 0) }
    {
        self.start == self.stop
    }

    /// Moves the bytes that wait to a line, up to its line feed.
    pub fn fill_line(&mut self, line: &mut Line)
        ensures { MovesPart self.old self.new line.old line.new }
    {
        let waiting = &self.chunk[self.start..self.stop];
        let count = before_line_feed(waiting);
        line.push_all(&waiting[..count]);
        self.start += count;
    }

    /// The next byte, or none at the end. A source is read by it, so that a call would be one for each byte.
    #[inline(always)]
    pub fn next_byte<F: Feed>(&mut self, feed: &mut F) -> Result<Option<u8>, ReadFailed>
        ensures some { IfOk result (λ byte.
            IfSome byte (λ b. Came (coming self.old (F.left feed.old)) (budget self.old)
            (coming self.new (F.left feed.new)) (budget self.new) (b ∷ []))) }
        ensures none { IfOk result (λ byte.
            IfNone byte (IsAtEnd (coming self.old (F.left feed.old)))) }
        ensures counted { OnOk result (F.failures feed.new ≡ F.failures feed.old) }
        ensures taken { OnOk result (F.taken feed.new + self.new.allowance
            ≡ F.taken feed.old + self.old.allowance) }
        ensures empty { OnErr result (self.old.bytes ≡ []) }
        ensures failed { OnErr result (FailsBehind F.left F.taken F.failures self.old feed.old
            feed.new) }
    {
        if self.is_empty() {
            self.fill(feed)?;
        }
        Ok(self.next_waiting())
    }

    /// The next byte of those that wait.
    fn next_waiting(&mut self) -> Option<u8>
        ensures some { IfSome result (λ b. self.old.bytes ≡ b ∷ self.new.bytes) }
        ensures none { IfNone result (self.old.bytes ≡ []) }
        ensures allowed { self.new.allowance ≡ self.old.allowance }
    {
        if self.start == self.stop {
            return None;
        }
        let byte = self.chunk[self.start];
        self.start += 1;
        Some(byte)
    }

    /// Takes the next bytes; none are there at the end.
    fn fill<F: Feed>(&mut self, feed: &mut F) -> Result<(), ReadFailed>
        requires { self.old.bytes ≡ [] }
        ensures kept { OnOk result (Keeps (F.left feed.old) (coming self.new (F.left feed.new))) }
        ensures end { OnOk result (self.new.bytes ≡ [] → IsAtEnd (F.left feed.old)) }
        ensures budget { OnOk result (budget self.new ≡ budget self.old) }
        ensures counted { OnOk result (F.failures feed.new ≡ F.failures feed.old) }
        ensures taken { OnOk result (F.taken feed.new + self.new.allowance
            ≡ F.taken feed.old + self.old.allowance) }
        ensures failed { OnErr result (FailsToRead F.left F.taken F.failures feed.old feed.new
            self.old.allowance) }
    {
        let mut chunk = [0; CHUNK];
        let Ok(count) = feed.take(&mut chunk) else {
            return Err(ReadFailed);
        };
        if count as u64 > self.allowance {
            return Err(ReadFailed);
        }
        self.allowance -= count as u64;
        self.chunk = chunk;
        self.start = 0;
        self.stop = count;
        Ok(())
    }
}
