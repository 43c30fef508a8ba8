//! Devices over slices, which take no memory. They can be slow, and fail at a byte, as real ones do.
ghost use Rattle.std.specs.Prelude.{◌≡◌, ◌≢◌, ◌<◌, ◌≤◌, ◌+◌, ◌-◌, ◌++◌, [], length, take, drop, min, Some, None, IfOk, OnErr, MatchResult};
ghost use Rattle.std.specs.Io.KnownBytes.{ReadConsumes, WriteAppends};
ghost use Rattle.ks_core.specs.Device.{Adds, Counts};
ghost use Rattle.ks_core.specs.Memory.{FailsForGood, no_limits, moved, after_move, taken_of, put_of};

use crate::device::{Feed, Out};
use std::io;
use std::marker::Model;

/// How a device in memory is slow, and when it fails.
#[derive(Drop)]
struct Limits {
    most: Option<usize>,
    fails_in: Option<usize>,
    failures: u64,
}

impl Limits {
    fn none() -> Limits
        ensures { result ≡ no_limits }
    {
        Limits {
            most: None,
            fails_in: None,
            failures: 0,
        }
    }

    fn with_most(self, most: usize) -> Limits
        ensures { result ≡ record self { most = Some most } }
    {
        Limits {
            most: Some(most),
            ..self
        }
    }

    fn failing_after(self, bytes: usize) -> Limits
        ensures { result ≡ record self { fails_in = Some bytes } }
    {
        Limits {
            fails_in: Some(bytes),
            ..self
        }
    }

    /// How many of `len` bytes the device moves in this call. They count as moved.
    fn grant(&mut self, len: usize) -> io::Result<usize>
        ensures count { MatchResult result (λ n. moved self.old len ≡ Some n) (λ _.
            moved self.old len ≡ None) }
        ensures within { IfOk result (λ n. n ≤ len) }
        ensures some { IfOk result (λ n. 0 < len → 0 < n) }
        ensures after { IfOk result (λ n. self.new ≡ after_move self.old n) }
        ensures failed { OnErr result (self.new
            ≡ record self.old { failures = self.new.failures }) }
        ensures counted { Counts self.old.failures self.new.failures result }
        ensures for_good { OnErr result (FailsForGood (moved self.new)) }
    {
        if self.most == Some(0) || self.fails_in == Some(0) {
            return Err(self.fail());
        }
        let mut n = len;
        if let Some(most) = self.most {
            n = n.min(most);
        }
        if let Some(limit) = self.fails_in {
            n = n.min(limit);
            self.fails_in = Some(limit - n);
        }
        Ok(n)
    }

    fn fail(&mut self) -> io::Error
        ensures failed { self.new ≡ record self.old { failures = self.new.failures } }
        ensures counted { self.new.failures ≢ self.old.failures }
    {
        self.failures = self.failures.wrapping_add(1);
        io::Error::other("the device in memory fails here")
    }
}

/// A slice to take bytes from. It can have a most of bytes a call, and a byte at which it fails from then on.
#[derive(Drop)]
pub struct MemFeed<'a> {
    left: &'a [u8],
    taken: usize,
    limits: Limits,
}

impl<'a> Model for MemFeed<'a> {
    ghost use Rattle.std.specs.Prelude.{◌+◌, ◌<◌, ◌^◌, length};
    ghost use Rattle.ks_core.specs.Memory.{Source};

    ghost Value = { Source };

    ghost view = { λ s. record { left = s.left.now; taken = s.taken; limits = s.limits } };

    ghost invariant = { λ s. s.taken + length s.left.now < 2 ^ 64 };
}

impl<'a> MemFeed<'a> {
    /// A device that gives these bytes, as many as fit in each call, and then the end.
    pub fn new(bytes: &'a [u8]) -> MemFeed<'a>
        ensures { result ≡ record { left = bytes.now; taken = 0; limits = no_limits } }
    {
        MemFeed {
            left: bytes,
            taken: 0,
            limits: Limits::none(),
        }
    }

    /// The same device, which gives at most `most` bytes a call. With a most of 0 it fails.
    pub fn with_most(self, most: usize) -> MemFeed<'a>
        ensures { result
            ≡ record self.entry { limits = record self.entry.limits { most = Some most } } }
    {
        MemFeed {
            left: self.left,
            taken: self.taken,
            limits: self.limits.with_most(most),
        }
    }

    /// The same device, which fails once `bytes` more bytes are taken.
    pub fn failing_after(self, bytes: usize) -> MemFeed<'a>
        ensures { result
            ≡ record self.entry { limits = record self.entry.limits { fails_in = Some bytes } } }
    {
        MemFeed {
            left: self.left,
            taken: self.taken,
            limits: self.limits.failing_after(bytes),
        }
    }
}

impl Feed for MemFeed<'_> {
    ghost left = { λ s. Some s.left };

    ghost taken = { λ s. s.taken };

    ghost failures = { λ s. s.limits.failures };

    fn take(&mut self, buffer: &mut [u8]) -> io::Result<usize>
        ensures within { IfOk result (λ n. n ≤ length buffer.new) }
        ensures bytes { ReadConsumes (Some self.old.left) (Some self.new.left) result buffer.new }
        ensures added { Adds self.old.taken self.new.taken result }
        ensures counted { Counts self.old.limits.failures self.new.limits.failures result }

        ensures count { MatchResult result
            (λ n. taken_of self.old (length buffer.old) ≡ Some n)
            (λ _. taken_of self.old (length buffer.old) ≡ None) }
        ensures copied { IfOk result (λ n. buffer.new ≡ take n self.old.left ++ drop n buffer.old) }
        ensures kept { OnErr result (buffer.new ≡ buffer.old) }
        ensures after { IfOk result (λ n. self.new ≡ record {
          left = drop n self.old.left;
          taken = self.old.taken + n;
          limits = after_move self.old.limits n;
        }) }
        ensures failed { OnErr result (self.new.left ≡ self.old.left) }
        ensures for_good { OnErr result (FailsForGood (taken_of self.new)) }
    {
        if buffer.is_empty() {
            return Ok(0);
        }
        let n = self.limits.grant(self.left.len().min(buffer.len()))?;
        let (front, rest) = self.left.split_at(n);
        buffer[..n].copy_from_slice(front);
        self.left = rest;
        self.taken += n;
        Ok(n)
    }
}

/// A slice to put bytes to. It can have a most of bytes a call, and a byte at which it fails from then on.
#[derive(Drop)]
pub struct MemOut<'a> {
    slice: &'a mut [u8],
    len: usize,
    limits: Limits,
}

impl<'a> Model for MemOut<'a> {
    ghost use Rattle.std.specs.Prelude.{◌-◌, ◌≤◌, length, take};
    ghost use Rattle.ks_core.specs.Memory.{Sink};

    ghost Value = { Sink };

    ghost view = { λ s. record {
      written = take s.len s.slice.now;
      room = length s.slice.now - s.len;
      limits = s.limits;
    } };

    ghost invariant = { λ s. s.len ≤ length s.slice.now };
}

impl<'a> MemOut<'a> {
    /// A device that puts bytes into the slice, from its front on.
    pub fn new(slice: &'a mut [u8]) -> MemOut<'a>
        ensures { result ≡ record { written = []; room = length slice.old; limits = no_limits } }
    {
        MemOut {
            slice,
            len: 0,
            limits: Limits::none(),
        }
    }

    /// The same device, which puts at most `most` bytes a call. With a most of 0 it fails.
    pub fn with_most(self, most: usize) -> MemOut<'a>
        ensures { result
            ≡ record self.entry { limits = record self.entry.limits { most = Some most } } }
    {
        MemOut {
            slice: self.slice,
            len: self.len,
            limits: self.limits.with_most(most),
        }
    }

    /// The same device, which fails once `bytes` more bytes are put.
    pub fn failing_after(self, bytes: usize) -> MemOut<'a>
        ensures { result
            ≡ record self.entry { limits = record self.entry.limits { fails_in = Some bytes } } }
    {
        MemOut {
            slice: self.slice,
            len: self.len,
            limits: self.limits.failing_after(bytes),
        }
    }

    /// The bytes that were put.
    pub fn written(&self) -> &[u8]
        ensures { result.now ≡ self.now.written }
    {
        &self.slice[..self.len]
    }
}

impl Out for MemOut<'_> {
    ghost written = { λ s. Some s.written };

    ghost failures = { λ s. s.limits.failures };

    fn put(&mut self, piece: &[u8]) -> io::Result<usize>
        ensures within { IfOk result (λ n. n ≤ length piece.now) }
        ensures some { IfOk result (λ n. 0 < length piece.now → 0 < n) }
        ensures bytes { WriteAppends (Some self.old.written) (Some self.new.written) result
            piece.now }
        ensures counted { Counts self.old.limits.failures self.new.limits.failures result }

        ensures count { MatchResult result
            (λ n. put_of self.old (length piece.now) ≡ Some n)
            (λ _. put_of self.old (length piece.now) ≡ None) }
        ensures after { IfOk result (λ n. self.new ≡ record {
          written = self.old.written ++ take n piece.now;
          room = self.old.room - n;
          limits = after_move self.old.limits n;
        }) }
        ensures failed { OnErr result (self.new.written ≡ self.old.written) }
        ensures for_good { OnErr result (FailsForGood (put_of self.new)) }
    {
        if piece.is_empty() {
            return Ok(0);
        }
        let room = self.slice.len() - self.len;
        if room == 0 {
            return Err(self.limits.fail());
        }
        let n = self.limits.grant(room.min(piece.len()))?;
        self.slice[self.len..self.len + n].copy_from_slice(&piece[..n]);
        self.len += n;
        Ok(n)
    }
}
