//! Answers come before more is read.
ghost use Rattle.std.specs.Prelude.{None};

use super::SAMPLE;
use crate::sources::{builtin, no_files};
use ks_core::{Feed, Out};
use kx_tool::session;
use std::cell::Cell;
use std::io;
use std::test::Fail;

/// A writer that counts the lines that are put.
#[derive(Drop)]
struct Counting<'a> {
    lines: &'a Cell<usize>,
}

impl Out for Counting<'_> {
    ghost written = { λ s. None };

    ghost failures = { λ s. 0 };

    fn put(&mut self, piece: &[u8]) -> io::Result<usize> {
        let lines = piece.iter().filter(|byte| **byte == b'\n').count();
        self.lines.set(self.lines.get().saturating_add(lines));
        Ok(piece.len())
    }
}

/// A reader that gives a piece a call, and looks how many lines are put by then.
#[derive(Drop)]
struct Looking<'a> {
    pieces: &'a [&'a [u8]],
    /// How many lines have to be put before each call.
    wanted: &'a [usize],
    calls: usize,
    taken: u64,
    lines: &'a Cell<usize>,
    is_late: bool,
}

impl Feed for Looking<'_> {
    ghost left = { λ s. None };

    ghost taken = { λ s. s.taken };

    ghost failures = { λ s. 0 };

    fn take(&mut self, buffer: &mut [u8]) -> io::Result<usize> {
        let call = self.calls;
        self.calls = call.saturating_add(1);
        let lines = self.lines.get();
        match self.wanted.get(call) {
            Some(wanted) if *wanted == lines => {}
            _ => self.is_late = true,
        }
        let Some(piece) = self.pieces.get(call) else {
            return Ok(0);
        };
        let count = piece.len().min(buffer.len());
        let Some(taken) = self.taken.checked_add(count as u64) else {
            return Ok(0);
        };
        self.taken = taken;
        buffer[..count].copy_from_slice(&piece[..count]);
        Ok(count)
    }
}

#[test]
fn answers_are_put_before_more_is_read(rt: HostRuntime) -> Result<(), Fail> {
    let lines = Cell::new(0);
    let mut feed = Looking {
        pieces: &[
            SAMPLE,
            b"%%\n".as_slice(),
            b"down 38\n",
            b"up 38\ndown 9\n",
            b"up",
            b" 9\n",
        ],
        wanted: &[0, 0, 0, 1, 3, 3, 4],
        calls: 0,
        taken: 0,
        lines: &lines,
        is_late: false,
    };
    let files = no_files(rt.alloc())?;
    let names = builtin(rt.alloc())?;
    let ended = session(
        rt.alloc(),
        &mut feed,
        &files,
        &names,
        &mut Counting { lines: &lines },
    );
    assert!(rt; ended == Ok(()));
    assert!(rt; !feed.is_late && feed.calls == 7);
    Ok(())
}
