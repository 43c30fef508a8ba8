//! Devices that fail at one call and at no other: what fails isn't tried again, also where a signal interrupted it, since
//! what the device did by then isn't known.
use super::SAMPLE;
use super::devices::{ANSWERS, IMAGE, LINES, session_input};
use crate::sources::{builtin, no_files};
use ks_core::{Lent, MemFeed, MemOut};
use kx_image::{UpgradeFault, View, upgrade, write};
use kx_print::print;
use kx_tool::{ReplayFault, SessionFault, dump, replay, session};
use std::io;
use std::io::{ErrorKind, Read, Write};
use std::process::Abort;
use std::test::Fail;

/// A reader that a signal interrupts at one call.
#[derive(Drop)]
struct Interrupted<'a> {
    bytes: &'a [u8],
    at: usize,
    calls: usize,
}

impl Read for Interrupted<'_> {
    fn read(&mut self, buf: &mut [u8]) -> io::Result<usize> {
        let call = self.calls;
        self.calls = call.saturating_add(1);
        if call == self.at {
            return Err(io::Error::from(ErrorKind::Interrupted));
        }
        self.bytes.read(buf)
    }
}

/// A device of bytes that is interrupted at that call.
fn reader_of(bytes: &[u8], at: usize) -> Lent<Interrupted<'_>> {
    Lent::new(Interrupted {
        bytes,
        at,
        calls: 0,
    })
}

/// A writer that a signal interrupts at its first call, or that takes nothing there; from then on it takes all.
#[derive(Drop)]
struct Once {
    is_interrupted: bool,
    calls: usize,
}

impl Write for Once {
    fn write(&mut self, buf: &[u8]) -> io::Result<usize> {
        let call = self.calls;
        self.calls = call.saturating_add(1);
        match call {
            0 if self.is_interrupted => Err(io::Error::from(ErrorKind::Interrupted)),
            0 => Ok(0),
            _ => Ok(buf.len()),
        }
    }

    fn flush(&mut self) -> io::Result<()> {
        Ok(())
    }
}

fn writer(is_interrupted: bool) -> Lent<Once> {
    Lent::new(Once {
        is_interrupted,
        calls: 0,
    })
}

/// At which call a reader is interrupted, and how often it is called and how many bytes are written by then.
type Row = (usize, usize, usize);

/// The first two answers have 132 bytes; the last line has no line feed, so it isn't answered before the end is read.
const ROWS: [Row; 2] = [(0, 1, 0), (1, 2, 132)];

/// What stands where a reader was interrupted.
fn check_interrupted(rt: &impl Abort, feed: &Lent<Interrupted>, written: &[u8], row: Row) {
    let (at, calls, length) = row;
    assert!(rt; feed.device.calls == calls, "at {at}");
    assert!(rt; written.len() == length, "at {at}");
    assert!(rt; ANSWERS.starts_with(written), "at {at}");
}

#[test]
fn replays_of_readers_that_are_interrupted(rt: HostRuntime) -> Result<(), Fail> {
    let names = builtin(rt.alloc())?;
    for row in &ROWS {
        let mut feed = reader_of(LINES, row.0);
        let mut room = [0u8; 512];
        let mut out = MemOut::new(&mut room);
        let ended = replay(rt.alloc(), &mut feed, &IMAGE, &names, &mut out);
        assert!(rt; ended == Err(ReplayFault::Read));
        check_interrupted(&rt, &feed, out.written(), *row);
    }
    Ok(())
}

#[test]
fn sessions_of_readers_that_are_interrupted(rt: HostRuntime) -> Result<(), Fail> {
    let names = builtin(rt.alloc())?;
    let files = no_files(rt.alloc())?;
    let input = session_input(rt.alloc())?;
    for row in &ROWS {
        let mut feed = reader_of(input.as_slice(), row.0);
        let mut room = [0u8; 512];
        let mut out = MemOut::new(&mut room);
        let ended = session(rt.alloc(), &mut feed, &files, &names, &mut out);
        assert!(rt; ended == Err(SessionFault::Replay(ReplayFault::Read)));
        check_interrupted(&rt, &feed, out.written(), *row);
    }
    Ok(())
}

#[test]
fn replays_to_writers_that_fail_once(rt: HostRuntime) -> Result<(), Fail> {
    let names = builtin(rt.alloc())?;
    for is_interrupted in [true, false] {
        let mut out = writer(is_interrupted);
        let mut feed = MemFeed::new(LINES);
        let ended = replay(rt.alloc(), &mut feed, &IMAGE, &names, &mut out);
        assert!(rt; ended == Err(ReplayFault::Write));
        assert!(rt; ReplayFault::Write.to_string(rt.alloc())?.as_str() == "P5 Write");
        assert!(rt; out.device.calls == 1);
    }
    Ok(())
}

#[test]
fn sessions_to_writers_that_fail_once(rt: HostRuntime) -> Result<(), Fail> {
    let names = builtin(rt.alloc())?;
    let files = no_files(rt.alloc())?;
    let input = session_input(rt.alloc())?;
    for is_interrupted in [true, false] {
        let mut out = writer(is_interrupted);
        let mut feed = MemFeed::new(input.as_slice());
        let ended = session(rt.alloc(), &mut feed, &files, &names, &mut out);
        assert!(rt; ended == Err(SessionFault::Replay(ReplayFault::Write)));
        assert!(rt; out.device.calls == 1);
    }
    Ok(())
}

#[test]
fn images_to_writers_that_fail_once(rt: HostRuntime) -> Result<(), Fail> {
    let view = View::open(&IMAGE).ok().ok_or("no image")?;
    for is_interrupted in [true, false] {
        let mut out = writer(is_interrupted);
        assert!(rt; write(&view, &mut out).is_err());
        assert!(rt; out.device.calls == 1);
        let mut out = writer(is_interrupted);
        assert!(rt; print(&view, &mut out).is_err());
        assert!(rt; out.device.calls == 1);
        let mut out = writer(is_interrupted);
        assert!(rt; dump(&IMAGE, &mut out).is_err());
        assert!(rt; out.device.calls == 1);
        let mut out = writer(is_interrupted);
        assert!(rt; upgrade(&IMAGE, &mut out) == Err(UpgradeFault::Write));
        assert!(rt; out.device.calls == 1);
    }
    Ok(())
}
