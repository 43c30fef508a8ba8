//! Answers over devices that are slow, fail or never end, and dumps.
ghost use Rattle.std.specs.Prelude.{None};

use super::SAMPLE;
use crate::sources::{builtin, no_files};
use ks_core::{Feed, MemFeed, MemOut, NameTable};
use kx_image::ImageFault;
use kx_tool::{Files, MOST_BYTES, ReplayFault, SessionFault, dump, replay, session};
use std::alloc::{AllocError, Global};
use std::io;
use std::process::Abort;
use std::test::Fail;

/// The image of the sample in version 1.
pub const IMAGE: [u8; 94] = [
    0x4b, 0x58, 0x49, 0x0a, 1, 0, 1, 0, 1, 0, 1, 0, 0, 0, 0, 0, 1, 0, 0, 0, 1, 0, 0, 0, 10, 0, 0,
    0, 0, 1, 0, 0, 9, 0, 0, 0, 0, 0, 0, 0, 0, 0, 0, 0, 0x26, 0, 0, 0, 0, 1, 1, 0, 9, 0, 0, 0, 0, 0,
    0, 0, 0, 0, 0, 0, 0, 0, 0, 0, 1, 0, 0, 0, 0, 0, 0, 0, 0, 0, 0, 0, 0x61, 0, 0, 0, 0x4f, 0x4e,
    0x45, 0x5f, 0x4c, 0x45, 0x56, 0x45, 0x4c, 0x41,
];

pub const LINES: &[u8] = b"down 38\n\nup 38\ndown 9";

pub const ANSWERS: &[u8] =
    b"38 down a consumed=none base=none latched=none locked=none group=1\n38 up a consumed=none base=none latched=none locked=none group=1\n9 down ? consumed=none base=none latched=none locked=none group=1\n";

/// A reader that gives these bytes and then line feeds, and ends only where they can't be counted.
#[derive(Drop)]
struct Endless<'a> {
    front: &'a [u8],
    taken: u64,
}

impl Feed for Endless<'_> {
    ghost left = { λ s. None };

    ghost taken = { λ s. s.taken };

    ghost failures = { λ s. 0 };

    fn take(&mut self, buffer: &mut [u8]) -> io::Result<usize> {
        buffer.fill(b'\n');
        let count = match self.front.len().min(buffer.len()) {
            0 => buffer.len(),
            count => count,
        };
        let Some(taken) = self.taken.checked_add(count as u64) else {
            return Ok(0);
        };
        self.taken = taken;
        let (piece, front) = self.front.split_at(count.min(self.front.len()));
        buffer[..piece.len()].copy_from_slice(piece);
        self.front = front;
        Ok(count)
    }
}

/// A reader without end that begins with these bytes.
fn without_end(front: &[u8]) -> Endless<'_> {
    Endless { front, taken: 0 }
}

/// The limit of what is taken, and the piece that passes it.
const MOST_TAKEN: u64 = MOST_BYTES + 4096;

#[test]
fn replay_answers_lines(rt: HostRuntime) -> Result<(), Fail> {
    let names = builtin(rt.alloc())?;
    for most in [1, 2, 7, 4096] {
        let mut feed = MemFeed::new(LINES).with_most(most);
        let mut room = [0u8; 512];
        let mut out = MemOut::new(&mut room).with_most(most);
        let ended = replay(rt.alloc(), &mut feed, &IMAGE, &names, &mut out);
        assert!(rt; ended == Ok(()));
        assert!(rt; out.written() == ANSWERS);
    }
    Ok(())
}

#[test]
fn replay_refuses_what_is_no_image(rt: HostRuntime) -> Result<(), Fail> {
    let names = builtin(rt.alloc())?;
    let mut feed = MemFeed::new(LINES);
    let mut room = [0u8; 512];
    let mut out = MemOut::new(&mut room);
    let ended = replay(rt.alloc(), &mut feed, &IMAGE[..93], &names, &mut out);
    assert!(rt; ended == Err(ReplayFault::Image(ImageFault::Truncated)));
    assert!(rt; out.written().is_empty());
    Ok(())
}

/// A replay ends so over a reader that fails there.
fn check_reader_of_lines(rt: &(impl Abort + AllocGlobal), names: &NameTable, place: usize) {
    let mut feed = MemFeed::new(LINES).failing_after(place);
    let mut room = [0u8; 512];
    let mut out = MemOut::new(&mut room);
    let ended = replay(rt.alloc(), &mut feed, &IMAGE, names, &mut out);
    assert!(rt; ended == Err(ReplayFault::Read), "at {place}");
    assert!(rt; ANSWERS.starts_with(out.written()), "at {place}");
}

/// A source, its mark, and the lines after it.
pub fn session_input(alloc: Global) -> Result<Vec<u8>, AllocError> {
    [SAMPLE, b"%%\n".as_slice(), LINES].concat(alloc)
}

/// The same of a session, which begins with a source.
fn check_reader_of_session(
    rt: &(impl Abort + AllocGlobal),
    files: &Files,
    names: &NameTable,
    input: &[u8],
    place: usize,
) {
    let mut feed = MemFeed::new(input).failing_after(place);
    let mut room = [0u8; 512];
    let mut out = MemOut::new(&mut room);
    let ended = session(rt.alloc(), &mut feed, files, names, &mut out);
    let wanted = Err(SessionFault::Replay(ReplayFault::Read));
    assert!(rt; ended == wanted, "at {place}");
    assert!(rt; ANSWERS.starts_with(out.written()), "at {place}");
}

/// Readers fail at each byte, and after the last in place of the end.
#[test]
fn readers_that_fail_at_each_byte(rt: HostRuntime) -> Result<(), Fail> {
    let names = builtin(rt.alloc())?;
    let files = no_files(rt.alloc())?;
    for place in 0..=LINES.len() {
        check_reader_of_lines(&rt, &names, place);
    }
    let input = session_input(rt.alloc())?;
    for place in 0..=input.len() {
        check_reader_of_session(&rt, &files, &names, input.as_slice(), place);
    }
    Ok(())
}

/// A replay ends so over a writer that fails there.
fn check_writer_of_lines(rt: &(impl Abort + AllocGlobal), names: &NameTable, place: usize) {
    let mut feed = MemFeed::new(LINES);
    let mut room = [0u8; 512];
    let mut out = MemOut::new(&mut room).failing_after(place);
    let ended = replay(rt.alloc(), &mut feed, &IMAGE, names, &mut out);
    assert!(rt; ended == Err(ReplayFault::Write), "at {place}");
    assert!(rt; ANSWERS.starts_with(out.written()), "at {place}");
}

/// The same of a session.
fn check_writer_of_session(
    rt: &(impl Abort + AllocGlobal),
    files: &Files,
    names: &NameTable,
    input: &[u8],
    place: usize,
) {
    let mut feed = MemFeed::new(input);
    let mut room = [0u8; 512];
    let mut out = MemOut::new(&mut room).failing_after(place);
    let ended = session(rt.alloc(), &mut feed, files, names, &mut out);
    let wanted = Err(SessionFault::Replay(ReplayFault::Write));
    assert!(rt; ended == wanted, "at {place}");
    assert!(rt; ANSWERS.starts_with(out.written()), "at {place}");
}

#[test]
fn writers_that_fail_at_each_byte(rt: HostRuntime) -> Result<(), Fail> {
    let names = builtin(rt.alloc())?;
    let files = no_files(rt.alloc())?;
    let input = session_input(rt.alloc())?;
    for place in 0..ANSWERS.len() {
        check_writer_of_lines(&rt, &names, place);
        check_writer_of_session(&rt, &files, &names, input.as_slice(), place);
    }
    Ok(())
}

#[test]
fn replay_of_a_reader_without_end_is_refused(rt: HostRuntime) -> Result<(), Fail> {
    let names = builtin(rt.alloc())?;
    let mut feed = without_end(b"");
    let mut room = [0u8; 16];
    let mut out = MemOut::new(&mut room);
    let ended = replay(rt.alloc(), &mut feed, &IMAGE, &names, &mut out);
    assert!(rt; ended == Err(ReplayFault::Read));
    assert!(rt; feed.taken <= MOST_TAKEN);
    assert!(rt; out.written().is_empty());
    Ok(())
}

/// A session of a reader without end that begins with these bytes is refused, and nothing is answered.
fn session_is_refused(rt: &(impl Abort + AllocGlobal), front: &[u8]) -> Result<(), Fail> {
    let names = builtin(rt.alloc())?;
    let files = no_files(rt.alloc())?;
    let mut feed = without_end(front);
    let mut room = [0u8; 16];
    let mut out = MemOut::new(&mut room);
    let ended = session(rt.alloc(), &mut feed, &files, &names, &mut out);
    assert!(rt; ended == Err(SessionFault::Replay(ReplayFault::Read)));
    assert!(rt; feed.taken <= MOST_TAKEN);
    assert!(rt; out.written().is_empty());
    Ok(())
}

#[test]
fn a_session_whose_source_has_no_end_is_refused(rt: HostRuntime) -> Result<(), Fail> {
    session_is_refused(&rt, b"")
}

#[test]
fn a_session_whose_lines_have_no_end_is_refused(rt: HostRuntime) -> Result<(), Fail> {
    let source = [SAMPLE, b"%%".as_slice()].concat(rt.alloc())?;
    session_is_refused(&rt, source.as_slice())
}

#[test]
fn a_mark_without_its_line_feed_ends_the_source(rt: HostRuntime) -> Result<(), Fail> {
    let names = builtin(rt.alloc())?;
    let files = no_files(rt.alloc())?;
    for end in [b"%%".as_slice(), b"%%\n", b""] {
        let input = [SAMPLE, end].concat(rt.alloc())?;
        let mut feed = MemFeed::new(input.as_slice());
        let mut room = [0u8; 16];
        let mut out = MemOut::new(&mut room);
        let ended = session(rt.alloc(), &mut feed, &files, &names, &mut out);
        assert!(rt; ended == Ok(()));
        assert!(rt; out.written().is_empty());
    }
    Ok(())
}

#[test]
fn dumps_rows_of_32_bytes(rt: HostRuntime) {
    let mut bytes = [0u8; 33];
    bytes[0] = 0xfe;
    bytes[32] = 0x0a;
    let mut room = [0u8; 80];
    let mut out = MemOut::new(&mut room).with_most(1);
    assert!(rt; dump(&bytes, &mut out).is_ok());
    assert!(rt;
        out.written()
            == b"fe00000000000000000000000000000000000000000000000000000000000000\n0a\n".as_slice()
    );
    let mut room = [0u8; 80];
    let mut out = MemOut::new(&mut room);
    assert!(rt; dump(&[], &mut out).is_ok());
    assert!(rt; out.written().is_empty());
}
