//! Calls that are made twice each on a keymap, so that `tests/refused.sh` can refuse their growths one by one.
use crate::trouble::Trouble;
use ks_core::{MemFeed, MemOut, NameTable};
use kx_image::View;
use kx_run::{Direction, Player};
use kx_tool::{Files, compile, replay, session};
use std::alloc::Global;
use std::io;

const LINES: &[u8] = b"down 50
down 38
up 38
up 50
";

const NAMES: &[u8] = b"one 0x1001
two 0x1002
";

/// A call of the library.
#[derive(Clone, Copy)]
pub(crate) enum Call {
    Compile,
    WithLines,
    Start,
    Replay,
    Session,
}

impl Call {
    /// The call of a word.
    pub(crate) fn of(word: &str) -> Option<Call> {
        match word {
            "compile" => Some(Call::Compile),
            "with_lines" => Some(Call::WithLines),
            "start" => Some(Call::Start),
            "replay" => Some(Call::Replay),
            "session" => Some(Call::Session),
            _ => None,
        }
    }

    /// What the call is made on: an image, or what a session reads. Nothing where there is no memory for it.
    fn made(self, alloc: Global, keymap: &[u8]) -> Option<Vec<u8>> {
        match self {
            Call::Start | Call::Replay => {
                let files = Files::new(alloc);
                match compile(alloc, keymap, &files, &NameTable::builtin()) {
                    Ok((image, _notes)) => Some(image),
                    Err(_) => None,
                }
            }
            Call::Session => [keymap, b"%%\n".as_slice(), LINES].concat(alloc).ok(),
            Call::Compile | Call::WithLines => Some(Vec::new(alloc)),
        }
    }
}

/// Prints how many bytes these are, and a sum of them.
fn show(rt: &impl Print, bytes: &[u8]) -> io::Result<()> {
    let sum = bytes.iter().fold(
        0u32,
        |sum, byte| sum.wrapping_mul(31).wrapping_add(u32::from(*byte)),
    );
    println!(rt; "{} bytes, {sum:x}", bytes.len())
}

fn compile_once(rt: &(impl Print + AllocGlobal), keymap: &[u8]) -> io::Result<()> {
    let files = Files::new(rt.alloc());
    match compile(rt.alloc(), keymap, &files, &NameTable::builtin()) {
        Ok((image, _notes)) => show(rt, image.as_slice()),
        Err(fault) => println!(rt; "{fault}"),
    }
}

fn names_once(rt: &(impl Print + AllocGlobal)) -> io::Result<()> {
    match NameTable::with_lines(rt.alloc(), NAMES) {
        Ok(names) => println!(rt; "{}", names.by_name("two").is_some()),
        Err(fault) => println!(rt; "{fault}"),
    }
}

fn start_once(rt: &(impl Print + AllocGlobal), image: &[u8]) -> io::Result<()> {
    let Ok(view) = View::open(image) else {
        return println!(rt; "no image");
    };
    match Player::start(rt.alloc(), view) {
        Ok(mut player) => println!(rt; "{:?}", player.event(38, Direction::Down).syms.as_slice()),
        Err(_) => println!(rt; "OutOfMemory"),
    }
}

fn replay_once(rt: &(impl Print + AllocGlobal), image: &[u8]) -> io::Result<()> {
    let mut room = [0u8; 1024];
    let mut out = MemOut::new(&mut room);
    let names = NameTable::builtin();
    match replay(
        rt.alloc(),
        &mut MemFeed::new(LINES),
        image,
        &names,
        &mut out,
    ) {
        Ok(()) => show(rt, out.written()),
        Err(fault) => println!(rt; "{fault}, {} bytes", out.written().len()),
    }
}

fn session_once(rt: &(impl Print + AllocGlobal), text: &[u8]) -> io::Result<()> {
    let mut room = [0u8; 1024];
    let mut out = MemOut::new(&mut room);
    let files = Files::new(rt.alloc());
    let names = NameTable::builtin();
    match session(
        rt.alloc(),
        &mut MemFeed::new(text),
        &files,
        &names,
        &mut out,
    ) {
        Ok(()) => show(rt, out.written()),
        Err(fault) => println!(rt; "{fault}, {} bytes", out.written().len()),
    }
}

/// Makes a call twice, after a line with its word, which says that all before it is done.
pub(crate) fn make_twice(
    rt: &(impl Print + AllocGlobal),
    keymap: &[u8],
    call: Call,
    word: &str,
) -> Result<(), Trouble> {
    let Some(made) = call.made(rt.alloc(), keymap) else {
        return Ok(println!(rt; "before")?);
    };
    println!(rt; "{word}")?;
    for _turn in 0..2 {
        match call {
            Call::Compile => compile_once(rt, keymap)?,
            Call::WithLines => names_once(rt)?,
            Call::Start => start_once(rt, made.as_slice())?,
            Call::Replay => replay_once(rt, made.as_slice())?,
            Call::Session => session_once(rt, made.as_slice())?,
        }
    }
    Ok(())
}
