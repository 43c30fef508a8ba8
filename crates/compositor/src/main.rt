//! How a compositor uses xkc: a layout is compiled once, its image is opened, a keyboard runs over the image, and a
//! client's view of it follows.
#![tactic(auto)]

use arrayvec::ArrayString;
use ks_core::{Keysym, NameTable};
use kx_image::{ImageFault, View};
use kx_lex::Fault;
use kx_run::{Components, Direction, Follower, Player};
use kx_tool::{Files, compile};
use std::alloc::AllocError;
use std::io;
use thiserror::Error;

/// A layout of two keys. A desktop reads it from a file.
const LAYOUT: &[u8] = b"xkb_keymap {
xkb_keycodes { <AC01> = 38; <AB05> = 56; };
xkb_symbols { key <AC01> { [a] }; key <AB05> { [b] }; };
};";

/// Why there is no keyboard.
#[derive(Debug, Drop, Error)]
enum Trouble {
    #[error("the layout is refused: {0}")]
    Layout(Fault),
    #[error("these bytes are no image: {0}")]
    Image(ImageFault),
    #[error("there is no memory")]
    Memory,
    #[error("standard output: {0}")]
    Output(io::Error),
}

impl From<AllocError> for Trouble {
    fn from(_refused: AllocError) -> Trouble {
        Trouble::Memory
    }
}

impl From<io::Error> for Trouble {
    fn from(error: io::Error) -> Trouble {
        Trouble::Output(error)
    }
}

/// Prints each keysym that a key gives, by its name.
fn print_keysyms(rt: &impl Print, names: &NameTable, keysyms: &[u32]) -> io::Result<()> {
    let mut name = ArrayString::new();
    for keysym in keysyms {
        names.write_name(Keysym(*keysym), &mut name);
        println!(rt; "{name}")?;
    }
    Ok(())
}

/// Presses and releases the key of a code, prints what the press gives, and answers the state after it.
fn tap(rt: &(impl Print + AllocGlobal), image: &[u8], code: u16) -> Result<Components, Trouble> {
    let names = NameTable::x11();
    let mut player = Player::start(rt.alloc(), View::open(image).map_err(Trouble::Image)?)?;
    let reply = player.event(code, Direction::Down);
    print_keysyms(rt, &names, reply.syms.as_slice())?;
    let released = player.event(code, Direction::Up);
    Ok(released.state)
}

/// Prints what a client finds for a key in the state that the compositor sends, over the same image.
fn client(rt: &impl Print, image: &[u8], state: Components, code: u16) -> Result<(), Trouble> {
    let mut follower = Follower::start(View::open(image).map_err(Trouble::Image)?);
    follower.set(state);
    let look = follower.look(code);
    print_keysyms(rt, &NameTable::x11(), look.syms.as_slice())?;
    Ok(())
}

fn main(rt: HostRuntime) -> Result<(), Trouble> {
    let files = Files::new(rt.alloc());
    let (image, notes) = compile(rt.alloc(), LAYOUT, &files, &NameTable::x11()).map_err(
        Trouble::Layout,
    )?;
    println!(rt; "unknown keysyms: {}", notes.keysyms)?;
    let state = tap(&rt, image.as_slice(), 38)?;
    client(&rt, image.as_slice(), state, 56)
}
