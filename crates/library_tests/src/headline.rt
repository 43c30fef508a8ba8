//! A layout whose keyboard answers as its statements mean, by the three calls of a compositor.
use crate::sources::{builtin, no_files};
use kx_headline::play;
use kx_lex::Fault;
use kx_mods::Mods;
use kx_run::{Direction, Event, Reply};
use std::process::Abort;
use std::test::Fail;

const LAYOUT: &[u8] = b"xkb_keymap {
xkb_keycodes { <A> = 38; <S> = 50; };
xkb_types { type \"TWO_LEVEL\" { modifiers = Shift; map[Shift] = 2; }; };
xkb_symbols { key.type = \"TWO_LEVEL\"; key <A> { [a, 1] }; key <S> { [SetMods(modifiers=Shift)] }; };
};";

const EVENTS: [Event; 4] = [
    Event {
        code: 38,
        direction: Direction::Down,
    },
    Event {
        code: 38,
        direction: Direction::Up,
    },
    Event {
        code: 50,
        direction: Direction::Down,
    },
    Event {
        code: 38,
        direction: Direction::Down,
    },
];

/// A reply has one keysym, and shows these modifiers of keys that are held.
fn assert_gives(rt: &impl Abort, reply: &Reply, keysym: u32, base: Mods) {
    assert!(rt; reply.syms.as_slice() == [keysym].as_slice());
    assert!(rt; reply.state.base == base);
}

#[test]
fn a_layout_answers(rt: HostRuntime) -> Result<(), Fail> {
    let files = no_files(rt.alloc())?;
    let names = builtin(rt.alloc())?;
    let replies = play(rt.alloc(), LAYOUT, &files, &names, &EVENTS)?;
    assert!(rt; replies.len() == 4);
    assert_gives(&rt, &replies[0], 0x61, Mods::NONE);
    assert_gives(&rt, &replies[3], 0x31, Mods::SHIFT);
    Ok(())
}

#[test]
fn a_fault_is_refused(rt: HostRuntime) -> Result<(), Fail> {
    let files = no_files(rt.alloc())?;
    let names = builtin(rt.alloc())?;
    let refused = play(
        rt.alloc(),
        b"xkb_keymap { xkb_keycodes { <A> = 4096; }; };",
        &files,
        &names,
        &EVENTS,
    );
    assert!(rt; matches!(refused, Err(Fault::CodeRange(_))));
    Ok(())
}
