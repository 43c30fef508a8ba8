//! Calls of keyboards. Their answers to events stand in the files of cases.
use crate::sources::{builtin, no_files};
use kx_image::View;
use kx_mods::Mods;
use kx_run::Direction::{self, Down, Up};
use kx_run::{Components, Event, Follower, Player};
use kx_tool::compile;
use std::alloc::Global;
use std::process::Abort;
use std::test::Fail;

/// A letter, Shift, Caps Lock with its indicator, and a latch of Shift.
const DESKTOP: &[u8] = b"xkb_keymap {
xkb_keycodes { <AC01>=38; <LFSH>=50; <CAPS>=66; <LAT>=94; };
xkb_types { type \"ALPHABETIC\" { modifiers=Shift+Lock; map[Shift]=2; map[Lock]=2; }; };
xkb_compat { indicator \"C\" { modifiers=Lock; whichModState=locked; }; };
xkb_symbols { key <AC01> {[a, A]};
key <LFSH> {[Shift_L], actions[1]=[SetMods(modifiers=Shift,clearLocks)]};
key <CAPS> {[Caps_Lock], actions[1]=[LockMods(modifiers=Lock)]};
key <LAT> {[ISO_Level2_Latch], actions[1]=[LatchMods(modifiers=Shift,clearLocks,latchToLock)]}; }; };";

const A_LOWER: u32 = 0x61;

const A_UPPER: u32 = 0x41;

const SHIFT_L: u32 = 0xffe1;

/// Shift and Lock.
const BOTH: u8 = 3;

/// An event and the reply to it: code and direction; keysym and consumed modifiers; base, latched and locked modifiers and
/// effective group, from 0.
type Step = (u16, Direction, u32, u8, [u8; 4]);

/// Shift held and released, and a letter.
const SHIFT_HELD: [Step; 6] = [
    (38, Down, A_LOWER, BOTH, [0, 0, 0, 0]),
    (38, Up, A_LOWER, BOTH, [0, 0, 0, 0]),
    (50, Down, SHIFT_L, 0, [1, 0, 0, 0]),
    (38, Down, A_UPPER, BOTH, [1, 0, 0, 0]),
    (50, Up, SHIFT_L, 0, [0, 0, 0, 0]),
    (38, Up, A_LOWER, BOTH, [0, 0, 0, 0]),
];

/// The image of the desktop.
fn desktop(alloc: Global) -> Result<Vec<u8>, Fail> {
    let names = builtin(alloc)?;
    let files = no_files(alloc)?;
    let (image, _notes) = compile(alloc, DESKTOP, &files, &names)?;
    Ok(image)
}

/// A player over an image. A test that holds it in a box is proved much sooner.
fn player_over(alloc: Global, image: &[u8]) -> Result<Box<Player<View<'_>>>, Fail> {
    Ok(Box::new(alloc, Player::start(alloc, View::open(image)?)?)?)
}

/// Plays events, and compares each reply with the one that is expected.
fn plays(rt: &impl Abort, player: &mut Player<View<'_>>, steps: &[Step]) {
    for step in steps {
        let (code, direction, sym, consumed, state) = *step;
        let reply = player.event(code, direction);
        let shown = [
            reply.state.base.mask(),
            reply.state.latched.mask(),
            reply.state.locked.mask(),
            reply.state.effective_group,
        ];
        let is_told = reply.known
            && reply.syms.as_slice() == [sym].as_slice()
            && reply.consumed.mask() == consumed
            && shown == state;
        assert!(rt; is_told, "{code} {direction:?}");
    }
}

fn runs_two_presses(
    rt: &(impl Abort + AllocGlobal),
    player: &mut Player<View<'_>>,
) -> Result<(), Fail> {
    let shift = Event {
        code: 50,
        direction: Down,
    };
    let letter = Event {
        code: 38,
        direction: Down,
    };
    let replies = player.run(rt.alloc(), &[shift, letter])?;
    assert!(rt; replies.len() == 2);
    assert!(rt; replies[1].syms.as_slice() == [A_UPPER].as_slice());
    assert!(rt; replies[1].state == player.components());
    assert!(rt; player.components().base == Mods::SHIFT);
    Ok(())
}

#[test]
fn runs_a_list(rt: HostRuntime) -> Result<(), Fail> {
    let image = desktop(rt.alloc())?;
    let mut player = player_over(rt.alloc(), image.as_slice())?;
    runs_two_presses(&rt, &mut player)
}

fn runs_or_changes_nothing(rt: &(impl Abort + AllocGlobal), player: &mut Player<View<'_>>) {
    plays(rt, player, &SHIFT_HELD[..3]);
    let before = player.components();
    let lit = player.lit();
    let release = Event {
        code: 50,
        direction: Up,
    };
    match player.run(rt.alloc(), &[release]) {
        Ok(replies) => {
            assert!(rt; replies.len() == 1);
            assert!(rt; replies[0].syms.as_slice() == [SHIFT_L].as_slice());
            assert!(rt; player.components().base == Mods::NONE);
        }
        Err(_) => {
            assert!(rt; player.components() == before);
            assert!(rt; player.lit() == lit);
            plays(rt, player, &SHIFT_HELD[3..]);
        }
    }
}

/// A growth that is refused gives the error, and the player answers as if it had not been asked. What a refusal
/// gives is seen by `rt try --test --fail-alloc N`: this test fails in the making of the image alone, and ends well
/// where `start` or `run` is refused.
#[test]
fn changes_nothing_where_memory_is_refused(rt: HostRuntime) -> Result<(), Fail> {
    let image = desktop(rt.alloc())?;
    let view = View::open(image.as_slice())?;
    if let Ok(mut player) = Player::start(rt.alloc(), view) {
        runs_or_changes_nothing(&rt, &mut player);
    }
    Ok(())
}

/// Whether a follower finds this keysym at the letter, and its type's modifiers consumed.
fn finds(follower: &Follower<View<'_>>, keysym: u32) -> bool {
    let look = follower.look(38);
    look.known && look.syms.as_slice() == [keysym].as_slice() && look.consumed.mask() == BOTH
}

fn follows(rt: &impl Abort, player: &mut Player<View<'_>>, follower: &mut Follower<View<'_>>) {
    assert!(rt; finds(follower, A_LOWER));
    assert!(rt; !follower.look(39).known);

    let _ = player.event(94, Down);
    let _ = player.event(94, Up);
    let latched = player.components();
    for effective_group in [latched.effective_group, 7] {
        follower.set(Components {
            effective_group,
            ..latched
        });
        assert!(rt; finds(follower, A_UPPER));
    }

    // the key that used the latch ended it
    let _ = player.event(38, Down);
    follower.set(player.components());
    assert!(rt; finds(follower, A_LOWER));
}

#[test]
fn follows_a_player(rt: HostRuntime) -> Result<(), Fail> {
    let image = desktop(rt.alloc())?;
    let mut player = player_over(rt.alloc(), image.as_slice())?;
    let mut follower = Follower::start(View::open(image.as_slice())?);
    follows(&rt, &mut player, &mut follower);
    Ok(())
}

fn lights(rt: &impl Abort, player: &mut Player<View<'_>>, follower: &mut Follower<View<'_>>) {
    for (direction, lit) in [(Down, 1), (Up, 1), (Down, 1), (Up, 0)] {
        assert!(rt; player.event(66, direction).lit == lit);
        assert!(rt; player.lit() == lit);
        follower.set(player.components());
        assert!(rt; follower.lit() == lit);
    }
}

#[test]
fn lights_caps_lock(rt: HostRuntime) -> Result<(), Fail> {
    let image = desktop(rt.alloc())?;
    let mut player = player_over(rt.alloc(), image.as_slice())?;
    let mut follower = Follower::start(View::open(image.as_slice())?);
    lights(&rt, &mut player, &mut follower);
    Ok(())
}
