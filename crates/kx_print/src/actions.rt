//! Actions as calls.
ghost use Rattle.std.specs.Prelude.{◌≡◌, ◌<◌, ◌≤◌, ◌++◌, codes};
ghost use Rattle.ks_core.specs.BufferedOut.{Writes};
ghost use Rattle.kx_tables.specs.Sound.{ActionHolds, GroupChangeHolds};
ghost use Rattle.kx_print.specs.ActionText.{action_text, affect, call, change_text, flag, group_argument, mods_argument};

use crate::sets::write_mods;
use crate::words::write_number;
use ks_core::{BufferedOut, Out};
use kx_mods::Mods;
use kx_tables::{Action, GroupChange};

/// Writes an action with its arguments.
pub fn write_action<O: Out>(buffered: &mut BufferedOut, out: &mut O, action: Action)
    ensures { Writes O.written O.failures out.old buffered.old out.new buffered.new
        (action_text action) }
{
    match action {
        Action::None => buffered.write(out, b"NoAction()"),
        Action::SetMods { mods, clear_locks } => write_set_mods(buffered, out, mods, clear_locks),
        Action::LatchMods {
            mods,
            clear_locks,
            latch_to_lock,
        } => { write_latch_mods(buffered, out, mods, clear_locks, latch_to_lock) }
        Action::LockMods {
            mods,
            locks,
            unlocks,
        } => { write_lock_mods(buffered, out, mods, locks, unlocks) }
        Action::SetGroup { group, clear_locks } => write_set_group(
            buffered,
            out,
            group,
            clear_locks,
        ),
        Action::LatchGroup {
            group,
            clear_locks,
            latch_to_lock,
        } => { write_latch_group(buffered, out, group, clear_locks, latch_to_lock) }
        Action::LockGroup { group } => write_lock_group(buffered, out, group),
    }
}

fn write_set_mods<O: Out>(buffered: &mut BufferedOut, out: &mut O, mods: Mods, clear_locks: bool)
    ensures { Writes O.written O.failures out.old buffered.old out.new buffered.new
        (call (codes "SetMods") (mods_argument mods ++ flag (codes "clearLocks") clear_locks)) }
{
    buffered.write(out, b"SetMods(modifiers=");
    write_mods(buffered, out, mods);
    write_clear_locks(buffered, out, clear_locks);
    buffered.write(out, b")");
}

fn write_latch_mods<O: Out>(
    buffered: &mut BufferedOut,
    out: &mut O,
    mods: Mods,
    clear_locks: bool,
    latch_to_lock: bool,
)
    ensures { Writes O.written O.failures out.old buffered.old out.new buffered.new
        (call (codes "LatchMods") (mods_argument mods
        ++ (flag (codes "clearLocks") clear_locks ++ flag (codes "latchToLock") latch_to_lock))) }
{
    buffered.write(out, b"LatchMods(modifiers=");
    write_mods(buffered, out, mods);
    write_clear_locks(buffered, out, clear_locks);
    write_latch_to_lock(buffered, out, latch_to_lock);
    buffered.write(out, b")");
}

fn write_lock_mods<O: Out>(
    buffered: &mut BufferedOut,
    out: &mut O,
    mods: Mods,
    locks: bool,
    unlocks: bool,
)
    ensures { Writes O.written O.failures out.old buffered.old out.new buffered.new
        (call (codes "LockMods") (mods_argument mods ++ affect locks unlocks)) }
{
    buffered.write(out, b"LockMods(modifiers=");
    write_mods(buffered, out, mods);
    write_affect(buffered, out, locks, unlocks);
    buffered.write(out, b")");
}

fn write_set_group<O: Out>(
    buffered: &mut BufferedOut,
    out: &mut O,
    group: GroupChange,
    clear_locks: bool,
)
    ensures { Writes O.written O.failures out.old buffered.old out.new buffered.new
        (call (codes "SetGroup") (group_argument group ++ flag (codes "clearLocks") clear_locks)) }
{
    buffered.write(out, b"SetGroup(group=");
    write_change(buffered, out, group);
    write_clear_locks(buffered, out, clear_locks);
    buffered.write(out, b")");
}

fn write_latch_group<O: Out>(
    buffered: &mut BufferedOut,
    out: &mut O,
    group: GroupChange,
    clear_locks: bool,
    latch_to_lock: bool,
)
    ensures { Writes O.written O.failures out.old buffered.old out.new buffered.new
        (call (codes "LatchGroup") (group_argument group
        ++ (flag (codes "clearLocks") clear_locks ++ flag (codes "latchToLock") latch_to_lock))) }
{
    buffered.write(out, b"LatchGroup(group=");
    write_change(buffered, out, group);
    write_clear_locks(buffered, out, clear_locks);
    write_latch_to_lock(buffered, out, latch_to_lock);
    buffered.write(out, b")");
}

fn write_lock_group<O: Out>(buffered: &mut BufferedOut, out: &mut O, group: GroupChange)
    ensures { Writes O.written O.failures out.old buffered.old out.new buffered.new
        (call (codes "LockGroup") (group_argument group)) }
{
    buffered.write(out, b"LockGroup(group=");
    write_change(buffered, out, group);
    buffered.write(out, b")");
}

/// An absolute group is counted from 1; a relative one has a sign.
fn write_change<O: Out>(buffered: &mut BufferedOut, out: &mut O, change: GroupChange)
    ensures { Writes O.written O.failures out.old buffered.old out.new buffered.new
        (change_text change) }
{
    match change {
        GroupChange::Absolute(group) => write_number(buffered, out, u16::from(group) + 1),
        GroupChange::Relative(by) => write_signed(buffered, out, by),
    }
}

fn write_signed<O: Out>(buffered: &mut BufferedOut, out: &mut O, by: i8)
    ensures { Writes O.written O.failures out.old buffered.old out.new buffered.new
        (change_text (GroupChange.Relative by)) }
{
    if by < 0 {
        buffered.write(out, b"-");
        write_number(buffered, out, u16::from(by.unsigned_abs()));
    } else {
        buffered.write(out, b"+");
        write_number(buffered, out, u16::from(by.unsigned_abs()));
    }
}

fn write_clear_locks<O: Out>(buffered: &mut BufferedOut, out: &mut O, is_set: bool)
    ensures { Writes O.written O.failures out.old buffered.old out.new buffered.new
        (flag (codes "clearLocks") is_set) }
{
    if is_set {
        buffered.write(out, b",clearLocks");
    }
}

fn write_latch_to_lock<O: Out>(buffered: &mut BufferedOut, out: &mut O, is_set: bool)
    ensures { Writes O.written O.failures out.old buffered.old out.new buffered.new
        (flag (codes "latchToLock") is_set) }
{
    if is_set {
        buffered.write(out, b",latchToLock");
    }
}

fn write_affect<O: Out>(buffered: &mut BufferedOut, out: &mut O, locks: bool, unlocks: bool)
    ensures { Writes O.written O.failures out.old buffered.old out.new buffered.new
        (affect locks unlocks) }
{
    match (locks, unlocks) {
        (true, true) => {}
        (true, false) => buffered.write(out, b",affect=lock"),
        (false, true) => buffered.write(out, b",affect=unlock"),
        (false, false) => buffered.write(out, b",affect=neither"),
    }
}
