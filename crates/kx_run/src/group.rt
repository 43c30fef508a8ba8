//! Groups of the keyboard and their changes.
ghost use Rattle.std.specs.Prelude.{◌≡◌, ◌<◌, ◌≤◌, ◌≤ℤ◌, ◌+ℤ◌, ◌-ℤ◌, pos, negsuc};
ghost use Rattle.kx_run.specs.Held.{group_after, base_group_after};
ghost use Rattle.kx_run.specs.World.{group_modulo, latch_number};

use kx_tables::{Action, GroupChange, Range, wrap_group};

/// A group after a change.
pub fn changed(change: GroupChange, old: i32) -> i32
    requires low { negsuc 199999 ≤ℤ old }
    requires high { old ≤ℤ pos 200000 }
    ensures { result ≡ group_after change old }
{
    match change {
        GroupChange::Absolute(group) => i32::from(group),
        GroupChange::Relative(by) => old + i32::from(by),
    }
}

/// The base group after one more held key.
pub fn base_group_with(action: Action, old: i32) -> i32
    requires low { negsuc 199999 ≤ℤ old }
    requires high { old ≤ℤ pos 200000 }
    ensures { result ≡ base_group_after action old }
{
    match action {
        Action::SetGroup { group, .. } => changed(group, old),
        Action::LatchGroup { group, .. } => changed(group, old),
        _ => old,
    }
}

/// A group taken modulo the number of groups, at least 1.
pub fn modulo(group: i64, groups: u8) -> u8
    requires { 1 ≤ groups }
    ensures value { result ≡ group_modulo groups group }
    ensures below { result < groups }
{
    wrap_group(group, groups, Range::Wrap)
}

/// The group that keys take: the three together, modulo the number of groups, at least 1.
pub fn effective(base: i32, latched: u8, locked: u8, groups: u8) -> u8
    requires { 1 ≤ groups }
    ensures value { result ≡ group_modulo groups (base +ℤ pos latched +ℤ pos locked) }
    ensures below { result < groups }
{
    modulo(
        i64::from(base) + i64::from(latched) + i64::from(locked),
        groups,
    )
}

/// A locked group after a change, modulo the number of groups, at least 1.
pub fn locked_after(change: GroupChange, locked: u8, groups: u8) -> u8
    requires { 1 ≤ groups }
    ensures { result ≡ group_modulo groups (group_after change (pos locked)) }
{
    modulo(i64::from(changed(change, i32::from(locked))), groups)
}

/// The number of a group latch.
pub fn number_of(change: GroupChange) -> i16
    ensures { result ≡ latch_number change }
{
    match change {
        GroupChange::Absolute(group) => i16::from(group),
        GroupChange::Relative(by) => i16::from(by),
    }
}

/// A group and a number, modulo the number of groups, at least 1.
pub fn sum(group: u8, number: i16, groups: u8) -> u8
    requires { 1 ≤ groups }
    ensures { result ≡ group_modulo groups (pos group +ℤ number) }
{
    modulo(i64::from(group) + i64::from(number), groups)
}

/// A group less a number, modulo the number of groups, at least 1.
pub fn difference(group: u8, number: i16, groups: u8) -> u8
    requires { 1 ≤ groups }
    ensures { result ≡ group_modulo groups (pos group -ℤ number) }
{
    modulo(i64::from(group) - i64::from(number), groups)
}
