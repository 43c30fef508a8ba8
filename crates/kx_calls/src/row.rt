//! The rows of tables as C has them. What they own is named by index, from 0.
ghost use Rattle.std.specs.Prelude.{◌≡◌};
ghost use Rattle.kx_calls.specs.RowsInC.{action_in_c, counts_in_c, entry_in_c, group_action_in_c, group_in_c, indicator_in_c, key_in_c, level_in_c, type_in_c};

use crate::reply::byte;
use kx_tables::{
    Action, CellRow, Counts, EntryRow, GroupChange, GroupRow, IndicatorRow, KeyRow, Range, TypeRow,
};

/// How many rows of each kind there are.
#[repr(C)]
#[derive(Clone, Copy)]
pub struct XkcCounts {
    pub types: u32,
    pub entries: u32,
    pub keys: u32,
    pub groups: u32,
    pub levels: u32,
    pub keysyms: u32,
    pub indicators: u32,
    pub group_names: u32,
}

/// A key type: which modifiers select a level.
#[repr(C)]
#[derive(Clone, Copy)]
pub struct XkcType {
    /// The index of its first entry.
    pub first_entry: u32,
    /// How many entries it has.
    pub entries: u32,
    /// The modifiers that select a level.
    pub mods: u8,
    /// How many levels there are, 1 to 64.
    pub levels: u8,
}

/// An entry of a key type.
#[repr(C)]
#[derive(Clone, Copy)]
pub struct XkcEntry {
    /// The modifiers that select the level.
    pub mods: u8,
    /// The level, counted from 1.
    pub level: u8,
    /// Those of the modifiers that aren't consumed.
    pub preserve: u8,
}

/// A key.
#[repr(C)]
#[derive(Clone, Copy)]
pub struct XkcKey {
    /// The keycode, at most 4,095.
    pub code: u32,
    /// The index of its first group.
    pub first_group: u32,
    /// How many groups it has, at most 32.
    pub groups: u8,
    /// The real modifiers that it is mapped to.
    pub modmap: u8,
    /// What becomes of a group that it doesn't have: 0 it is taken modulo `groups`, 1 the nearest one, 2 `redirect`.
    pub range: u8,
    /// The group in place of one that it doesn't have, from 0.
    pub redirect: u8,
}

/// A group of a key.
#[repr(C)]
#[derive(Clone, Copy)]
pub struct XkcGroup {
    /// The index of its first level; it has as many as its type.
    pub first_level: u32,
    /// The index of its key type.
    pub key_type: u32,
}

/// What a level does to the keyboard's state.
#[repr(C)]
#[derive(Clone, Copy)]
pub struct XkcAction {
    /// The group that it names, from 0, or by how many it moves.
    pub group: i32,
    /// 0 nothing, 1 to 3 sets, latches or locks modifiers, 4 to 6 sets, latches or locks a group.
    pub kind: u8,
    pub mods: u8,
    /// 1 where the group moves by so many, 0 where it is that one.
    pub is_relative: u8,
    pub clear_locks: u8,
    pub latch_to_lock: u8,
    /// 1 where a press locks.
    pub locks: u8,
    /// 1 where a release unlocks.
    pub unlocks: u8,
}

/// A level of a group.
#[repr(C)]
#[derive(Clone, Copy)]
pub struct XkcLevel {
    pub action: XkcAction,
    /// The index of its first keysym.
    pub first_keysym: u32,
    /// How many keysyms it has, at most 8.
    pub keysyms: u8,
}

/// An indicator: lit while its modifiers or its groups are among those of the states that it looks at, of which bit 0 is
/// base, 1 latched, 2 locked, 3 effective.
#[repr(C)]
#[derive(Clone, Copy)]
pub struct XkcIndicator {
    /// The groups that light it: bit g is group g, from 0.
    pub groups: u32,
    /// The modifiers that light it.
    pub mods: u8,
    /// Whose modifiers count.
    pub mod_states: u8,
    /// Whose groups count.
    pub group_states: u8,
}

const NO_ACTION: XkcAction = XkcAction {
    group: 0,
    kind: 0,
    mods: 0,
    is_relative: 0,
    clear_locks: 0,
    latch_to_lock: 0,
    locks: 0,
    unlocks: 0,
};

impl XkcCounts {
    /// As C has it.
    pub fn of(counts: Counts) -> XkcCounts
        ensures { result ≡ counts_in_c counts }
    {
        XkcCounts {
            types: u32::from(counts.types),
            entries: counts.entries,
            keys: u32::from(counts.keys),
            groups: counts.groups,
            levels: counts.cells,
            keysyms: counts.keysyms,
            indicators: u32::from(counts.indicators),
            group_names: u32::from(counts.group_names),
        }
    }
}

impl XkcType {
    /// As C has it.
    pub fn of(row: TypeRow) -> XkcType
        ensures { result ≡ type_in_c row }
    {
        XkcType {
            first_entry: row.first_entry,
            entries: u32::from(row.entries),
            mods: row.mods.mask(),
            levels: row.levels,
        }
    }
}

impl XkcEntry {
    /// As C has it.
    pub fn of(row: EntryRow) -> XkcEntry
        ensures { result ≡ entry_in_c row }
    {
        XkcEntry {
            mods: row.mods.mask(),
            level: row.level,
            preserve: row.preserve.mask(),
        }
    }
}

impl XkcKey {
    /// As C has it.
    pub fn of(row: KeyRow) -> XkcKey
        ensures { result ≡ key_in_c row }
    {
        let (range, redirect) = match row.range {
            Range::Wrap => (0, 0),
            Range::Clamp => (1, 0),
            Range::Redirect(group) => (2, group),
        };
        XkcKey {
            code: u32::from(row.code),
            first_group: row.first_group,
            groups: row.groups,
            modmap: row.modmap.mask(),
            range,
            redirect,
        }
    }
}

impl XkcGroup {
    /// As C has it.
    pub fn of(row: GroupRow) -> XkcGroup
        ensures { result ≡ group_in_c row }
    {
        XkcGroup {
            first_level: row.first_cell,
            key_type: u32::from(row.key_type),
        }
    }
}

impl XkcAction {
    /// An action that names a group.
    fn on_group(kind: u8, group: GroupChange, clear_locks: bool, latch_to_lock: bool) -> XkcAction
        ensures { result ≡ group_action_in_c kind group clear_locks latch_to_lock }
    {
        let (group, is_relative) = match group {
            GroupChange::Absolute(group) => (i32::from(group), 0),
            GroupChange::Relative(groups) => (i32::from(groups), 1),
        };
        XkcAction {
            group,
            kind,
            is_relative,
            clear_locks: byte(clear_locks),
            latch_to_lock: byte(latch_to_lock),
            ..NO_ACTION
        }
    }

    /// As C has it.
    pub fn of(action: Action) -> XkcAction
        ensures { result ≡ action_in_c action }
    {
        match action {
            Action::None => NO_ACTION,
            Action::SetMods { mods, clear_locks } => XkcAction {
                kind: 1,
                mods: mods.mask(),
                clear_locks: byte(clear_locks),
                ..NO_ACTION
            },
            Action::LatchMods {
                mods,
                clear_locks,
                latch_to_lock,
            } => XkcAction {
                kind: 2,
                mods: mods.mask(),
                clear_locks: byte(clear_locks),
                latch_to_lock: byte(latch_to_lock),
                ..NO_ACTION
            },
            Action::LockMods {
                mods,
                locks,
                unlocks,
            } => XkcAction {
                kind: 3,
                mods: mods.mask(),
                locks: byte(locks),
                unlocks: byte(unlocks),
                ..NO_ACTION
            },
            Action::SetGroup { group, clear_locks } => XkcAction::on_group(
                4,
                group,
                clear_locks,
                false,
            ),
            Action::LatchGroup {
                group,
                clear_locks,
                latch_to_lock,
            } => { XkcAction::on_group(5, group, clear_locks, latch_to_lock) }
            Action::LockGroup { group } => XkcAction::on_group(6, group, false, false),
        }
    }
}

impl XkcLevel {
    /// As C has it.
    pub fn of(row: CellRow) -> XkcLevel
        ensures { result ≡ level_in_c row }
    {
        XkcLevel {
            action: XkcAction::of(row.action),
            first_keysym: row.first_keysym,
            keysyms: row.keysyms,
        }
    }
}

impl XkcIndicator {
    /// As C has it.
    pub fn of(row: IndicatorRow) -> XkcIndicator
        ensures { result ≡ indicator_in_c row }
    {
        XkcIndicator {
            groups: row.groups,
            mods: row.mods.mask(),
            mod_states: row.mod_states.mask(),
            group_states: row.group_states.mask(),
        }
    }
}
