//! Records as rows and as bytes.
ghost use Rattle.std.specs.Prelude.{◌≡◌, ◌+◌, ◌≤◌, ◌<ℤ◌, pos, length};
ghost use Rattle.kx_image.specs.Records as spec;

use crate::numbers::{u16_at, u16_bytes, u32_at, u32_bytes};
use kx_mods::Mods;
use kx_tables::{
    Action, CellRow, EntryRow, GroupChange, GroupNameRow, GroupRow, IndicatorRow, KeyRow, Range,
    States, TypeRow,
};

/// The size in bytes of a record of a type.
pub const TYPE_SIZE: usize = 16;

/// The size in bytes of a record of an entry.
pub const ENTRY_SIZE: usize = 4;

/// The size in bytes of a record of a key.
pub const KEY_SIZE: usize = 16;

/// The size in bytes of a record of a group.
pub const GROUP_SIZE: usize = 8;

/// The size in bytes of a record of a cell.
pub const CELL_SIZE: usize = 12;

/// The size in bytes of a record of a keysym.
pub const KEYSYM_SIZE: usize = 4;

/// The size in bytes of a record of an indicator.
pub const INDICATOR_SIZE: usize = 16;

/// The size in bytes of a record of a group name.
pub const GROUP_NAME_SIZE: usize = 8;

const CLEAR_LOCKS: u8 = 1;

const LATCH_TO_LOCK: u8 = 2;

const KEEPS_UNLOCKED: u8 = 4;

const KEEPS_LOCKED: u8 = 8;

const ABSOLUTE: u8 = 16;

/// The row that the bytes of a type tell.
pub fn type_at(bytes: &[u8]) -> TypeRow
    requires { length bytes.now ≡ 16 }
    ensures { result ≡ spec.type_of bytes.now }
{
    TypeRow {
        mods: Mods::from_mask(bytes[0]),
        levels: bytes[1],
        entries: u16_at(bytes, 2),
        name_length: u16_at(bytes, 4),
        first_entry: u32_at(bytes, 8),
        first_name: u32_at(bytes, 12),
    }
}

/// The bytes of the record of a type.
pub fn type_bytes(row: TypeRow) -> [u8; TYPE_SIZE]
    ensures { result ≡ spec.type_bytes row }
{
    let [e0, e1] = u16_bytes(row.entries);
    let [l0, l1] = u16_bytes(row.name_length);
    let [f0, f1, f2, f3] = u32_bytes(row.first_entry);
    let [n0, n1, n2, n3] = u32_bytes(row.first_name);
    [
        row.mods.mask(),
        row.levels,
        e0,
        e1,
        l0,
        l1,
        0,
        0,
        f0,
        f1,
        f2,
        f3,
        n0,
        n1,
        n2,
        n3,
    ]
}

/// The row that the bytes of an entry tell.
pub fn entry_at(bytes: &[u8]) -> EntryRow
    requires { length bytes.now ≡ 4 }
    ensures { result ≡ spec.entry_of bytes.now }
{
    EntryRow {
        mods: Mods::from_mask(bytes[0]),
        level: bytes[1],
        preserve: Mods::from_mask(bytes[2]),
    }
}

/// The bytes of the record of an entry.
pub fn entry_bytes(row: EntryRow) -> [u8; ENTRY_SIZE]
    ensures { result ≡ spec.entry_bytes row }
{
    [row.mods.mask(), row.level, row.preserve.mask(), 0]
}

fn range_of(code: u8, redirect: u8) -> Range
    ensures { result ≡ spec.range_of code redirect }
{
    match code {
        1 => Range::Clamp,
        2 => Range::Redirect(redirect),
        _ => Range::Wrap,
    }
}

fn range_code(range: Range) -> u8
    ensures { result ≡ spec.range_code range }
{
    match range {
        Range::Wrap => 0,
        Range::Clamp => 1,
        Range::Redirect(_) => 2,
    }
}

fn redirect_of(range: Range) -> u8
    ensures { result ≡ spec.redirect_of range }
{
    match range {
        Range::Wrap => 0,
        Range::Clamp => 0,
        Range::Redirect(to) => to,
    }
}

/// The row that the bytes of a key tell.
pub fn key_at(bytes: &[u8]) -> KeyRow
    requires { length bytes.now ≡ 16 }
    ensures { result ≡ spec.key_of bytes.now }
{
    KeyRow {
        code: u16_at(bytes, 0),
        modmap: Mods::from_mask(bytes[2]),
        range: range_of(bytes[3], bytes[4]),
        groups: bytes[5],
        name_length: u16_at(bytes, 6),
        first_name: u32_at(bytes, 8),
        first_group: u32_at(bytes, 12),
    }
}

/// The bytes of the record of a key.
pub fn key_bytes(row: KeyRow) -> [u8; KEY_SIZE]
    ensures { result ≡ spec.key_bytes row }
{
    let [c0, c1] = u16_bytes(row.code);
    let modmap = row.modmap.mask();
    let range = range_code(row.range);
    let redirect = redirect_of(row.range);
    let [l0, l1] = u16_bytes(row.name_length);
    let [n0, n1, n2, n3] = u32_bytes(row.first_name);
    let [g0, g1, g2, g3] = u32_bytes(row.first_group);
    [
        c0, c1, modmap, range, redirect, row.groups, l0, l1, n0, n1, n2, n3, g0, g1, g2, g3,
    ]
}

/// The row that the bytes of a group tell.
pub fn group_at(bytes: &[u8]) -> GroupRow
    requires { length bytes.now ≡ 8 }
    ensures { result ≡ spec.group_of bytes.now }
{
    GroupRow {
        key_type: u16_at(bytes, 0),
        first_cell: u32_at(bytes, 4),
    }
}

/// The bytes of the record of a group.
pub fn group_bytes(row: GroupRow) -> [u8; GROUP_SIZE]
    ensures { result ≡ spec.group_bytes row }
{
    let [t0, t1] = u16_bytes(row.key_type);
    let [c0, c1, c2, c3] = u32_bytes(row.first_cell);
    [t0, t1, 0, 0, c0, c1, c2, c3]
}

fn flag(set: bool, value: u8) -> u8
    ensures { result ≡ spec.flag set value }
{
    if set { value } else { 0 }
}

fn absolute_flag(group: GroupChange) -> u8
    ensures { result ≡ spec.absolute_flag group }
{
    match group {
        GroupChange::Absolute(_) => ABSOLUTE,
        GroupChange::Relative(_) => 0,
    }
}

fn change_byte(group: GroupChange) -> u8
    ensures { result ≡ spec.change_byte group }
{
    match group {
        GroupChange::Absolute(to) => to,
        GroupChange::Relative(by) => signed_byte(by),
    }
}

fn signed_byte(number: i8) -> u8
    ensures { result ≡ spec.signed_byte number }
{
    if number < 0 {
        255 - !number as u8
    } else {
        number as u8
    }
}

fn byte_signed(byte: u8) -> i8
    ensures { result ≡ spec.byte_signed byte }
{
    if byte < 128 {
        byte as i8
    } else {
        !((255 - byte) as i8)
    }
}

fn action_code(action: Action) -> u8
    ensures { result ≡ spec.action_code action }
{
    match action {
        Action::None => 0,
        Action::SetMods { .. } => 1,
        Action::LatchMods { .. } => 2,
        Action::LockMods { .. } => 3,
        Action::SetGroup { .. } => 4,
        Action::LatchGroup { .. } => 5,
        Action::LockGroup { .. } => 6,
    }
}

fn latch_flags(clear_locks: bool, latch_to_lock: bool) -> u8
    ensures value { result ≡ spec.flag clear_locks 1 + spec.flag latch_to_lock 2 }
    ensures small { result ≤ 3 }
{
    flag(clear_locks, CLEAR_LOCKS) + flag(latch_to_lock, LATCH_TO_LOCK)
}

fn action_flags(action: Action) -> u8
    ensures { result ≡ spec.action_flags action }
{
    match action {
        Action::None => 0,
        Action::SetMods { clear_locks, .. } => flag(clear_locks, CLEAR_LOCKS),
        Action::LatchMods {
            clear_locks,
            latch_to_lock,
            ..
        } => latch_flags(clear_locks, latch_to_lock),
        Action::LockMods { locks, unlocks, .. } => {
            flag(!locks, KEEPS_UNLOCKED) + flag(!unlocks, KEEPS_LOCKED)
        }
        Action::SetGroup { group, clear_locks } => {
            flag(clear_locks, CLEAR_LOCKS) + absolute_flag(group)
        }
        Action::LatchGroup {
            group,
            clear_locks,
            latch_to_lock,
        } => latch_flags(clear_locks, latch_to_lock) + absolute_flag(group),
        Action::LockGroup { group } => absolute_flag(group),
    }
}

fn action_mods(action: Action) -> u8
    ensures { result ≡ spec.action_mods action }
{
    match action {
        Action::SetMods { mods, .. } => mods.mask(),
        Action::LatchMods { mods, .. } => mods.mask(),
        Action::LockMods { mods, .. } => mods.mask(),
        Action::None => 0,
        Action::SetGroup { .. } => 0,
        Action::LatchGroup { .. } => 0,
        Action::LockGroup { .. } => 0,
    }
}

fn action_group(action: Action) -> u8
    ensures { result ≡ spec.action_group action }
{
    match action {
        Action::SetGroup { group, .. } => change_byte(group),
        Action::LatchGroup { group, .. } => change_byte(group),
        Action::LockGroup { group } => change_byte(group),
        Action::None => 0,
        Action::SetMods { .. } => 0,
        Action::LatchMods { .. } => 0,
        Action::LockMods { .. } => 0,
    }
}

fn has_flag(flags: u8, value: u8) -> bool
    ensures { result ≡ spec.has_flag flags value }
{
    flags & value != 0
}

fn change_of(flags: u8, group: u8) -> GroupChange
    ensures { result ≡ spec.change_of flags group }
{
    if has_flag(flags, ABSOLUTE) {
        GroupChange::Absolute(group)
    } else {
        GroupChange::Relative(byte_signed(group))
    }
}

fn action_of(code: u8, flags: u8, mods: u8, group: u8) -> Action
    ensures { result ≡ spec.action_of code flags mods group }
{
    let clear_locks = has_flag(flags, CLEAR_LOCKS);
    let latch_to_lock = has_flag(flags, LATCH_TO_LOCK);
    let locks = !has_flag(flags, KEEPS_UNLOCKED);
    let unlocks = !has_flag(flags, KEEPS_LOCKED);
    let mods = Mods::from_mask(mods);
    let group = change_of(flags, group);
    match code {
        1 => Action::SetMods { mods, clear_locks },
        2 => Action::LatchMods {
            mods,
            clear_locks,
            latch_to_lock,
        },
        3 => Action::LockMods {
            mods,
            locks,
            unlocks,
        },
        4 => Action::SetGroup { group, clear_locks },
        5 => Action::LatchGroup {
            group,
            clear_locks,
            latch_to_lock,
        },
        6 => Action::LockGroup { group },
        _ => Action::None,
    }
}

/// The row that the bytes of a cell tell.
pub fn cell_at(bytes: &[u8]) -> CellRow
    requires { length bytes.now ≡ 12 }
    ensures { result ≡ spec.cell_of bytes.now }
{
    CellRow {
        keysyms: bytes[0],
        action: action_of(bytes[1], bytes[2], bytes[3], bytes[4]),
        first_keysym: u32_at(bytes, 8),
    }
}

/// The bytes of the record of a cell.
pub fn cell_bytes(row: CellRow) -> [u8; CELL_SIZE]
    ensures { result ≡ spec.cell_bytes row }
{
    let code = action_code(row.action);
    let flags = action_flags(row.action);
    let mods = action_mods(row.action);
    let group = action_group(row.action);
    let [k0, k1, k2, k3] = u32_bytes(row.first_keysym);
    [
        row.keysyms,
        code,
        flags,
        mods,
        group,
        0,
        0,
        0,
        k0,
        k1,
        k2,
        k3,
    ]
}

/// The keysym that four bytes tell.
pub fn keysym_at(bytes: &[u8]) -> u32
    requires { length bytes.now ≡ 4 }
    ensures { result ≡ spec.keysym_of bytes.now }
{
    u32_at(bytes, 0)
}

/// The bytes of a keysym.
pub fn keysym_bytes(keysym: u32) -> [u8; KEYSYM_SIZE]
    ensures { result ≡ spec.keysym_bytes keysym }
{
    u32_bytes(keysym)
}

/// The row that the bytes of an indicator tell.
pub fn indicator_at(bytes: &[u8]) -> IndicatorRow
    requires { length bytes.now ≡ 16 }
    ensures { result ≡ spec.indicator_of bytes.now }
{
    IndicatorRow {
        mods: Mods::from_mask(bytes[0]),
        mod_states: States::from_mask(bytes[1]),
        group_states: States::from_mask(bytes[2]),
        groups: u32_at(bytes, 4),
        name_length: u16_at(bytes, 8),
        first_name: u32_at(bytes, 12),
    }
}

/// The bytes of the record of an indicator.
pub fn indicator_bytes(row: IndicatorRow) -> [u8; INDICATOR_SIZE]
    ensures { result ≡ spec.indicator_bytes row }
{
    let mods = row.mods.mask();
    let mod_states = row.mod_states.mask();
    let group_states = row.group_states.mask();
    let [g0, g1, g2, g3] = u32_bytes(row.groups);
    let [l0, l1] = u16_bytes(row.name_length);
    let [n0, n1, n2, n3] = u32_bytes(row.first_name);
    [
        mods,
        mod_states,
        group_states,
        0,
        g0,
        g1,
        g2,
        g3,
        l0,
        l1,
        0,
        0,
        n0,
        n1,
        n2,
        n3,
    ]
}

/// The row that the bytes of a group's name tell.
pub fn group_name_at(bytes: &[u8]) -> GroupNameRow
    requires { length bytes.now ≡ 8 }
    ensures { result ≡ spec.group_name_of bytes.now }
{
    GroupNameRow {
        name_length: u16_at(bytes, 0),
        first_name: u32_at(bytes, 4),
    }
}

/// The bytes of the record of a group's name.
pub fn group_name_bytes(row: GroupNameRow) -> [u8; GROUP_NAME_SIZE]
    ensures { result ≡ spec.group_name_bytes row }
{
    let [l0, l1] = u16_bytes(row.name_length);
    let [n0, n1, n2, n3] = u32_bytes(row.first_name);
    [l0, l1, 0, 0, n0, n1, n2, n3]
}
