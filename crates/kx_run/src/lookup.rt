//! The keysyms and the action of a key in a state.
ghost use Rattle.std.specs.Prelude.{◌≡◌, ◌+◌, ◌^◌, ◌<◌, ◌≤◌, [], length, slice_get, Some, IfSome};
ghost use Rattle.kx_mods.specs.Mods.{mask};
ghost use Rattle.kx_tables.specs.Content.{part};
ghost use Rattle.kx_tables.specs.Keymap.{key_with, entry_for, level_of, consumed_by, group_shows, key_shows};
ghost use Rattle.kx_tables.specs.Sound.{Sound};
ghost use Rattle.kx_run.specs.Lookup.{found_shows, shown_at, shown_in, IsReadable, NamesLevels, TellsChoices};

use crate::choices::{Choice, Choices, choice_of};
use arrayvec::ArrayVec;
use kx_mods::Mods;
use kx_tables::{Action, CellRow, EntryRow, GroupRow, KeyRow, Tables, TypeRow, wrap_group};

/// What a key gives in a state.
#[derive(Clone, Copy)]
pub struct Found {
    /// The level, which has its keysyms and its action.
    pub cell: CellRow,
    /// The modifiers that the keysyms use up.
    pub consumed: Mods,
}

impl Found {
    /// What a key without groups gives.
    const NOTHING: Found = Found {
        cell: CellRow {
            keysyms: 0,
            action: Action::None,
            first_keysym: 0,
        },
        consumed: Mods::NONE,
    };
}

/// The key of a code.
pub fn key_of<T: Tables>(tables: &T, code: u16) -> Option<KeyRow>
    ensures { result ≡ key_with (T.content tables.now) code }
{
    match tables.key_of(code) {
        None => None,
        Some(index) => Some(tables.key_row(index)),
    }
}

/// What a key of the tables gives at an effective group, from 0, and effective modifiers.
pub fn look_up<T: Tables>(tables: &T, key: KeyRow, group: u8, mods: Mods) -> Found
    requires { key.first_group + key.groups ≤ length (T.content tables.now).groups }
    ensures value { found_shows (T.content tables.now) result
        ≡ key_shows (T.content tables.now) group (mask mods) (Some key) }
    ensures readable { IsReadable (T.content tables.now) result }
{
    let _sound = tables.key_count();
    if key.groups == 0 {
        return Found::NOTHING;
    }
    let place = wrap_group(i64::from(group), key.groups, key.range);
    look_up_group(tables, key.first_group + u32::from(place), mods)
}

/// The same, where the choices of the types are kept.
pub fn look_up_chosen<T: Tables>(
    tables: &T,
    choices: &mut Choices,
    key: KeyRow,
    group: u8,
    mods: Mods,
) -> Found
    requires within { key.first_group + key.groups ≤ length (T.content tables.now).groups }
    requires choices { TellsChoices choices.old (T.content tables.now) }
    ensures value { found_shows (T.content tables.now) result
        ≡ key_shows (T.content tables.now) group (mask mods) (Some key) }
    ensures readable { IsReadable (T.content tables.now) result }
    ensures choices { TellsChoices choices.new (T.content tables.now) }
{
    let _sound = tables.key_count();
    if key.groups == 0 {
        return Found::NOTHING;
    }
    let place = wrap_group(i64::from(group), key.groups, key.range);
    look_up_group_chosen(tables, choices, key.first_group + u32::from(place), mods)
}

/// What the group at a place of the table gives at effective modifiers.
fn look_up_group<T: Tables>(tables: &T, place: u32, mods: Mods) -> Found
    requires sound { Sound (T.content tables.now) }
    requires within { place < length (T.content tables.now).groups }
    ensures value { found_shows (T.content tables.now) result
        ≡ group_shows (T.content tables.now) (mask mods)
        (slice_get (T.content tables.now).groups place) }
    ensures readable { IsReadable (T.content tables.now) result }
{
    let group = tables.group_row(place);
    let row = tables.type_row(group.key_type);
    level_found(tables, group, choice_of(tables, row, mods))
}

/// The same, where the choices of the types are kept.
fn look_up_group_chosen<T: Tables>(
    tables: &T,
    choices: &mut Choices,
    place: u32,
    mods: Mods,
) -> Found
    requires sound { Sound (T.content tables.now) }
    requires within { place < length (T.content tables.now).groups }
    requires choices { TellsChoices choices.old (T.content tables.now) }
    ensures value { let c = T.content tables.now in found_shows c result
        ≡ shown_in c place (mask mods) }
    ensures readable { IsReadable (T.content tables.now) result }
    ensures choices { TellsChoices choices.new (T.content tables.now) }
{
    let group = tables.group_row(place);
    let choice = choices.choose(tables, group.key_type, mods);
    level_found(tables, group, choice)
}

/// What a group gives at the level that its type gives.
fn level_found<T: Tables>(tables: &T, group: GroupRow, choice: Choice) -> Found
    requires sound { Sound (T.content tables.now) }
    requires within { group.first_cell + choice.level < length (T.content tables.now).cells }
    ensures value { let c = T.content tables.now in found_shows c result ≡ shown_at c group choice }
    ensures readable { IsReadable (T.content tables.now) result }
{
    let cell = tables.cell_row(group.first_cell + u32::from(choice.level));
    Found {
        cell,
        consumed: choice.consumed,
    }
}

/// The entry of a type that effective modifiers choose.
pub fn find_entry<T: Tables>(tables: &T, row: TypeRow, mods: Mods) -> Option<EntryRow>
    requires within { row.first_entry + row.entries ≤ length (T.content tables.now).entries }
    requires fits { length (T.content tables.now).entries < 2 ^ 32 }
    requires levels { NamesLevels (T.content tables.now) row }
    ensures value { result ≡ entry_for (T.content tables.now) row (mask mods) }
    ensures some { IfSome result (λ e. 1 ≤ e.level) }
    ensures most { IfSome result (λ e. e.level ≤ row.levels) }
{
    let wanted = mods.meet(row.mods).mask();
    let last = row.first_entry + u32::from(row.entries);
    for place in row.first_entry..last {
        let entry = tables.entry_row(place);
        if entry.mods.mask() == wanted {
            return Some(entry);
        }
    }
    None
}

/// The level that an entry names, counted from 0; the first without one.
pub fn level(entry: Option<EntryRow>) -> u8
    requires { IfSome entry (λ e. 1 ≤ e.level) }
    ensures { result ≡ level_of entry }
{
    match entry {
        None => 0,
        Some(found) => found.level - 1,
    }
}

/// The modifiers that a type uses up by an entry.
pub fn consumed(row: TypeRow, entry: Option<EntryRow>) -> Mods
    ensures { mask result ≡ consumed_by row entry }
{
    match entry {
        None => row.mods,
        Some(found) => row.mods.minus(found.preserve),
    }
}

/// Puts the keysyms of a level, mostly one, into an empty list.
pub fn read_keysyms<T: Tables>(tables: &T, cell: CellRow, syms: &mut ArrayVec<u32, 8>)
    requires few { cell.keysyms ≤ 8 }
    requires within { cell.first_keysym + cell.keysyms ≤ length (T.content tables.now).keysyms }
    requires fits { length (T.content tables.now).keysyms < 2 ^ 32 }
    requires empty { syms.old.items ≡ [] }
    ensures { syms.new.items ≡ part (T.content tables.now).keysyms cell.first_keysym cell.keysyms }
{
    if cell.keysyms == 1 {
        syms.push(tables.keysym(cell.first_keysym));
        return;
    }
    let last = cell.first_keysym + u32::from(cell.keysyms);
    for place in cell.first_keysym..last {
        syms.push(tables.keysym(place));
    }
}
