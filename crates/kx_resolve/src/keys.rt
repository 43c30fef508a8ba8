//! Keys, pushed group by group and level by level.
ghost use Rattle.std.specs.Prelude.{◌≡◌, ◌≤◌, ◌<◌, ◌^◌, ℕ, IfErr, IfOk, OnOk, List, [], drop, fold, length, map, take};
ghost use Rattle.kx_basics.specs.declared.limits.TheConstants.{CODES, MOST_GROUPS, MOST_LEVELS, MOST_NAME_BYTES};
ghost use Rattle.kx_builder.specs.Pushes.{last_groups, with_cell, with_group, with_key};
ghost use Rattle.kx_builder.specs.Valid.{CellIsValid};
ghost use Rattle.kx_lex.specs.declared.fault.Fault.TheVariants.{Memory};
ghost use Rattle.kx_mods.specs.Mods.{mask};
ghost use Rattle.kx_resolve.specs.Bare.{with_keys};
ghost use Rattle.kx_keys.specs.Bounds.{last_cells};
ghost use Rattle.kx_keys.specs.InterpretedKey.{LevelsAreValid, cell_at, cells_at, given_to};
ghost use Rattle.kx_resolve.specs.Modmaps.{modmap_at};
ghost use Rattle.kx_resolve.specs.NamedKeys.{names_used, typing_in};
ghost use Rattle.kx_resolve.specs.Read.{AreAhead, KeepBoundsBelow, KeepsBoundsAt, keys_at, keys_read, typing_read};
ghost use Rattle.kx_resolve.specs.TypedKeys.{GroupIsValid, GroupsAreValid, group_typed, key_typed};
ghost use Rattle.kx_resolve.specs.TypesInUse.{type_in_use};
ghost use Rattle.kx_tables.specs.Sound.{RangeHolds};

use crate::key_modmaps::KeyModmaps;
use crate::read::Read;
use crate::tables_builder::TablesBuilder;
use crate::types_in_use::{TypeInUse, UsedTypes};
use ks_core::Note;
use kx_keys::given::{keysyms_at, range};
use kx_keys::group_types::{content_group, group_count};
use kx_keys::interpreted_key::InterpretedKey;
use kx_lex::Fault;
use kx_mods::Mods;
use kx_symbols::KeyRecord;
use kx_tables::Range;

/// Pushes a level of a group.
fn push_level(
    builder: &mut TablesBuilder,
    key: &InterpretedKey,
    group: usize,
    level: usize,
) -> Result<(), Fault>
    requires some { 0 < length (last_groups builder.old.keys) }
    requires few { length (last_cells builder.old.keys) < MOST_LEVELS }
    ensures pushed { OnOk result (builder.new
        ≡ with_cell builder.old (cell_at key.now group level)) }
    ensures valid { CellIsValid (cell_at key.now group level) }
    ensures err { IfErr result (λ e. e ≡ Memory) }
{
    builder.push_level(
        keysyms_at(key.record(), group, level),
        key.action(group, level),
    )
}

/// Pushes the levels of a group that has none yet.
#[tactic(auto, using(crate::proofs::Steps::cells_none, crate::proofs::Steps::cells_next))]
fn push_levels(
    builder: &mut TablesBuilder,
    key: &InterpretedKey,
    group: usize,
    levels: usize,
) -> Result<(), Fault>
    requires some { 0 < length (last_groups builder.old.keys) }
    requires bare { last_cells builder.old.keys ≡ [] }
    requires few { levels ≤ MOST_LEVELS }
    ensures pushed { OnOk result (builder.new
        ≡ fold with_cell builder.old (cells_at key.now group levels)) }
    ensures valid { OnOk result (LevelsAreValid key.now group levels) }
    ensures err { IfErr result (λ e. e ≡ Memory) }
{
    'levels: for level in 0..levels {
        push_level(builder, key, group, level)?;
    }
    Ok(())
}

/// Notes a type that stands in place of another, and keysyms or an action after its levels.
fn note_group(builder: &mut TablesBuilder, key: &KeyRecord, content: usize, group_type: &TypeInUse)
    ensures { builder.new ≡ builder.old }
{
    if group_type.falls_back() {
        builder.note(Note::OtherType);
    }
    let lost = |level| key.keysyms(content, level).is_some()
        || key.action(content, level).is_some();
    if (group_type.levels()..key.width(content)).any(lost) {
        builder.note(Note::LostLevels);
    }
}

/// Pushes a group with its levels.
fn push_group(
    builder: &mut TablesBuilder,
    key: &InterpretedKey,
    group: usize,
    group_type: &TypeInUse,
) -> Result<(), Fault>
    requires some { 0 < length builder.old.keys }
    requires few { length (last_groups builder.old.keys) < MOST_GROUPS }
    ensures pushed { OnOk result (builder.new
        ≡ with_group builder.old (group_typed key.now group group_type.now)) }
    ensures valid { OnOk result (GroupIsValid key.now group group_type.now) }
    ensures err { IfErr result (λ e. e ≡ Memory) }
{
    let content = content_group(key.record(), group);
    note_group(builder, key.record(), content, group_type);
    builder.push_group(group_type.place())?;
    push_levels(builder, key, content, group_type.levels())?;
    Ok(())
}

/// Pushes a key with its groups, one for each type.
fn push_key(
    builder: &mut TablesBuilder,
    code: u16,
    name: &[u8],
    key: &InterpretedKey,
    group_types: &[TypeInUse],
) -> Result<(), Fault>
    requires few { length builder.old.keys < CODES }
    requires groups { length group_types.now ≤ MOST_GROUPS }
    requires short { length name.now ≤ MOST_NAME_BYTES }
    ensures pushed { OnOk result (builder.new
        ≡ with_key builder.old (key_typed key.now code name.now group_types.now)) }
    ensures valid { OnOk result (GroupsAreValid key.now group_types.now (length group_types.now)) }
    ensures range { RangeHolds (given_to key.now).range }
    ensures err { IfErr result (λ e. e ≡ Memory) }
{
    builder.push_key(code, name, key.modmap(), range(key.record()))?;
    'groups: for group in 0..group_types.len() {
        push_group(builder, key, group, &group_types[group])?;
    }
    Ok(())
}

/// What the key of a code is mapped to.
fn key_mods(modmaps: &KeyModmaps, code: u16) -> Mods
    ensures value { result ≡ modmap_at modmaps.now code }
    ensures fits { mask result < 2 ^ 8 }
{
    modmaps.key(code)
}

/// The types of so many groups, and those after them.
fn split(group_types: &[TypeInUse], count: usize) -> (&[TypeInUse], &[TypeInUse])
    ensures own { result.0.now ≡ take count group_types.now }
    ensures rest { result.1.now ≡ drop count group_types.now }
{
    match group_types.split_at_checked(count) {
        Some(split) => split,
        None => (group_types, &[]),
    }
}

/// Pushes the key of a code, where the code has a name; answers the types after those of its groups.
#[tactic(auto, using(crate::proofs::Steps::none_groups))]
fn push_code<'p>(
    builder: &mut TablesBuilder,
    read: Read,
    group_types: &'p [TypeInUse],
    code: u16,
) -> Result<&'p [TypeInUse], Fault>
    requires few { length builder.old.keys < CODES }
    ensures pushed { OnOk result ((used ns : List (List ℕ))
        → AreAhead read.entry code group_types.now used ns
        → builder.new ≡ with_keys builder.old (keys_at read.entry code used)) }
    ensures bounds { OnOk result ((used ns : List (List ℕ))
        → AreAhead read.entry code group_types.now used ns → KeepsBoundsAt read.entry code) }
    ensures rest { IfOk result (λ rest. (used ns : List (List ℕ))
        → AreAhead read.entry code group_types.now used ns
        → rest.now ≡ map (type_in_use (typing_read read.entry) used) ns) }
    ensures err { IfErr result (λ e. e ≡ Memory) }
{
    match read.keys.named.codes.name_of(code) {
        None => Ok(group_types),
        Some(name) => {
            let modmap = key_mods(read.keys.modmaps, code);
            match read.keys.named.key(code) {
                None => {
                    builder.push_key(code, name, modmap, Range::Wrap)?;
                    Ok(group_types)
                }
                Some(key) => {
                    let (own, rest) = split(group_types, group_count(key));
                    let interpretations = read.keys.interpretations;
                    let key = InterpretedKey::of(key, modmap, interpretations, read.stands);
                    push_key(builder, code, name, &key, own)?;
                    Ok(rest)
                }
            }
        }
    }
}

/// Pushes the keys that keycodes name, in the order of their codes.
pub(crate) fn push_keys(
    builder: &mut TablesBuilder,
    read: Read,
    used: &UsedTypes,
) -> Result<(), Fault>
    requires keyless { builder.old.keys ≡ [] }
    requires group_types { used.now.group_types.items
        ≡ map (type_in_use (typing_in read.keys.named) used.now.names)
        (names_used read.keys.named CODES) }
    ensures pushed { OnOk result (builder.new
        ≡ record builder.old { keys = keys_read read.entry used.now.names CODES }) }
    ensures bounds { OnOk result (KeepBoundsBelow read.entry CODES) }
    ensures err { IfErr result (λ e. e ≡ Memory) }
{
    let mut group_types = used.group_types.as_slice();
    'codes: for code in 0..read.keys.named.codes.end() {
        group_types = push_code(builder, read, group_types, code)?;
    }
    Ok(())
}
