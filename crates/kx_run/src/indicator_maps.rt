//! Which indicators are lit.
ghost use Rattle.std.specs.Prelude.{◌≡◌, ◌<◌, ◌≤◌, ◌&&◌, if◌then◌else◌};
ghost use Rattle.kx_mods.specs.Mods.{mask};
ghost use Rattle.kx_tables.specs.Keymap.{keymap_of, indicator_map_of};
ghost use Rattle.kx_tables.specs.States.{state_bits};
ghost use Rattle.kx_run.specs.Replies.{told, has_bit, chosen_mods, has_chosen_group, is_lit, lit_in};

use crate::group::{effective, modulo};
use crate::reply::Components;
use kx_mods::Mods;
use kx_tables::{IndicatorRow, States, Tables};

/// The indicators that are lit in a state: bit i is indicator i of the tables. `groups` is the tables' number of
/// groups. The effective group of the state isn't read.
pub fn lit<T: Tables>(tables: &T, state: Components, groups: u8) -> u32
    requires { groups ≡ (keymap_of (T.content tables.now)).groups }
    ensures { result ≡ lit_in (keymap_of (T.content tables.now)) (told state) }
{
    let _sound = tables.key_count();
    let mut place = tables.counts().indicators;
    let mut lit = 0u32;
    while place > 0 {
        place -= 1;
        lit = 2 * lit + u32::from(is_lit(tables.indicator_row(place), state, groups));
    }
    lit
}

/// Whether an indicator is lit in a state.
fn is_lit(row: IndicatorRow, state: Components, groups: u8) -> bool
    requires some_group { 1 ≤ groups }
    requires few_groups { groups ≤ 32 }
    ensures { result ≡ is_lit groups (told state) (indicator_map_of row) }
{
    !row.mods.meet(chosen_mods(row.mod_states, state)).is_none()
        || has_chosen_group(row.groups, row.group_states, state, groups)
}

/// The modifiers of the chosen parts of a state.
fn chosen_mods(parts: States, state: Components) -> Mods
    ensures { mask result ≡ chosen_mods (state_bits parts) (told state) }
{
    let parts = u32::from(parts.mask());
    let effective = state.base.with(state.latched).with(state.locked);
    let keys = only_if(has_bit(parts, 0), state.base).with(only_if(
        has_bit(parts, 1),
        state.latched,
    ));
    keys.with(only_if(has_bit(parts, 2), state.locked).with(only_if(has_bit(parts, 3), effective)))
}

/// Whether the group of a chosen part is one of these groups.
fn has_chosen_group(wanted: u32, parts: States, state: Components, groups: u8) -> bool
    requires some_group { 1 ≤ groups }
    requires few_groups { groups ≤ 32 }
    ensures { result ≡ has_chosen_group groups wanted (state_bits parts) (told state) }
{
    if wanted == 0 {
        return false;
    }
    let parts = u32::from(parts.mask());
    let base = modulo(i64::from(state.base_group), groups);
    let all = effective(
        state.base_group,
        state.latched_group,
        state.locked_group,
        groups,
    );
    let by_base = looks_at(parts, 0, wanted, base);
    let by_latched = looks_at(parts, 1, wanted, state.latched_group % groups);
    let by_locked = looks_at(parts, 2, wanted, state.locked_group % groups);
    let by_all = looks_at(parts, 3, wanted, all);
    by_base || by_latched || by_locked || by_all
}

/// Whether a part is chosen, and its group is one of these groups.
fn looks_at(parts: u32, part: u8, wanted: u32, group: u8) -> bool
    requires part { part < 32 }
    requires group { group < 32 }
    ensures { result ≡ (has_bit parts part && has_bit wanted group) }
{
    has_bit(parts, part) && has_bit(wanted, group)
}

/// Whether a bit is set.
fn has_bit(mask: u32, bit: u8) -> bool
    requires { bit < 32 }
    ensures { result ≡ has_bit mask bit }
{
    (mask >> bit) & 1 == 1
}

/// These modifiers, if they are asked for.
fn only_if(asked: bool, mods: Mods) -> Mods
    ensures { mask result ≡ (if asked then mask mods else 0) }
{
    if asked { mods } else { Mods::NONE }
}
