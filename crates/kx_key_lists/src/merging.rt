//! Later lists are merged with those that are there.
ghost use Rattle.std.specs.Prelude.{◌≡◌, ◌-◌, ◌<◌, ◌^◌, ℕ, None, IfOk, nat_lt, OnOk, false, max, nat_eq, if◌then◌else◌};
ghost use Rattle.kx_key_lists.specs.Lists.{level_in, level_of, width_in, width_of};
ghost use Rattle.kx_merge.specs.Offers.{is_replace, merged_value};

use crate::levels::{LevelValue, Levels};
use crate::placing::widen;
use kx_parse::Mode;
use std::alloc::{AllocError, Global};

/// The levels of a group once later ones were merged under a mode that isn't replace.
fn merged_levels<X: LevelValue>(
    old: Option<Levels<X>>,
    later: Option<Levels<X>>,
    mode: Mode,
) -> Result<Option<Levels<X>>, AllocError>
    requires { is_replace mode ≡ false }
    ensures levels { IfOk result (λ list. (l : ℕ)
        → level_of list l ≡ merged_value mode (level_of old l) (level_of later l)) }
    ensures long { IfOk result (λ list. width_of list ≡ max (width_of old) (width_of later)) }
{
    match (old, later) {
        (Some(mut levels), Some(later)) => {
            levels.merge(later, mode)?;
            Ok(Some(levels))
        }
        (None, later) => Ok(later),
        (old, None) => Ok(old),
    }
}

/// The levels of a group once later ones were merged under a mode that isn't replace; those stay as they are.
fn merged_levels_copied<X: LevelValue>(
    alloc: Global,
    old: Option<Levels<X>>,
    later: &Option<Levels<X>>,
    mode: Mode,
) -> Result<Option<Levels<X>>, AllocError>
    requires { is_replace mode ≡ false }
    ensures levels { IfOk result (λ list. (l : ℕ)
        → level_of list l ≡ merged_value mode (level_of old l) (level_of later.now l)) }
    ensures long { IfOk result (λ list. width_of list ≡ max (width_of old) (width_of later.now)) }
{
    let Some(later) = later else {
        return Ok(old);
    };
    let mut levels = match old {
        Some(levels) => levels,
        None => Levels::with_room(alloc, later.len())?,
    };
    levels.merge_copied(later, mode)?;
    Ok(Some(levels))
}

/// Merges a later list of a group, where there is one; it stays as it is.
fn merge_group_copied<X: LevelValue>(
    alloc: Global,
    lists: &mut Vec<Option<Levels<X>>>,
    group: usize,
    later: &Option<Levels<X>>,
    mode: Mode,
) -> Result<(), AllocError>
    requires mode { is_replace mode ≡ false }
    requires group { group < 2 ^ 63 }
    ensures levels { OnOk result ((g l : ℕ)
        → level_in lists.new.items g l
        ≡ (if nat_eq g group then merged_value mode (level_in lists.old.items g l)
        (level_of later.now l)
        else level_in lists.old.items g l)) }
    ensures widths { OnOk result ((g : ℕ)
        → width_in lists.new.items g ≡ (if nat_eq g group
        then max (width_in lists.old.items g) (width_of later.now)
        else width_in lists.old.items g)) }
{
    widen(lists, group + 1)?;
    let old = lists[group].take();
    lists[group] = merged_levels_copied(alloc, old, later, mode)?;
    Ok(())
}

/// Merges later lists, of which the first is that of a group, under a mode that isn't replace; they stay as they are.
pub(crate) fn merge_groups_copied<X: LevelValue>(
    alloc: Global,
    lists: &mut Vec<Option<Levels<X>>>,
    from: usize,
    later: &[Option<Levels<X>>],
    mode: Mode,
) -> Result<(), AllocError>
    requires mode { is_replace mode ≡ false }
    requires from { from < 2 ^ 8 }
    ensures levels { OnOk result ((g l : ℕ)
        → level_in lists.new.items g l
        ≡ merged_value mode (level_in lists.old.items g l) (if nat_lt g from then None
        else level_in later.now (g - from) l)) }
    ensures widths { OnOk result ((g : ℕ)
        → width_in lists.new.items g ≡ max (width_in lists.old.items g) (if nat_lt g from then 0
        else width_in later.now (g - from))) }
{
    'lists: for place in 0..later.len() {
        merge_group_copied(alloc, lists, from + place, &later[place], mode)?;
    }
    Ok(())
}

/// Merges a later list of a group, where there is one.
fn merge_group<X: LevelValue>(
    lists: &mut Vec<Option<Levels<X>>>,
    group: usize,
    later: Option<Levels<X>>,
    mode: Mode,
) -> Result<(), AllocError>
    requires mode { is_replace mode ≡ false }
    requires group { group < 2 ^ 63 }
    ensures levels { OnOk result ((g l : ℕ)
        → level_in lists.new.items g l
        ≡ (if nat_eq g group then merged_value mode (level_in lists.old.items g l)
        (level_of later l)
        else level_in lists.old.items g l)) }
    ensures widths { OnOk result ((g : ℕ)
        → width_in lists.new.items g ≡ (if nat_eq g group
        then max (width_in lists.old.items g) (width_of later) else width_in lists.old.items g)) }
{
    widen(lists, group + 1)?;
    let old = lists[group].take();
    lists[group] = merged_levels(old, later, mode)?;
    Ok(())
}

/// Merges later lists, of which the first is that of a group, under a mode that isn't replace.
pub(crate) fn merge_groups<X: LevelValue>(
    lists: &mut Vec<Option<Levels<X>>>,
    from: usize,
    later: Vec<Option<Levels<X>>>,
    mode: Mode,
) -> Result<(), AllocError>
    requires mode { is_replace mode ≡ false }
    requires from { from < 2 ^ 8 }
    ensures levels { OnOk result ((g l : ℕ)
        → level_in lists.new.items g l
        ≡ merged_value mode (level_in lists.old.items g l) (if nat_lt g from then None
        else level_in later.items (g - from) l)) }
    ensures widths { OnOk result ((g : ℕ)
        → width_in lists.new.items g ≡ max (width_in lists.old.items g) (if nat_lt g from then 0
        else width_in later.items (g - from))) }
{
    let mut later = later;
    'lists: for place in 0..later.len() {
        let list = later[place].take();
        merge_group(lists, from + place, list, mode)?;
    }
    Ok(())
}
