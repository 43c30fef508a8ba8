//! Which group a list is given to.
ghost use Rattle.std.specs.Prelude.{◌≡◌, ◌<◌, ◌++◌, IfOk, OnOk, Some, position};
ghost use Rattle.kx_basics.specs.declared.limits.TheConstants.{MOST_GROUPS};
ghost use Rattle.kx_key_lists.specs.Lists.{free_group, has_list, is_free, widened_to, with_list};
ghost use Rattle.kx_key_lists.specs.Places.{group_for, open_group, place_faults, second_faults};
ghost use Rattle.kx_merge.specs.Numbers.{number_faults};
ghost use Rattle.kx_merge.specs.declared.numbers.Counted.TheVariants.{Group};
ghost use Rattle.kx_key_lists.specs.Groups.{group_at};
ghost use Rattle.kx_merge.specs.Reports.{Reports};

use crate::groups::read_group;
use crate::levels::{LevelValue, Levels};
use kx_basics::MOST_GROUPS;
use kx_lex::{At, Boxed, Fault};
use kx_parse::{Expression, Index, List as Listed};
use std::alloc::AllocError;

fn first_free<X: LevelValue>(lists: &[Option<Levels<X>>]) -> Option<usize>
    ensures { result ≡ position is_free lists.now }
{
    lists.iter().position(|list| list.is_none())
}

/// The first group without a list.
fn free_group<X: LevelValue>(lists: &[Option<Levels<X>>]) -> usize
    ensures { result ≡ free_group lists.now }
{
    match first_free(lists) {
        Some(group) => group,
        None => lists.len(),
    }
}

fn has_list<X: LevelValue>(lists: &[Option<Levels<X>>], group: usize) -> bool
    ensures { result ≡ has_list lists.now group }
{
    match lists.get(group) {
        Some(list) => list.is_some(),
        None => false,
    }
}

/// Adds groups without a list until there are so many.
fn pad<X: LevelValue>(lists: &mut Vec<Option<Levels<X>>>, count: usize) -> Result<(), AllocError>
    ensures { OnOk result (lists.new.items ≡ widened_to count lists.old.items) }
{
    'groups: while lists.len() < count {
        lists.push(None)?;
    }
    Ok(())
}

/// The same, in no more room than they take.
pub(crate) fn widen<X: LevelValue>(
    lists: &mut Vec<Option<Levels<X>>>,
    count: usize,
) -> Result<(), AllocError>
    ensures { OnOk result (lists.new.items ≡ widened_to count lists.old.items) }
{
    lists.reserve_exact(count.saturating_sub(lists.len()))?;
    pad(lists, count)
}

/// Gives a group, counted from 0, a list.
///
/// # Errors
/// None but lack of memory.
pub fn put_list<X: LevelValue>(
    lists: &mut Vec<Option<Levels<X>>>,
    group: usize,
    levels: Levels<X>,
) -> Result<(), AllocError>
    requires { group < MOST_GROUPS }
    ensures { OnOk result (lists.new.items ≡ with_list lists.old.items group levels) }
{
    pad(lists, group + 1)?;
    lists[group] = Some(levels);
    Ok(())
}

/// The group of an index, counted from 0, where it has no list yet.
fn indexed_group<X: LevelValue>(
    file: u32,
    lists: &[Option<Levels<X>>],
    list: &Listed,
    index: &Expression,
) -> Result<usize, Fault>
    ensures small { IfOk result (λ group. group < MOST_GROUPS) }
    ensures value { IfOk result (λ group. Some group ≡ open_group lists.now (group_at index.now)) }
    ensures faults { Reports result
        (number_faults file Group index.now
        ++ second_faults file lists.now list.now (group_at index.now)) }
{
    let group = usize::from(read_group(file, index)?);
    if has_list(lists, group) {
        return Err(Fault::BadValue(At {
            file,
            span: list.span,
        }));
    }
    Ok(group)
}

/// The group, counted from 0, that a list of a statement in a file is given to, beside those that it gave before: that of
/// its index, or the first that has none.
///
/// # Errors
/// `BadValue` at an index that is no group, and at a second list for one; `GroupRange` at an index outside of 1 to 32, and
/// at a list for which no group is left.
pub fn group_for<X: LevelValue>(
    file: u32,
    lists: &[Option<Levels<X>>],
    index: &Option<Boxed<Index>>,
    list: &Listed,
) -> Result<usize, Fault>
    ensures small { IfOk result (λ group. group < MOST_GROUPS) }
    ensures value { IfOk result (λ group. Some group ≡ group_for lists.now (index.now)) }
    ensures faults { Reports result (place_faults file lists.now (index.now) list.now) }
{
    match index {
        Some(index) => indexed_group(file, lists, list, &index.get().value),
        None => {
            let group = free_group(lists);
            if group >= usize::from(MOST_GROUPS) {
                return Err(Fault::GroupRange(At {
                    file,
                    span: list.span,
                }));
            }
            Ok(group)
        }
    }
}
