//! What the rules that apply take of the names that are asked for.
ghost use Rattle.std.specs.Prelude.{◌≡◌, ◌++◌, IfOk, OnOk, filter_map, flat_map, option_map, option_to_list, zip};
ghost use Rattle.kx_rules.specs.Mappings.{layout_place};
ghost use Rattle.kx_rule_lines.specs.Pieces.{Piece as PieceValue};
ghost use Rattle.kx_rules.specs.Uses.{item_place, name_at, options_of, use_of, without_sign, written};
ghost use Rattle.kx_rules.specs.declared.columns.Column.{Column as ColumnValue};
ghost use Rattle.kx_rules.specs.declared.uses.Use.TheVariants.{Named as NamedUse};

use crate::columns::{Column, Field, layout_place};
use crate::expansion::{front, index_in, is_joint};
use crate::members::Groups;
use crate::names::Names;
use crate::uses::Use::{AllOptions, Grouped, Named};
use kx_rule_lines::{Kind, Piece};
use std::alloc::{AllocError, Global};

/// What a rule takes that applies.
#[derive(Clone, Copy)]
pub(crate) enum Use {
    /// The name of a field at a place, also an option.
    Named(Field, usize),
    /// Every option.
    AllOptions,
    /// The options that the group at a place has.
    Grouped(usize),
}

fn named(field: Field, place: Option<usize>) -> Option<Use>
    ensures { result ≡ option_map (λ p. NamedUse field p) place }
{
    match place {
        None => None,
        Some(place) => Some(Named(field, place)),
    }
}

/// What a value takes that stands for options.
fn options_of(names: &Names, groups: &Groups, value: &Piece) -> Option<Use>
    ensures { result ≡ options_of names.now groups.now value.now }
{
    match value.kind() {
        Kind::Star => Some(AllOptions),
        Kind::Group => match groups.place_of(value.text()) {
            None => None,
            Some(place) => Some(Grouped(place)),
        },
        Kind::NewLine | Kind::Bang | Kind::Equals | Kind::Include | Kind::Word | Kind::Bad => named(
            Field::Choice,
            names.place_of_option(value.text()),
        ),
    }
}

/// What a value takes on the left of a rule that applies, of which the layout is at a place.
fn use_of(
    names: &Names,
    groups: &Groups,
    place: usize,
    column: Column,
    value: &Piece,
) -> Option<Use>
    ensures { result ≡ use_of names.now groups.now place column value.now }
{
    match column.field {
        Field::Model => Some(Named(Field::Model, 0)),
        Field::Layout => Some(Named(Field::Layout, place)),
        Field::Variant => Some(Named(Field::Variant, place)),
        Field::Choice => options_of(names, groups, value),
    }
}

fn item_place(many: usize, index: Option<usize>) -> Option<usize>
    ensures { result ≡ item_place many index }
{
    match index {
        None => { if many == 1 { Some(0) } else { None } }
        Some(place) => { if many == 1 { None } else { Some(place) } }
    }
}

fn without_sign(bytes: &[u8]) -> &[u8]
    ensures { result.now ≡ without_sign bytes.now }
{
    match bytes {
        [] => bytes,
        [sign, behind @ ..] => {
            if *sign == b'(' || is_joint(*sign) {
                behind
            } else {
                bytes
            }
        }
    }
}

/// The name that a letter and its index stand for.
#[tactic(auto, unfolding(crate::specs::Uses::name_at))]
fn name_at(names: &Names, bytes: &[u8]) -> Option<Use>
    ensures { result ≡ name_at names.now bytes.now }
{
    let (letter, behind) = bytes.split_first()?;
    let index = index_in(front(behind));
    match *letter {
        b'm' => Some(Named(Field::Model, 0)),
        b'l' => named(Field::Layout, item_place(names.layouts().len(), index)),
        b'v' => named(Field::Variant, item_place(names.variants().len(), index)),
        _ => None,
    }
}

fn push_some(taken: &mut Vec<Use>, found: Option<Use>) -> Result<(), AllocError>
    ensures { OnOk result (taken.new.items ≡ taken.old.items ++ option_to_list found) }
{
    match found {
        None => Ok(()),
        Some(found) => {
            taken.push(found)?;
            Ok(())
        }
    }
}

/// Adds the names that a value writes.
#[tactic(auto, using(crate::proofs::Using::written_none, crate::proofs::Using::written_byte, crate::proofs::Using::written_sign))]
fn push_written(taken: &mut Vec<Use>, names: &Names, value: &[u8]) -> Result<(), AllocError>
    ensures { OnOk result (taken.new.items ≡ taken.old.items ++ written names.now value.now) }
{
    let mut rest = value;
    'bytes: while let Some((byte, behind)) = rest.split_first() {
        if *byte == b'%' {
            push_some(taken, name_at(names, without_sign(behind)))?;
        }
        rest = behind;
    }
    Ok(())
}

/// Adds the names that values write. A rule that applies has five at most, so it calls itself five times at most.
pub(crate) fn push_all_written(
    taken: &mut Vec<Use>,
    names: &Names,
    values: &[Piece],
) -> Result<(), AllocError>
    ensures { OnOk result (taken.new.items
        ≡ taken.old.items ++ flat_map (λ v. written names.now v.text) values.now) }
{
    match values {
        [] => Ok(()),
        [value, values @ ..] => {
            push_written(taken, names, value.text())?;
            push_all_written(taken, names, values)
        }
    }
}

/// What the values on the left of a rule take that applies.
pub(crate) fn left_uses(
    alloc: Global,
    names: &Names,
    groups: &Groups,
    columns: &[Column],
    lefts: &[Piece],
) -> Result<Vec<Use>, AllocError>
    ensures { IfOk result (λ uses. uses.items ≡
        filter_map (λ (pair : ColumnValue × PieceValue).
        use_of names.now groups.now (layout_place columns.now) pair.0 pair.1)
        (zip columns.now lefts.now)) }
{
    let place = layout_place(columns);
    columns
        .iter()
        .zip(lefts)
        .filter_map(|(column, value)| use_of(names, groups, place, *column, value))
        .collect(alloc)
}
