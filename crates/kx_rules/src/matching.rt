//! Which rules are for the names that were asked for.
ghost use Rattle.std.specs.Prelude.{◌≡◌};
ghost use Rattle.std.specs.List.{list_all, zip};
ghost use Rattle.kx_rules.specs.Matches.{applies, fits, is_named};
ghost use Rattle.kx_rules.specs.declared.columns.Column.{Column};
ghost use Rattle.kx_rule_lines.specs.Pieces.{Piece};

use crate::columns::{Column, Field, Mapping};
use crate::members::Groups;
use crate::names::Names;
use kx_rule_lines::{Kind, Piece};

fn is_named(names: &Names, place: usize, column: Column, word: &[u8]) -> bool
    ensures { result ≡ is_named names.now place column word.now }
{
    match column.field {
        Field::Model => word == names.model(),
        Field::Layout => word == names.layout(place),
        Field::Variant => word == names.variant(place),
        Field::Choice => names.has_option(word),
    }
}

fn fits(names: &Names, groups: &Groups, place: usize, column: Column, value: &Piece) -> bool
    ensures { result ≡ fits names.now groups.now place column value.now }
{
    match value.kind() {
        Kind::Star => true,
        Kind::Group => groups.is_member(value.text(), place, column),
        Kind::NewLine | Kind::Bang | Kind::Equals | Kind::Include | Kind::Word | Kind::Bad =>
            is_named(names, place, column, value.text()),
    }
}

fn all_fit(
    names: &Names,
    groups: &Groups,
    place: usize,
    columns: &[Column],
    values: &[Piece],
) -> bool
    ensures { result ≡ list_all (λ pair. fits names.now groups.now place pair.0 pair.1)
        (zip columns.now values.now) }
{
    columns.iter().zip(values).all(|(column, value)| fits(names, groups, place, *column, value))
}

/// Whether a rule has as many values as its mapping, and each fits.
#[tactic(auto, unfolding(crate::specs::Matches::applies))]
pub(crate) fn applies(
    names: &Names,
    groups: &Groups,
    mapping: &Mapping,
    lefts: &[Piece],
    rights: &[Piece],
) -> bool
    ensures { result ≡ applies names.now groups.now mapping.now lefts.now rights.now }
{
    lefts.len() == mapping.columns.len()
        && rights.len() == mapping.sections.len()
        && all_fit(
            names,
            groups,
            mapping.layout_place(),
            mapping.columns.as_slice(),
            lefts,
        )
}
