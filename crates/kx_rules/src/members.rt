//! Groups of names.
ghost use Rattle.std.specs.Prelude.{◌≡◌, IfOk, OnOk, [], filter_map, get_or, map, position, take, false};
ghost use Rattle.std.specs.List.{list_any};
ghost use Rattle.std.specs.Map.{keys_of, lookup};
ghost use Rattle.std.specs.Option.{option_map};
ghost use Rattle.std.specs.Str.{bytes_eq};
ghost use Rattle.kx_rules.specs.Matches.{group_of, has_text, is_member, members_of, with_group};
ghost use Rattle.kx_rules.specs.Uses.{options_at};

use crate::columns::{Column, Field};
use crate::limits::GREATEST_INDEX;
use crate::names::Names;
use kx_ordered::{Ordered, OwnedName};
use kx_rule_lines::{Piece, Word};
use std::alloc::{AllocError, Global};
use std::marker::Model;

/// Which of the names a group has.
#[derive(Drop)]
pub(crate) struct Members {
    model: bool,
    layouts: Vec<bool>,
    variants: Vec<bool>,
    /// The places of its options.
    options: Vec<usize>,
}

impl Model for Members {
    ghost use Rattle.kx_rules.specs.Matches.{Members};

    ghost Value = { Members };

    ghost view = { λ m. record { model = m.model; layouts = m.layouts.items; variants = m.variants.items; options = m.options.items } };
}

/// Whether a word is among the texts of pieces.
fn has_text(pieces: &[Piece], word: &[u8]) -> bool
    ensures { result ≡ has_text pieces.now word.now }
{
    pieces.iter().any(|piece| word == piece.text())
}

/// Which of the first words are among the texts of pieces.
fn which(alloc: Global, words: &[Word], pieces: &[Piece]) -> Result<Vec<bool>, AllocError>
    ensures { IfOk result (λ found.
        found.items ≡ map (has_text pieces.now) (take GREATEST_INDEX words.now)) }
{
    words
        .iter()
        .take(GREATEST_INDEX)
        .map(|word| has_text(pieces, word.as_slice()))
        .collect(alloc)
}

/// The places of options that are among the texts of pieces.
fn option_places(alloc: Global, names: &Names, pieces: &[Piece]) -> Result<Vec<usize>, AllocError>
    ensures { IfOk result (λ places. places.items
        ≡ filter_map (λ piece. position (bytes_eq piece.text) names.now.options) pieces.now) }
{
    pieces
        .iter()
        .filter_map(|piece| names.place_of_option(piece.text()))
        .collect(alloc)
}

#[tactic(auto, unfolding(crate::specs::Matches::members_of))]
fn members_of(alloc: Global, names: &Names, pieces: &[Piece]) -> Result<Members, AllocError>
    ensures { IfOk result (λ members. members ≡ members_of names.now pieces.now) }
{
    let layouts = which(alloc, names.layouts(), pieces)?;
    let variants = which(alloc, names.variants(), pieces)?;
    let options = option_places(alloc, names, pieces)?;
    Ok(Members {
        model: has_text(pieces, names.model()),
        layouts,
        variants,
        options,
    })
}

fn flag_at(flags: &[bool], place: usize) -> bool
    ensures { result ≡ get_or flags.now place false }
{
    match flags.get(place) {
        None => false,
        Some(flag) => *flag,
    }
}

impl Members {
    fn options(&self) -> &[usize]
        ensures { result.now ≡ self.now.options }
    {
        self.options.as_slice()
    }

    /// Whether a group has what a column is about.
    pub(crate) fn is_member(&self, place: usize, column: Column) -> bool
        ensures { result ≡ is_member place column self.now }
    {
        match column.field {
            Field::Model => self.model,
            Field::Layout => flag_at(self.layouts.as_slice(), place),
            Field::Variant => flag_at(self.variants.as_slice(), place),
            Field::Choice => !self.options.is_empty(),
        }
    }
}

/// Groups by name.
#[derive(Drop)]
pub(crate) struct Groups {
    groups: Ordered<OwnedName, Members>,
}

impl Model for Groups {
    ghost use Rattle.kx_rules.specs.Matches.{Groups};

    ghost Value = { Groups };

    ghost view = { λ g. g.groups.entries };
}

impl Groups {
    pub(crate) fn new(alloc: Global) -> Groups
        ensures { result ≡ [] }
    {
        Groups {
            groups: Ordered::new(alloc),
        }
    }

    /// Adds a group, unless there is one of its name.
    pub(crate) fn add(
        &mut self,
        alloc: Global,
        names: &Names,
        name: &[u8],
        pieces: &[Piece],
    ) -> Result<(), AllocError>
        ensures { OnOk result (self.new ≡
            with_group self.old name.now (members_of names.now pieces.now)) }
    {
        if self.groups.place_of_owned_name(name).is_some() {
            return Ok(());
        }
        let members = members_of(alloc, names, pieces)?;
        self.groups.insert(OwnedName::of(alloc, name)?, members)?;
        Ok(())
    }

    fn find(&self, name: &[u8]) -> Option<&Members>
        ensures { option_map (λ m. m.now) result ≡ lookup (bytes_eq name.now) self.now }
    {
        match self.groups.place_of_owned_name(name) {
            None => None,
            Some(place) => self.groups.value(place),
        }
    }

    /// The place of the group of a name.
    pub(crate) fn place_of(&self, name: &[u8]) -> Option<usize>
        ensures { result ≡ position (bytes_eq name.now) (keys_of self.now) }
    {
        self.groups.place_of_owned_name(name)
    }

    /// No mark for each group.
    pub(crate) fn no_marks(&self, alloc: Global) -> Result<Vec<bool>, AllocError>
        ensures { IfOk result (λ marks. marks.items ≡ map (λ _. false) self.now) }
    {
        self.groups.as_slice().iter().map(|_| false).collect(alloc)
    }

    /// The places of the options of the group at a place.
    pub(crate) fn options_at(&self, place: usize) -> &[usize]
        ensures { result.now ≡ options_at self.now place }
    {
        match self.groups.value(place) {
            None => &[],
            Some(members) => members.options(),
        }
    }

    /// Whether the group of a name has what a column is about.
    #[tactic(auto, using(crate::proofs::Keyed::nobody_is))]
    pub(crate) fn is_member(&self, name: &[u8], place: usize, column: Column) -> bool
        ensures { result ≡ is_member place column (group_of self.now name.now) }
    {
        match self.find(name) {
            None => false,
            Some(members) => members.is_member(place, column),
        }
    }
}
