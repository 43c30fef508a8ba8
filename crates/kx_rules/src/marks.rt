//! Which items no rule takes: those that are taken are marked, each at its place.
ghost use Rattle.std.specs.Prelude.{◌≡◌, ◌&&◌, IfOk, [], ◌∷◌, false, get_or, map, length, nat_le, not};
ghost use Rattle.std.specs.List.{list_any};
ghost use Rattle.kx_rules.specs.Mappings.{is_field};
ghost use Rattle.kx_rules.specs.Marks.{is_all, mark, mark_all, mark_some, marked, place_in, unmarked, with_groups};
ghost use Rattle.kx_rules.specs.Uses.{left};
ghost use Rattle.kx_rules.specs.declared.columns.Field.TheVariants.{Choice, Model as ModelField};

use crate::columns::{Field, is_field};
use crate::members::Groups;
use crate::names::Names;
use crate::passed::Passed;
use crate::uses::Use;
use kx_rule_lines::Word;
use std::alloc::{AllocError, Global};

/// What is marked.
#[derive(Clone, Copy)]
pub(crate) enum Subject {
    /// The items of a field.
    Items(Field),
    /// The groups whose options are taken.
    Groups,
}

/// The place of what a use takes, where it takes one of these.
fn place_in(subject: Subject, found: Use) -> Option<usize>
    ensures { result ≡ place_in subject found }
{
    match subject {
        Subject::Items(field) => match found {
            Use::Named(other, place) => {
                if is_field(field, other) {
                    Some(place)
                } else {
                    None
                }
            }
            Use::AllOptions => None,
            Use::Grouped(_) => None,
        },
        Subject::Groups => match found {
            Use::Named(_, _) => None,
            Use::AllOptions => None,
            Use::Grouped(place) => Some(place),
        },
    }
}

fn is_all(found: Use) -> bool
    ensures { result ≡ is_all found }
{
    match found {
        Use::AllOptions => true,
        Use::Named(_, _) => false,
        Use::Grouped(_) => false,
    }
}

#[tactic(auto, unfolding(crate::specs::Marks::mark))]
fn mark(marks: &mut Vec<bool>, place: usize)
    ensures { marks.new.items ≡ mark place marks.old.items }
{
    if place < marks.len() {
        marks[place] = true;
    }
}

fn mark_some(marks: &mut Vec<bool>, place: Option<usize>)
    ensures { marks.new.items ≡ mark_some place marks.old.items }
{
    match place {
        None => {}
        Some(place) => mark(marks, place),
    }
}

fn mark_all(marks: &mut Vec<bool>, places: &[usize])
    ensures { marks.new.items ≡ mark_all places.now marks.old.items }
{
    'places: for place in places {
        mark(marks, *place);
    }
}

/// Marks what uses take.
fn mark_uses(marks: &mut Vec<bool>, subject: Subject, uses: &[Use])
    ensures { marks.new.items ≡ marked subject uses.now marks.old.items }
{
    'uses: for found in uses {
        mark_some(marks, place_in(subject, *found));
    }
}

/// Marks the options of groups that are marked.
fn mark_groups(marks: &mut Vec<bool>, groups: &Groups, flags: &[bool])
    ensures { marks.new.items ≡ with_groups groups.now 0 flags.now marks.old.items }
{
    'flags: for (place, flag) in flags.iter().enumerate() {
        if *flag {
            mark_all(marks, groups.options_at(place));
        }
    }
}

fn is_marked(marks: &[bool], place: usize) -> bool
    ensures { result ≡ get_or marks.now place false }
{
    match marks.get(place) {
        None => false,
        Some(mark) => *mark,
    }
}

/// Whether a word has bytes and its place no mark.
pub(crate) fn is_left(marks: &[bool], place: usize, word: &[u8]) -> bool
    ensures { result ≡ (nat_le 1 (length word.now) && not (get_or marks.now place false)) }
{
    !word.is_empty() && !is_marked(marks, place)
}

fn places_left(alloc: Global, words: &[Word], marks: &[bool]) -> Result<Vec<usize>, AllocError>
    ensures { IfOk result (λ places.
        places.items ≡ map (λ e. e.0) (unmarked marks.now words.now)) }
{
    words
        .iter()
        .enumerate()
        .filter(|entry| is_left(marks, entry.0, entry.1.as_slice()))
        .map(|entry| entry.0)
        .collect(alloc)
}

fn no_marks(alloc: Global, words: &[Word]) -> Result<Vec<bool>, AllocError>
    ensures { IfOk result (λ marks. marks.items ≡ map (λ _. false) words.now) }
{
    words.iter().map(|_| false).collect(alloc)
}

/// The places of items that no rule takes. Of options it knows nothing.
pub(crate) fn items_left(
    alloc: Global,
    groups: &Groups,
    uses: &[Use],
    field: Field,
    words: &[Word],
) -> Result<Vec<usize>, AllocError>
    requires { is_field field Choice ≡ false }
    ensures { IfOk result (λ places.
        places.items ≡ map (λ e. e.0) (left groups.now uses.now field words.now)) }
{
    let mut marks = no_marks(alloc, words)?;
    mark_uses(&mut marks, Subject::Items(field), uses);
    let places = places_left(alloc, words, marks.as_slice())?;
    Ok(places)
}

/// Whether there is a model and no rule takes it.
pub(crate) fn is_model_left(
    alloc: Global,
    groups: &Groups,
    uses: &[Use],
    names: &Names,
) -> Result<bool, AllocError>
    ensures { IfOk result (λ is_left. is_left
        ≡ nat_le 1 (length (left groups.now uses.now ModelField (names.now.model ∷ [])))) }
{
    let words = [Word::of(names.model())];
    let places = items_left(alloc, groups, uses, Field::Model, &words)?;
    Ok(!places.is_empty())
}

fn has_all(uses: &[Use]) -> bool
    ensures { result ≡ list_any is_all uses.now }
{
    uses.iter().any(|found| is_all(*found))
}

/// The marks of the options that rules take by themselves or by groups.
fn option_marks(
    alloc: Global,
    groups: &Groups,
    uses: &[Use],
    names: &Names,
) -> Result<Vec<bool>, AllocError>
    requires { list_any is_all uses.now ≡ false }
    ensures { IfOk result (λ marks. unmarked marks.items names.now.options
        ≡ left groups.now uses.now Choice names.now.options) }
{
    let mut marks = names.no_options(alloc)?;
    mark_uses(&mut marks, Subject::Items(Field::Choice), uses);
    let mut flags = groups.no_marks(alloc)?;
    mark_uses(&mut flags, Subject::Groups, uses);
    mark_groups(&mut marks, groups, flags.as_slice());
    Ok(marks)
}

/// The options that no rule takes.
pub(crate) fn options_left(
    alloc: Global,
    groups: &Groups,
    uses: &[Use],
    names: &Names,
) -> Result<Vec<Vec<u8>>, AllocError>
    ensures { IfOk result (λ options. map (λ o. o.items) options.items
        ≡ map (λ e. e.1) (left groups.now uses.now Choice names.now.options)) }
{
    if has_all(uses) {
        return Ok(Vec::new(alloc));
    }
    let marks = option_marks(alloc, groups, uses, names)?;
    let options = names.options_without(alloc, marks.as_slice())?;
    Ok(options)
}
