//! What a keymap is asked for by.
ghost use Rattle.std.specs.Prelude.{◌≡◌, ◌≤◌, ◌<◌, ◌∷◌, [], IfOk, IfSome, OnOk, false, get_or, length, map, position, reverse};
ghost use Rattle.std.specs.Option.{option_map};
ghost use Rattle.std.specs.List.{list_all, prefix_len};
ghost use Rattle.std.specs.Str.{bytes_eq};
ghost use Rattle.kx_rules.specs.Marks.{unmarked};
ghost use Rattle.kx_rules.specs.Names.{are_short, has, is_short, is_space, item_len, items, items_behind, names_of, with_word, with_words, without_back, without_front};

use crate::limits::MOST_NAME_BYTES;
use crate::marks::is_left;
use kx_ordered::{Ordered, OwnedName};
use kx_rule_lines::Word;
use std::alloc::{AllocError, Global};
use std::marker::Model;

/// Words, each once.
#[derive(Drop)]
struct WordSet {
    words: Ordered<OwnedName, ()>,
}

impl Model for WordSet {
    ghost use Rattle.std.specs.Prelude.{ℕ, List, map};

    ghost Value = { List (List ℕ) };

    ghost view = { λ s. map (λ e. e.0) s.words.entries };
}

impl WordSet {
    fn new(alloc: Global) -> WordSet
        ensures { result ≡ [] }
    {
        WordSet {
            words: Ordered::new(alloc),
        }
    }

    fn add(&mut self, alloc: Global, word: &[u8]) -> Result<(), AllocError>
        ensures { OnOk result (self.new ≡ with_word self.old word.now) }
    {
        self.words.insert(OwnedName::of(alloc, word)?, ())?;
        Ok(())
    }

    /// The place of a word. Most sets have one, which is empty.
    fn place_of(&self, word: &[u8]) -> Option<usize>
        ensures { result ≡ position (bytes_eq word.now) self.now }
    {
        match self.words.as_slice() {
            [only] => {
                if word == only.0.as_slice() {
                    Some(0)
                } else {
                    None
                }
            }
            _ => self.words.place_of_owned_name(word),
        }
    }

    fn has(&self, word: &[u8]) -> bool
        ensures { result ≡ has self.now word.now }
    {
        self.place_of(word).is_some()
    }

    fn no_marks(&self, alloc: Global) -> Result<Vec<bool>, AllocError>
        ensures { IfOk result (λ marks. marks.items ≡ map (λ _. false) self.now) }
    {
        let marks = no_marks(alloc, self.words.as_slice())?;
        Ok(marks)
    }

    /// The words that have bytes and no mark.
    fn without(&self, alloc: Global, marks: &[bool]) -> Result<Vec<Vec<u8>>, AllocError>
        ensures { IfOk result (λ left. map (λ w. w.items) left.items
            ≡ map (λ e. e.1) (unmarked marks.now self.now)) }
    {
        words_left(alloc, self.words.as_slice(), marks)
    }
}

fn no_marks(alloc: Global, entries: &[(OwnedName, ())]) -> Result<Vec<bool>, AllocError>
    ensures { IfOk result (λ marks. marks.items ≡ map (λ _. false) entries.now) }
{
    entries.iter().map(|_| false).collect(alloc)
}

/// The words of entries that have bytes and no mark.
fn words_left(
    alloc: Global,
    entries: &[(OwnedName, ())],
    marks: &[bool],
) -> Result<Vec<Vec<u8>>, AllocError>
    ensures { IfOk result (λ left. map (λ w. w.items) left.items
        ≡ map (λ e. e.1) (unmarked marks.now (map (λ e. e.0) entries.now))) }
{
    let mut left = Vec::new(alloc);
    'entries: for (place, entry) in entries.iter().enumerate() {
        let word = entry.0.as_slice();
        if is_left(marks, place, word) {
            left.push(Vec::from_slice(alloc, word)?)?;
        }
    }
    Ok(left)
}

fn is_space(byte: u8) -> bool
    ensures { result ≡ is_space byte }
{
    byte == b' ' || (9 <= byte && byte <= 13)
}

fn front_len(text: &[u8]) -> usize
    ensures value { result ≡ prefix_len is_space text.now }
    ensures within { result ≤ length text.now }
{
    text.iter().take_while(|byte| is_space(**byte)).count()
}

fn back_len(text: &[u8]) -> usize
    ensures value { result ≡ prefix_len is_space (reverse text.now) }
    ensures within { result ≤ length text.now }
{
    text.iter()
        .rev()
        .take_while(|byte| is_space(**byte))
        .count()
}

fn without_front(text: &[u8]) -> &[u8]
    ensures { result.now ≡ without_front text.now }
{
    &text[front_len(text)..]
}

fn without_back(text: &[u8]) -> &[u8]
    ensures { result.now ≡ without_back text.now }
{
    &text[..text.len() - back_len(text)]
}

fn item_of(text: &[u8]) -> Word<'_>
    ensures { result ≡ without_back (without_front text.now) }
{
    Word::of(without_back(without_front(text)))
}

fn item_len(text: &[u8]) -> usize
    ensures value { result ≡ item_len text.now }
    ensures within { result ≤ length text.now }
{
    text.iter().take_while(|byte| **byte != b',').count()
}

/// The first item of a list, and the list of the others where a comma is after it.
#[tactic(auto, using(crate::proofs::Items::last_item, crate::proofs::Items::next_item))]
fn cut(text: &[u8]) -> (Word<'_>, Option<&[u8]>)
    ensures value { items text.now ≡ result.0 ∷ items_behind (option_map (λ t. t.now) result.1) }
    ensures shorter { IfSome result.1 (λ rest. length rest.now < length text.now) }
{
    let (front, behind) = text.split_at(item_len(text));
    let word = item_of(front);
    match behind.split_first() {
        None => (word, None),
        Some((_, rest)) => (word, Some(rest)),
    }
}

fn items(alloc: Global, text: &[u8]) -> Result<Vec<Word<'_>>, AllocError>
    ensures { IfOk result (λ words. words.items ≡ items text.now) }
{
    let mut words = Vec::new(alloc);
    let mut rest = text;
    'items: loop {
        let (word, behind) = cut(rest);
        words.push(word)?;
        match behind {
            None => return Ok(words),
            Some(left) => rest = left,
        }
    }
}

fn word_set(alloc: Global, words: &[Word]) -> Result<WordSet, AllocError>
    ensures { IfOk result (λ set. set ≡ with_words [] words.now) }
{
    let mut set = WordSet::new(alloc);
    for word in words {
        set.add(alloc, word.as_slice())?;
    }
    Ok(set)
}

/// A model, layouts, variants and options.
#[derive(Drop)]
pub struct Names<'a> {
    model: &'a [u8],
    layouts: Vec<Word<'a>>,
    variants: Vec<Word<'a>>,
    options: WordSet,
}

impl<'a> Model for Names<'a> {
    ghost use Rattle.kx_rules.specs.Names.{Names};

    ghost Value = { Names };

    ghost view = { λ n. record { model = n.model.now; layouts = n.layouts.items; variants = n.variants.items; options = n.options } };
}

impl<'a> Names<'a> {
    /// What is asked for by a model and by layouts, variants and options, which commas part.
    ///
    /// # Errors
    /// Where a growth is refused.
    #[tactic(auto, unfolding(crate::specs::Names::names_of))]
    pub fn of(
        alloc: Global,
        model: &'a [u8],
        layouts: &'a [u8],
        variants: &'a [u8],
        options: &[u8],
    ) -> Result<Names<'a>, AllocError>
        ensures { IfOk result (λ names.
            names ≡ names_of model.now layouts.now variants.now options.now) }
    {
        let layouts = items(alloc, layouts)?;
        let variants = items(alloc, variants)?;
        let options = items(alloc, options)?;
        let options = word_set(alloc, options.as_slice())?;
        Ok(Names {
            model,
            layouts,
            variants,
            options,
        })
    }

    pub(crate) fn model(&self) -> &'a [u8]
        ensures { result.now ≡ self.now.model }
    {
        self.model
    }

    pub(crate) fn layouts(&self) -> &[Word<'a>]
        ensures { result.now ≡ self.now.layouts }
    {
        self.layouts.as_slice()
    }

    pub(crate) fn variants(&self) -> &[Word<'a>]
        ensures { result.now ≡ self.now.variants }
    {
        self.variants.as_slice()
    }

    pub(crate) fn has_option(&self, word: &[u8]) -> bool
        ensures { result ≡ has self.now.options word.now }
    {
        self.options.has(word)
    }

    /// The place of an option, each counted once.
    pub(crate) fn place_of_option(&self, word: &[u8]) -> Option<usize>
        ensures { result ≡ position (bytes_eq word.now) self.now.options }
    {
        self.options.place_of(word)
    }

    /// A mark for each option, which none has yet.
    pub(crate) fn no_options(&self, alloc: Global) -> Result<Vec<bool>, AllocError>
        ensures { IfOk result (λ marks. marks.items ≡ map (λ _. false) self.now.options) }
    {
        self.options.no_marks(alloc)
    }

    /// The options that have bytes and no mark.
    pub(crate) fn options_without(
        &self,
        alloc: Global,
        marks: &[bool],
    ) -> Result<Vec<Vec<u8>>, AllocError>
        ensures { IfOk result (λ left. map (λ w. w.items) left.items
            ≡ map (λ e. e.1) (unmarked marks.now self.now.options)) }
    {
        self.options.without(alloc, marks)
    }

    /// The layout at a place, counted from 0.
    pub(crate) fn layout(&self, place: usize) -> &'a [u8]
        ensures { result.now ≡ get_or self.now.layouts place [] }
    {
        word_at(self.layouts.as_slice(), place)
    }

    /// The variant at a place, counted from 0.
    pub(crate) fn variant(&self, place: usize) -> &'a [u8]
        ensures { result.now ≡ get_or self.now.variants place [] }
    {
        word_at(self.variants.as_slice(), place)
    }

    /// Whether no name is too long.
    pub(crate) fn are_short(&self) -> bool
        ensures { result ≡ are_short self.now }
    {
        is_short(self.model)
            && all_short(self.layouts.as_slice())
            && all_short(self.variants.as_slice())
    }
}

/// The word at a place, counted from 0; no bytes where there is none.
fn word_at<'a>(words: &[Word<'a>], place: usize) -> &'a [u8]
    ensures { result.now ≡ get_or words.now place [] }
{
    match words.get(place) {
        None => b"",
        Some(word) => word.as_slice(),
    }
}

fn is_short(name: &[u8]) -> bool
    ensures { result ≡ is_short name.now }
{
    name.len() <= MOST_NAME_BYTES
}

fn all_short(words: &[Word]) -> bool
    ensures { result ≡ list_all is_short words.now }
{
    words.iter().all(|word| is_short(word.as_slice()))
}
