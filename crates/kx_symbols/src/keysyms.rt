//! The keysyms that symbols stand for.
ghost use Rattle.std.specs.Prelude.{◌≡◌, true, ◌+◌, ◌<◌, ◌≤◌, ◌++◌, ◌∷◌, [], List, All, IfOk, IfSome, OnOk, length};
ghost use Rattle.std.specs.List.{flat_map};
ghost use Rattle.ks_core.specs.Names.{is_written_back};
ghost use Rattle.kx_symbols.specs.KeyFaults.{count_faults, element_faults, elements_faults, part_faults, symbol_faults};
ghost use Rattle.kx_basics.specs.Keysyms.{IsKeysym};
ghost use Rattle.kx_symbols.specs.Keysyms.{element_level, given, keysym_of_text, levels_of, part_keysyms, symbol_keysym, word_keysym};
ghost use Rattle.kx_merge.specs.Reports.{ReportsOrRunsOut};

use arrayvec::ArrayVec;
use ks_core::{NameTable, Note, Notes};
use kx_basics::{GREATEST_KEYSYM, MOST_KEYSYMS, number_keysym};
use kx_key_lists::{LevelValue, Levels};
use kx_lex::{At, Fault};
use kx_parse::{BracePart, Element, List as Listed, Symbol};
use std::alloc::{AllocError, Global};
use std::marker::Model;
use std::slice;

/// The keysym of `None` and `VoidSymbol`.
const VOID: u32 = 0xff_ffff;

/// Keysyms that stand in braces, eight at most.
#[derive(Drop)]
pub struct BracedKeysyms {
    numbers: ArrayVec<u32, MOST_KEYSYMS>,
}

impl Model for BracedKeysyms {
    ghost use Rattle.std.specs.Prelude.{All, List, ℕ};
    ghost use Rattle.kx_basics.specs.Keysyms.{IsKeysym};

    ghost Value = { List ℕ };

    ghost view = { λ k. k.numbers.items };

    ghost invariant = { λ k. All IsKeysym k.numbers.items };
}

impl BracedKeysyms {
    fn none() -> BracedKeysyms
        ensures { result ≡ [] }
    {
        BracedKeysyms {
            numbers: ArrayVec::new(),
        }
    }

    fn push(&mut self, keysym: u32)
        requires room { length self.old < 8 }
        requires keysym { IsKeysym keysym }
        ensures { self.new ≡ self.old ++ keysym ∷ [] }
    {
        self.numbers.push(keysym);
    }

    /// The keysyms in order, by their numbers.
    fn as_slice(&self) -> &[u32]
        ensures value { result.now ≡ self.now }
        ensures few { length result.now ≤ 8 }
        ensures each { All IsKeysym result.now }
    {
        self.numbers.as_slice()
    }

    fn try_clone(&self) -> Result<BracedKeysyms, AllocError>
        ensures { IfOk result (λ copy. copy ≡ self.now) }
    {
        Ok(BracedKeysyms {
            numbers: self.numbers.clone()?,
        })
    }
}

/// Most levels have one keysym, which takes no allocation.
#[derive(Drop)]
enum KeptKeysyms {
    One(u32),
    Several(Box<BracedKeysyms>),
}

/// The keysyms of a level, one to eight.
#[derive(Drop)]
pub struct Keysyms {
    kept: KeptKeysyms,
}

impl Model for Keysyms {
    ghost use Rattle.std.specs.Prelude.{All, List, ℕ};
    ghost use Rattle.kx_basics.specs.Keysyms.{IsKeysym};
    ghost use Rattle.kx_symbols.specs.Kept.{kept_keysyms};

    ghost Value = { List ℕ };

    ghost view = { λ k. kept_keysyms k.kept };

    ghost invariant = { λ k. All IsKeysym (kept_keysyms k.kept) };
}

impl LevelValue for Keysyms {
    fn try_clone(&self) -> Result<Keysyms, AllocError> {
        let kept = match &self.kept {
            KeptKeysyms::One(keysym) => KeptKeysyms::One(*keysym),
            KeptKeysyms::Several(keysyms) => {
                KeptKeysyms::Several(Box::new(*Box::allocator(keysyms), keysyms.try_clone()?)?)
            }
        };
        Ok(Keysyms { kept })
    }
}

impl Keysyms {
    fn one(keysym: u32) -> Keysyms
        requires { IsKeysym keysym }
        ensures { result ≡ keysym ∷ [] }
    {
        Keysyms {
            kept: KeptKeysyms::One(keysym),
        }
    }

    /// The keysyms of braces, where there is one.
    fn of_braces(alloc: Global, keysyms: BracedKeysyms) -> Result<Option<Keysyms>, AllocError>
        ensures { IfOk result (λ level. level ≡ given keysyms) }
    {
        match keysyms.as_slice() {
            [] => Ok(None),
            [keysym] => Ok(Some(Keysyms::one(*keysym))),
            _ => Ok(Some(Keysyms {
                kept: KeptKeysyms::Several(Box::new(alloc, keysyms)?),
            })),
        }
    }

    /// The keysyms in order, by their numbers.
    pub fn as_slice(&self) -> &[u32]
        ensures value { result.now ≡ self.now }
        ensures few { length result.now ≤ 8 }
        ensures each { All IsKeysym result.now }
    {
        match &self.kept {
            KeptKeysyms::One(keysym) => slice::from_ref(keysym),
            KeptKeysyms::Several(keysyms) => keysyms.as_slice(),
        }
    }
}

/// The keysym of a word; none where it says so, or where no keysym has the name, which is noted.
#[inline(always)]
fn word_keysym(names: &NameTable, word: &[u8], notes: &mut Notes) -> Option<u32>
    ensures value { result ≡ word_keysym names.now word.now }
    ensures within { IfSome result IsKeysym }
{
    if word.eq_ignore_ascii_case(b"any") || word.eq_ignore_ascii_case(b"nosymbol") {
        return None;
    }
    if word.eq_ignore_ascii_case(b"none") || word.eq_ignore_ascii_case(b"voidsymbol") {
        return Some(VOID);
    }
    let keysym = keysym_of_text(names, word);
    if keysym.is_none() {
        notes.count(Note::UnknownKeysym);
    }
    keysym.filter(|number| *number != 0)
}

/// The keysym of a word that is text.
fn keysym_of_text(names: &NameTable, word: &[u8]) -> Option<u32>
    ensures value { result ≡ keysym_of_text names.now word.now }
    ensures within { IfSome result (λ keysym. is_written_back keysym ≡ true) }
{
    match names.by_bytes(word) {
        Some(keysym) => Some(keysym.0),
        None => None,
    }
}

/// The keysym that a symbol of a file stands for, as lists of keysyms have it: none where it says so, or where no keysym
/// has the name, which is noted.
///
/// # Errors
/// `BadValue` at a number above the greatest keysym.
#[inline(always)]
pub fn symbol_keysym(
    names: &NameTable,
    file: u32,
    symbol: &Symbol,
    notes: &mut Notes,
) -> Result<Option<u32>, Fault>
    ensures value { IfOk result (λ keysym. keysym ≡ symbol_keysym names.now symbol.now) }
    ensures within { IfOk result (λ keysym. IfSome keysym IsKeysym) }
    ensures faults { ReportsOrRunsOut result (symbol_faults file symbol.now) }
{
    match symbol {
        Symbol::Word(word) => Ok(word_keysym(names, word.bytes.as_slice(), notes)),
        Symbol::Number(number) => {
            if number.value > GREATEST_KEYSYM {
                return Err(Fault::BadValue(At {
                    file,
                    span: number.span,
                }));
            }
            Ok(Some(number_keysym(number.value)))
        }
    }
}

/// Adds what a part of a level gives.
fn add_part(
    names: &NameTable,
    whole: At,
    part: &BracePart,
    keysyms: &mut BracedKeysyms,
    notes: &mut Notes,
) -> Result<(), Fault>
    requires { length keysyms.old < 8 }
    ensures value { OnOk result (keysyms.new ≡ keysyms.old ++ part_keysyms names.now part.now) }
    ensures few { OnOk result (length keysyms.new ≤ length keysyms.old + 1) }
    ensures faults { ReportsOrRunsOut result (part_faults whole.file part.now) }
{
    match part {
        BracePart::Symbol(symbol) => {
            if let Some(keysym) = symbol_keysym(names, whole.file, symbol, notes)? {
                keysyms.push(keysym);
            }
            Ok(())
        }
        BracePart::Call(call) => Err(Fault::BadValue(At {
            span: call.span,
            ..whole
        })),
    }
}

/// The keysyms of a level in braces.
fn braces_keysyms(
    names: &NameTable,
    whole: At,
    parts: &[BracePart],
    notes: &mut Notes,
) -> Result<BracedKeysyms, Fault>
    ensures value { IfOk result (λ keysyms. keysyms ≡ flat_map (part_keysyms names.now) parts.now) }
    ensures faults { ReportsOrRunsOut result
        (count_faults whole.file whole.span parts.now
        ++ flat_map (part_faults whole.file) parts.now) }
{
    let mut keysyms = BracedKeysyms::none();
    if parts.len() > MOST_KEYSYMS {
        return Err(Fault::TooMany(whole));
    }
    'parts: for part in parts {
        add_part(names, whole, part, &mut keysyms, notes)?;
    }
    Ok(keysyms)
}

/// What an element of a list gives its level.
fn element_level(
    alloc: Global,
    names: &NameTable,
    whole: At,
    element: &Element,
    notes: &mut Notes,
) -> Result<Option<Keysyms>, Fault>
    ensures value { IfOk result (λ level. level ≡ element_level names.now element.now) }
    ensures faults { ReportsOrRunsOut result (element_faults whole.file whole.span element.now) }
{
    match element {
        Element::Symbol(symbol) => match symbol_keysym(names, whole.file, symbol, notes)? {
            None => Ok(None),
            Some(keysym) => Ok(Some(Keysyms::one(keysym))),
        },
        Element::Call(call) => Err(Fault::BadValue(At {
            span: call.get().span,
            ..whole
        })),
        Element::Braces(braces) => {
            let keysyms = braces_keysyms(names, whole, braces.parts.as_slice(), notes)?;
            Ok(Keysyms::of_braces(alloc, keysyms)?)
        }
    }
}

/// The keysyms of a list by level.
pub(crate) fn read_levels(
    alloc: Global,
    names: &NameTable,
    whole: At,
    list: &Listed,
    notes: &mut Notes,
) -> Result<Levels<Keysyms>, Fault>
    ensures value { IfOk result (λ levels. levels ≡ levels_of names.now list.now) }
    ensures faults { ReportsOrRunsOut result (elements_faults whole.file whole.span list.now) }
{
    let elements = list.elements.as_slice();
    let mut levels = Vec::with_capacity(alloc, elements.len())?;
    'elements: for element in elements {
        levels.push(element_level(alloc, names, whole, element, notes)?)?;
    }
    Ok(Levels::of(levels))
}
