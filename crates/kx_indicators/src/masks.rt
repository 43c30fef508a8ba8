//! The masks that fields of indicators name.
ghost use Rattle.std.specs.Prelude.{◌≡◌, ◌<◌, ◌^◌, Contains, IfOk, IfSome, Some, fold, is_some};
ghost use Rattle.std.specs.List.{flat_map};
ghost use Rattle.std.specs.Option.{option_and_then};
ghost use Rattle.kx_merge.specs.Numbers.{word_number};
ghost use Rattle.kx_merge.specs.declared.numbers.Counted.TheVariants.{Group};
ghost use Rattle.kx_virtual_mods.specs.Masks.{joined};
ghost use Rattle.kx_indicators.specs.declared.masks.MaskKind.TheVariants.{Groups, States};
ghost use Rattle.kx_indicators.specs.IndicatorMapMasks.{group_bit, group_in, mask_faults, mask_of, named_group, number_mask, operated, operation_faults, other_faults, term_faults, term_mask, width, word_mask, words};
ghost use Rattle.kx_merge.specs.Words.{among};
ghost use Rattle.kx_merge.specs.Terms.{term_span};
ghost use Rattle.kx_merge.specs.Reports.{Reports};

use kx_lex::{At, Fault, Span};
use kx_merge::Counted;
use kx_parse::{Expression, Operation, Sign, Term};

/// What a mask is of.
#[derive(Clone, Copy)]
pub(crate) enum MaskKind {
    States,
    Groups,
}

fn state_named(word: &[u8]) -> Option<u32>
    ensures value { result ≡ among (words States) word.now }
    ensures within { IfSome result (λ mask. mask < 16) }
{
    if word.eq_ignore_ascii_case(b"none") {
        Some(0)
    } else if word.eq_ignore_ascii_case(b"base") {
        Some(1)
    } else if word.eq_ignore_ascii_case(b"latched") {
        Some(2)
    } else if word.eq_ignore_ascii_case(b"locked") {
        Some(4)
    } else if word.eq_ignore_ascii_case(b"effective") {
        Some(8)
    } else if word.eq_ignore_ascii_case(b"any") {
        Some(8)
    } else if word.eq_ignore_ascii_case(b"compat") {
        Some(8)
    } else {
        None
    }
}

/// The bit of a group that is counted from 1.
fn group_bit(number: u64) -> Option<u32>
    ensures { result ≡ group_bit number }
{
    if Counted::Group.has(number) {
        let group = (number - 1) as u32;
        Some(1 << group)
    } else {
        None
    }
}

/// The groups of a word for a group.
fn one_group(word: &[u8]) -> Option<u32>
    ensures { result ≡ option_and_then group_bit (word_number Group word.now) }
{
    match Counted::Group.in_word(word) {
        Some(number) => group_bit(number),
        None => None,
    }
}

fn groups_named(word: &[u8]) -> Option<u32>
    ensures { result ≡ word_mask Groups word.now }
{
    if word.eq_ignore_ascii_case(b"none") {
        Some(0)
    } else if word.eq_ignore_ascii_case(b"all") {
        Some(u32::MAX)
    } else {
        one_group(word)
    }
}

impl MaskKind {
    ghost use Rattle.std.specs.Prelude.{◌≡◌, ◌<◌, ◌^◌, IfSome, is_some};
    ghost use Rattle.kx_indicators.specs.IndicatorMapMasks.{named_group, number_mask, term_mask, width, word_mask};

    /// The mask that a word stands for.
    fn word_mask(self, word: &[u8]) -> Option<u32>
        ensures value { result ≡ word_mask self word.now }
        ensures within { IfSome result (λ mask. mask < 2 ^ width self) }
    {
        match self {
            MaskKind::States => state_named(word),
            MaskKind::Groups => groups_named(word),
        }
    }

    /// The mask of a number.
    fn number_mask(self, number: u32) -> Option<u32>
        ensures value { result ≡ number_mask self number }
        ensures within { IfSome result (λ mask. mask < 2 ^ width self) }
    {
        match self {
            MaskKind::States => None,
            MaskKind::Groups => Some(number),
        }
    }

    /// The mask that a term names.
    fn term_mask(self, term: &Term) -> Option<u32>
        ensures value { result ≡ term_mask self term.now }
        ensures within { IfSome result (λ mask. mask < 2 ^ width self) }
    {
        match term {
            Term::Number(number) => self.number_mask(number.value),
            Term::Word(word) => self.word_mask(word.bytes.as_slice()),
            Term::Signed(_) => None,
            Term::Text(_) => None,
            Term::KeyName(_) => None,
        }
    }

    /// Whether a word is one for a group.
    fn names_group(self, word: &[u8]) -> bool
        ensures { result ≡ is_some (named_group self word.now) }
    {
        match self {
            MaskKind::States => false,
            MaskKind::Groups => Counted::Group.in_word(word).is_some(),
        }
    }
}

fn term_span(term: &Term) -> Span
    ensures { result ≡ term_span term.now }
{
    match term {
        Term::Number(number) => number.span,
        Term::Signed(signed) => signed.span,
        Term::Word(word) => word.span,
        Term::Text(text) => text.span,
        Term::KeyName(name) => name.span(),
    }
}

/// Whether a term is a word for a group.
fn is_group_word(kind: MaskKind, term: &Term) -> bool
    ensures { result ≡ is_some (group_in kind term.now) }
{
    match term {
        Term::Word(word) => kind.names_group(word.bytes.as_slice()),
        Term::Number(_) => false,
        Term::Signed(_) => false,
        Term::Text(_) => false,
        Term::KeyName(_) => false,
    }
}

/// The fault of a term without a mask.
fn term_fault(kind: MaskKind, file: u32, term: &Term) -> Fault
    ensures { Contains (other_faults file (term_span term.now) (group_in kind term.now)) result }
{
    let at = At {
        file,
        span: term_span(term),
    };
    if is_group_word(kind, term) {
        Fault::GroupRange(at)
    } else {
        Fault::BadValue(at)
    }
}

fn read_term(kind: MaskKind, file: u32, term: &Term) -> Result<u32, Fault>
    ensures value { IfOk result (λ mask. Some mask ≡ term_mask kind term.now) }
    ensures within { IfOk result (λ mask. mask < 2 ^ width kind) }
    ensures faults { Reports result (term_faults file kind term.now) }
{
    match kind.term_mask(term) {
        Some(mask) => Ok(mask),
        None => Err(term_fault(kind, file, term)),
    }
}

fn joined(sign: Sign, mask: u32, other: u32) -> u32
    ensures { result ≡ joined sign mask other }
{
    match sign {
        Sign::Plus => mask | other,
        Sign::Minus => mask & !other,
    }
}

/// The mask that terms leave after another.
fn read_operations(
    kind: MaskKind,
    file: u32,
    before: u32,
    operations: &[Operation],
) -> Result<u32, Fault>
    requires { before < 2 ^ width kind }
    ensures value { IfOk result (λ mask. mask ≡ fold (operated kind) before operations.now) }
    ensures within { IfOk result (λ mask. mask < 2 ^ width kind) }
    ensures faults { Reports result (flat_map (operation_faults file kind) operations.now) }
{
    let mut mask = before;
    'operations: for operation in operations {
        let other = read_term(kind, file, &operation.term)?;
        mask = joined(operation.sign, mask, other);
    }
    Ok(mask)
}

/// The mask that an expression names.
pub(crate) fn read_mask(kind: MaskKind, file: u32, expression: &Expression) -> Result<u32, Fault>
    ensures value { IfOk result (λ mask. mask ≡ mask_of kind expression.now) }
    ensures within { IfOk result (λ mask. mask < 2 ^ width kind) }
    ensures faults { Reports result (mask_faults file kind expression.now) }
{
    let first = read_term(kind, file, &expression.first)?;
    read_operations(kind, file, first, expression.rest.as_slice())
}
