//! Values that stand in a row.
ghost use Rattle.std.specs.Prelude.{◌≡◌, ◌<◌, ℕ, List, Bool, length, suc, [], IfOk};
ghost use Rattle.kx_lex.specs.declared.token.Token.{Token as TokenValue};
ghost use Rattle.kx_lex.specs.Gives.{Gives};
ghost use Rattle.kx_lex.specs.Parsing.{Read, many_read};
ghost use Rattle.kx_lex.specs.Kinds.{front, is_mark, before_mark};
ghost use Rattle.kx_lex.specs.Tokens.{mark, comma};
ghost use Rattle.kx_lex.specs.Lists.{put_before, after_comma_read, sequence_read, listed_read};

use crate::fault::Fault;
use crate::name::{Row, SmallRow};
use crate::token::Token;
use crate::tokens::{Parsed, front_is_mark, is_mark, read_mark};
use std::alloc::Global;
use std::marker::PhantomData;

/// Something that stands many times in a row.
pub trait Repeated {
    /// What is read of each.
    type Value: Drop;

    ghost test: { List ℕ → List TokenValue → Bool };

    ghost reading: { List ℕ → List TokenValue → Read Self.Value };

    /// Whether the tokens begin one more.
    fn is_next(text: &[u8], tokens: &[Token]) -> bool
        ensures { result ≡ test text.now tokens.now };

    /// Reads one more, which takes a token at least.
    ///
    /// # Errors
    /// The fault of what may not stand there, and [`Fault::Memory`] where a growth is refused.
    fn read_next<'a>(alloc: Global, text: &[u8], tokens: &'a [Token]) -> Parsed<'a, Self::Value>
        ensures read { Gives result (reading text.now tokens.now) }
        ensures shorter { IfOk result (λ r. length r.1.now < length tokens.now) };
}

/// Reads as many as stand at the front, after those that were read already.
fn read_behind<'a, R: Repeated>(
    start: Vec<R::Value>,
    alloc: Global,
    text: &[u8],
    tokens: &'a [Token],
) -> Parsed<'a, Row<R::Value>>
    ensures { Gives result (put_before start.items
        (many_read (R.test text.now) (R.reading text.now) (suc (length tokens.now)) tokens.now)) }
{
    let mut items = start;
    let mut rest = tokens;
    'items: while R::is_next(text, rest) {
        let (item, left) = R::read_next(alloc, text, rest)?;
        items.push(item)?;
        rest = left;
    }
    Ok((Row::of(items), rest))
}

/// Reads as many as stand at the front.
///
/// # Errors
/// The fault of the first that cannot be read, and [`Fault::Memory`] where a growth is refused.
#[tactic(auto, using(crate::proofs::Rounds::read_lists))]
pub fn read_many<'a, R: Repeated>(
    alloc: Global,
    text: &[u8],
    tokens: &'a [Token],
) -> Parsed<'a, Row<R::Value>>
    ensures { Gives result (many_read (R.test text.now) (R.reading text.now)
        (suc (length tokens.now)) tokens.now) }
{
    read_behind::<R>(Vec::new(alloc), alloc, text, tokens)
}

/// Reads what [`read_many`] reads, into a list that has room for so many.
///
/// # Errors
/// Those of [`read_many`].
#[tactic(auto, using(crate::proofs::Rounds::read_lists))]
pub fn read_many_in_room<'a, R: Repeated>(
    alloc: Global,
    text: &[u8],
    room: usize,
    tokens: &'a [Token],
) -> Parsed<'a, Row<R::Value>>
    ensures { Gives result (many_read (R.test text.now) (R.reading text.now)
        (suc (length tokens.now)) tokens.now) }
{
    let items = Vec::with_capacity(alloc, room)?;
    read_behind::<R>(items, alloc, text, tokens)
}

/// A comma, and one more of what `R` reads.
struct AfterComma<R>(PhantomData<R>);

impl<R: Repeated> Repeated for AfterComma<R> {
    type Value = R::Value;

    ghost test = { λ text ts. front (is_mark comma) ts };

    ghost reading = { λ text. after_comma_read text (R.reading text) };

    fn is_next(text: &[u8], tokens: &[Token]) -> bool {
        front_is_mark(b',', tokens)
    }

    #[inline(always)]
    fn read_next<'a>(alloc: Global, text: &[u8], tokens: &'a [Token]) -> Parsed<'a, R::Value> {
        let (_, rest) = read_mark(text, b',', tokens)?;
        R::read_next(alloc, text, rest)
    }
}

/// Reads one, and more after commas, into a list without items.
#[tactic(auto, using(crate::proofs::Rounds::read_lists))]
fn read_sequence_into<'a, R: Repeated>(
    start: Vec<R::Value>,
    alloc: Global,
    text: &[u8],
    tokens: &'a [Token],
) -> Parsed<'a, Row<R::Value>>
    requires { start.items ≡ [] }
    ensures { Gives result (sequence_read text.now (R.reading text.now) tokens.now) }
{
    let mut items = start;
    let (first, rest) = R::read_next(alloc, text, tokens)?;
    items.push(first)?;
    read_behind::<AfterComma<R>>(items, alloc, text, rest)
}

/// Reads one, and more after commas.
///
/// # Errors
/// The fault of the first that cannot be read, and [`Fault::Memory`] where a growth is refused.
pub fn read_sequence<'a, R: Repeated>(
    alloc: Global,
    text: &[u8],
    tokens: &'a [Token],
) -> Parsed<'a, Row<R::Value>>
    ensures { Gives result (sequence_read text.now (R.reading text.now) tokens.now) }
{
    read_sequence_into::<R>(Vec::new(alloc), alloc, text, tokens)
}

/// Room for what stands in a list that this mark closes: one more than there are commas before the
/// first such mark. A list in which the mark also stands further in may want more, and grows.
fn room_before(close: u8, tokens: &[Token]) -> usize {
    let listed = tokens.iter().take_while(|token| !is_mark(close, token));
    let commas = listed.filter(|token| is_mark(b',', token)).count();
    commas.saturating_add(1)
}

/// Reads none at the end or where the mark stands that closes the list, by its byte; else one, and
/// more after commas.
///
/// # Errors
/// The fault of the first that cannot be read, and [`Fault::Memory`] where a growth is refused.
pub fn read_listed<'a, R: Repeated>(
    alloc: Global,
    text: &[u8],
    close: u8,
    tokens: &'a [Token],
) -> Parsed<'a, Row<R::Value>>
    ensures { Gives result (listed_read text.now close (R.reading text.now) tokens.now) }
{
    if !is_before_mark(close, tokens) {
        return Ok((Row::of(Vec::new(alloc)), tokens));
    }
    let items = Vec::with_capacity(alloc, room_before(close, tokens))?;
    read_sequence_into::<R>(items, alloc, text, tokens)
}

/// Reads one, and more after commas; one alone takes no allocation.
#[tactic(auto, using(crate::proofs::Rounds::read_lists))]
fn read_small_sequence<'a, R: Repeated>(
    alloc: Global,
    text: &[u8],
    tokens: &'a [Token],
) -> Parsed<'a, SmallRow<R::Value>>
    ensures { Gives result (sequence_read text.now (R.reading text.now) tokens.now) }
{
    let (first, rest) = R::read_next(alloc, text, tokens)?;
    if !front_is_mark(b',', rest) {
        return Ok((SmallRow::one(first), rest));
    }
    let mut items = Vec::new(alloc);
    items.push(first)?;
    let (row, rest) = read_behind::<AfterComma<R>>(items, alloc, text, rest)?;
    Ok((SmallRow::of(row), rest))
}

/// Reads what [`read_listed`] reads, where most lists have one item.
///
/// # Errors
/// Those of [`read_listed`].
pub fn read_small_list<'a, R: Repeated>(
    alloc: Global,
    text: &[u8],
    close: u8,
    tokens: &'a [Token],
) -> Parsed<'a, SmallRow<R::Value>>
    ensures { Gives result (listed_read text.now close (R.reading text.now) tokens.now) }
{
    if !is_before_mark(close, tokens) {
        return Ok((SmallRow::of(Row::of(Vec::new(alloc))), tokens));
    }
    read_small_sequence::<R>(alloc, text, tokens)
}

/// Whether a token stands at the front that is not the mark of this byte.
#[inline(always)]
pub fn is_before_mark(byte: u8, tokens: &[Token]) -> bool
    ensures { result ≡ before_mark byte tokens.now }
{
    match tokens.first() {
        Some(token) => !is_mark(byte, token),
        None => false,
    }
}
