//! Reading expressions, calls and lists.
ghost use Rattle.std.specs.Prelude.{◌≡◌, true};
ghost use Rattle.kx_lex.specs.Gives.{Gives};
ghost use Rattle.kx_lex.specs.Kinds.{front};
ghost use Rattle.kx_tree.specs.Values.{symbol, sign_of, is_sign, sign, signed_read, term, operation, bare_argument, expression, optional_index, index, optional_member, place, begins_set, set_argument, off_argument, argument, begins_call, call, part, braces, element, list, value};

use crate::tree::{
    Argument, BracePart, Braces, Call, Element, Expression, FieldPlace, Index, List, Operation,
    PlacedArgument, Sign, Signed, Symbol, Term, Value,
};
use kx_lex::repeated::{Repeated, read_listed, read_many};
use kx_lex::tokens::{
    Parsed, behind_front, front_is_key_name, front_is_mark, front_is_number, front_is_text,
    front_is_word, is_mark, read_key_name, read_mark, read_number, read_text, read_word,
    span_between, syntax,
};
use kx_lex::{Boxed, Fault, Name, Token};
use std::alloc::Global;

/// Takes a keysym as it is written.
#[inline(always)]
#[tactic(auto, unfolding(crate::specs::Values::symbol))]
pub fn read_symbol<'a>(alloc: Global, text: &[u8], tokens: &'a [Token]) -> Parsed<'a, Symbol>
    ensures { Gives result ((symbol text.now).read tokens.now) }
{
    if front_is_number(tokens) {
        let (number, rest) = read_number(text, tokens)?;
        return Ok((Symbol::Number(number), rest));
    }
    let (word, rest) = read_word(alloc, text, tokens)?;
    Ok((Symbol::Word(word), rest))
}

fn sign_of(token: &Token) -> Option<Sign>
    ensures { result ≡ sign_of token.now }
{
    if is_mark(b'+', token) {
        Some(Sign::Plus)
    } else if is_mark(b'-', token) {
        Some(Sign::Minus)
    } else {
        None
    }
}

fn front_is_sign(tokens: &[Token]) -> bool
    ensures { result ≡ front is_sign tokens.now }
{
    match tokens.first() {
        Some(token) => is_mark(b'+', token) || is_mark(b'-', token),
        None => false,
    }
}

#[tactic(auto, unfolding(crate::specs::Values::sign))]
fn read_sign<'a>(text: &[u8], tokens: &'a [Token]) -> Parsed<'a, Sign>
    ensures { Gives result ((sign text.now).read tokens.now) }
{
    match tokens.split_first() {
        Some((token, rest)) => match sign_of(token) {
            Some(sign) => Ok((sign, rest)),
            None => Err(syntax(text, tokens)),
        },
        None => Err(syntax(text, tokens)),
    }
}

fn read_signed<'a>(text: &[u8], tokens: &'a [Token]) -> Parsed<'a, Signed>
    ensures { Gives result (signed_read text.now tokens.now) }
{
    let (sign, rest) = read_sign(text, tokens)?;
    let (number, rest) = read_number(text, rest)?;
    let span = span_between(tokens, rest);
    Ok((Signed { sign, number, span }, rest))
}

#[inline(always)]
#[tactic(auto, unfolding(crate::specs::Values::term))]
fn read_term<'a>(alloc: Global, text: &[u8], tokens: &'a [Token]) -> Parsed<'a, Term>
    ensures { Gives result ((term text.now).read tokens.now) }
{
    if front_is_sign(tokens) {
        let (signed, rest) = read_signed(text, tokens)?;
        return Ok((Term::Signed(signed), rest));
    }
    if front_is_number(tokens) {
        let (number, rest) = read_number(text, tokens)?;
        return Ok((Term::Number(number), rest));
    }
    if front_is_text(tokens) {
        let (name, rest) = read_text(alloc, text, tokens)?;
        return Ok((Term::Text(name), rest));
    }
    if front_is_key_name(tokens) {
        let (name, rest) = read_key_name(alloc, text, tokens)?;
        return Ok((Term::KeyName(name), rest));
    }
    let (name, rest) = read_word(alloc, text, tokens)?;
    Ok((Term::Word(name), rest))
}

#[tactic(auto, unfolding(crate::specs::Values::operation))]
fn read_operation<'a>(alloc: Global, text: &[u8], tokens: &'a [Token]) -> Parsed<'a, Operation>
    ensures { Gives result ((operation text.now).read tokens.now) }
{
    let (sign, rest) = read_sign(text, tokens)?;
    let (term, rest) = read_term(alloc, text, rest)?;
    Ok((Operation { sign, term }, rest))
}

struct Operations;

impl Repeated for Operations {
    type Value = Operation;

    ghost test = { λ text. front is_sign };

    ghost reading = { λ text. (operation text).read };

    fn is_next(text: &[u8], tokens: &[Token]) -> bool {
        front_is_sign(tokens)
    }

    #[inline(always)]
    fn read_next<'a>(alloc: Global, text: &[u8], tokens: &'a [Token]) -> Parsed<'a, Operation> {
        read_operation(alloc, text, tokens)
    }
}

/// Takes terms joined by `+` and `-`.
#[tactic(auto, unfolding(crate::specs::Values::expression))]
pub fn read_expression<'a>(
    alloc: Global,
    text: &[u8],
    tokens: &'a [Token],
) -> Parsed<'a, Expression>
    ensures { Gives result ((expression text.now).read tokens.now) }
{
    let (first, rest) = read_term(alloc, text, tokens)?;
    let (operations, left) = read_many::<Operations>(alloc, text, rest)?;
    let span = span_between(tokens, left);
    Ok((
        Expression {
            first,
            rest: operations,
            span,
        },
        left,
    ))
}

#[inline(always)]
#[tactic(auto, unfolding(crate::specs::Values::index))]
fn read_index<'a>(alloc: Global, text: &[u8], tokens: &'a [Token]) -> Parsed<'a, Index>
    ensures { Gives result ((index text.now).read tokens.now) }
{
    let (_, rest) = read_mark(text, b'[', tokens)?;
    let (value, rest) = read_expression(alloc, text, rest)?;
    let (_, rest) = read_mark(text, b']', rest)?;
    let span = span_between(tokens, rest);
    Ok((Index { value, span }, rest))
}

#[inline(always)]
fn read_optional_index<'a>(
    alloc: Global,
    text: &[u8],
    tokens: &'a [Token],
) -> Parsed<'a, Option<Boxed<Index>>>
    ensures { Gives result ((optional_index text.now).read tokens.now) }
{
    if !front_is_mark(b'[', tokens) {
        return Ok((None, tokens));
    }
    let (index, rest) = read_index(alloc, text, tokens)?;
    Ok((Some(Boxed::of(alloc, index)?), rest))
}

#[tactic(auto, unfolding(crate::specs::Values::member))]
fn read_optional_member<'a>(
    alloc: Global,
    text: &[u8],
    tokens: &'a [Token],
) -> Parsed<'a, Option<Boxed<Name>>>
    ensures { Gives result ((optional_member text.now).read tokens.now) }
{
    if !front_is_mark(b'.', tokens) {
        return Ok((None, tokens));
    }
    let (_, rest) = read_mark(text, b'.', tokens)?;
    let (name, rest) = read_word(alloc, text, rest)?;
    Ok((Some(Boxed::of(alloc, name)?), rest))
}

/// Takes what a field sets, without its value.
#[inline(always)]
#[tactic(auto, unfolding(crate::specs::Values::place))]
pub fn read_place<'a>(alloc: Global, text: &[u8], tokens: &'a [Token]) -> Parsed<'a, FieldPlace>
    ensures { Gives result ((place text.now).read tokens.now) }
{
    let (word, rest) = read_word(alloc, text, tokens)?;
    let (member, rest) = read_optional_member(alloc, text, rest)?;
    let (index, rest) = read_optional_index(alloc, text, rest)?;
    Ok((
        FieldPlace {
            word,
            member,
            index,
        },
        rest,
    ))
}

fn begins_set(tokens: &[Token]) -> bool
    ensures { result ≡ begins_set tokens.now }
{
    let behind = behind_front(tokens);
    front_is_word(tokens) && (front_is_mark(b'=', behind) || front_is_mark(b'[', behind))
}

#[tactic(auto, unfolding(crate::specs::Values::set_argument))]
fn read_set_argument<'a>(alloc: Global, text: &[u8], tokens: &'a [Token]) -> Parsed<'a, Argument>
    ensures { Gives result ((set_argument text.now).read tokens.now) }
{
    let (word, rest) = read_word(alloc, text, tokens)?;
    let (index, rest) = read_optional_index(alloc, text, rest)?;
    let (_, rest) = read_mark(text, b'=', rest)?;
    let (value, rest) = read_expression(alloc, text, rest)?;
    Ok((Argument::Set { word, index, value }, rest))
}

#[tactic(auto, unfolding(crate::specs::Values::off_argument))]
fn read_off_argument<'a>(alloc: Global, text: &[u8], tokens: &'a [Token]) -> Parsed<'a, Argument>
    ensures { Gives result ((off_argument text.now).read tokens.now) }
{
    let (_, rest) = read_mark(text, b'!', tokens)?;
    let (word, rest) = read_word(alloc, text, rest)?;
    Ok((Argument::Off(word), rest))
}

fn read_bare_argument<'a>(alloc: Global, text: &[u8], tokens: &'a [Token]) -> Parsed<'a, Argument>
    ensures { Gives result ((bare_argument text.now).read tokens.now) }
{
    if front_is_mark(b'!', tokens) {
        return read_off_argument(alloc, text, tokens);
    }
    if begins_set(tokens) {
        return read_set_argument(alloc, text, tokens);
    }
    let (value, rest) = read_expression(alloc, text, tokens)?;
    Ok((Argument::Plain(value), rest))
}

#[inline(always)]
#[tactic(auto, unfolding(crate::specs::Values::argument))]
fn read_argument<'a>(alloc: Global, text: &[u8], tokens: &'a [Token]) -> Parsed<'a, PlacedArgument>
    ensures { Gives result ((argument text.now).read tokens.now) }
{
    let (argument, rest) = read_bare_argument(alloc, text, tokens)?;
    let span = span_between(tokens, rest);
    Ok((PlacedArgument { argument, span }, rest))
}

struct Arguments;

impl Repeated for Arguments {
    type Value = PlacedArgument;

    ghost test = { λ text ts. true };

    ghost reading = { λ text. (argument text).read };

    fn is_next(text: &[u8], tokens: &[Token]) -> bool {
        true
    }

    #[inline(always)]
    fn read_next<'a>(
        alloc: Global,
        text: &[u8],
        tokens: &'a [Token],
    ) -> Parsed<'a, PlacedArgument> {
        read_argument(alloc, text, tokens)
    }
}

/// Whether the tokens begin a call: a word and `(`.
pub fn begins_call(tokens: &[Token]) -> bool
    ensures { result ≡ begins_call tokens.now }
{
    front_is_word(tokens) && front_is_mark(b'(', behind_front(tokens))
}

/// Takes a call: a word and its arguments.
#[tactic(auto, unfolding(crate::specs::Values::call))]
pub fn read_call<'a>(alloc: Global, text: &[u8], tokens: &'a [Token]) -> Parsed<'a, Call>
    ensures { Gives result ((call text.now).read tokens.now) }
{
    let (word, rest) = read_word(alloc, text, tokens)?;
    let (_, rest) = read_mark(text, b'(', rest)?;
    let (arguments, rest) = read_listed::<Arguments>(alloc, text, b')', rest)?;
    let (_, rest) = read_mark(text, b')', rest)?;
    let span = span_between(tokens, rest);
    Ok((
        Call {
            word,
            arguments,
            span,
        },
        rest,
    ))
}

#[tactic(auto, unfolding(crate::specs::Values::part))]
fn read_part<'a>(alloc: Global, text: &[u8], tokens: &'a [Token]) -> Parsed<'a, BracePart>
    ensures { Gives result ((part text.now).read tokens.now) }
{
    if begins_call(tokens) {
        let (call, rest) = read_call(alloc, text, tokens)?;
        return Ok((BracePart::Call(call), rest));
    }
    let (symbol, rest) = read_symbol(alloc, text, tokens)?;
    Ok((BracePart::Symbol(symbol), rest))
}

struct Parts;

impl Repeated for Parts {
    type Value = BracePart;

    ghost test = { λ text ts. true };

    ghost reading = { λ text. (part text).read };

    fn is_next(text: &[u8], tokens: &[Token]) -> bool {
        true
    }

    fn read_next<'a>(alloc: Global, text: &[u8], tokens: &'a [Token]) -> Parsed<'a, BracePart> {
        read_part(alloc, text, tokens)
    }
}

#[tactic(auto, unfolding(crate::specs::Values::braces))]
fn read_braces<'a>(alloc: Global, text: &[u8], tokens: &'a [Token]) -> Parsed<'a, Braces>
    ensures { Gives result ((braces text.now).read tokens.now) }
{
    let (_, rest) = read_mark(text, b'{', tokens)?;
    let (parts, rest) = read_listed::<Parts>(alloc, text, b'}', rest)?;
    let (_, rest) = read_mark(text, b'}', rest)?;
    let span = span_between(tokens, rest);
    Ok((Braces { parts, span }, rest))
}

#[inline(always)]
#[tactic(auto, unfolding(crate::specs::Values::element))]
fn read_element<'a>(alloc: Global, text: &[u8], tokens: &'a [Token]) -> Parsed<'a, Element>
    ensures { Gives result ((element text.now).read tokens.now) }
{
    if front_is_mark(b'{', tokens) {
        let (braces, rest) = read_braces(alloc, text, tokens)?;
        return Ok((Element::Braces(braces), rest));
    }
    if begins_call(tokens) {
        let (call, rest) = read_call(alloc, text, tokens)?;
        return Ok((Element::Call(Boxed::of(alloc, call)?), rest));
    }
    let (symbol, rest) = read_symbol(alloc, text, tokens)?;
    Ok((Element::Symbol(symbol), rest))
}

struct Elements;

impl Repeated for Elements {
    type Value = Element;

    ghost test = { λ text ts. true };

    ghost reading = { λ text. (element text).read };

    fn is_next(text: &[u8], tokens: &[Token]) -> bool {
        true
    }

    #[inline(always)]
    fn read_next<'a>(alloc: Global, text: &[u8], tokens: &'a [Token]) -> Parsed<'a, Element> {
        read_element(alloc, text, tokens)
    }
}

/// Takes a list between brackets.
#[tactic(auto, unfolding(crate::specs::Values::list))]
pub fn read_list<'a>(alloc: Global, text: &[u8], tokens: &'a [Token]) -> Parsed<'a, List>
    ensures { Gives result ((list text.now).read tokens.now) }
{
    let (_, rest) = read_mark(text, b'[', tokens)?;
    let (elements, rest) = read_listed::<Elements>(alloc, text, b']', rest)?;
    let (_, rest) = read_mark(text, b']', rest)?;
    let span = span_between(tokens, rest);
    Ok((List { elements, span }, rest))
}

/// Takes what a field is set to.
#[tactic(auto, unfolding(crate::specs::Values::value))]
pub fn read_value<'a>(alloc: Global, text: &[u8], tokens: &'a [Token]) -> Parsed<'a, Value>
    ensures { Gives result ((value text.now).read tokens.now) }
{
    if front_is_mark(b'[', tokens) {
        let (list, rest) = read_list(alloc, text, tokens)?;
        return Ok((Value::List(list), rest));
    }
    if begins_call(tokens) {
        let (call, rest) = read_call(alloc, text, tokens)?;
        return Ok((Value::Call(call), rest));
    }
    let (expression, rest) = read_expression(alloc, text, tokens)?;
    Ok((Value::Expression(expression), rest))
}
