//! Values that are passed over by their bytes: what stands after them is answered, or nothing where they aren't spelled.
ghost use Rattle.std.specs.Prelude.{◌≡◌, ◌≤◌, ◌<◌, ◌||◌, ℕ, List, true, length, IfSome};
ghost use Rattle.kx_lex.specs.Kinds.{front, is_mark};
ghost use Rattle.kx_lex.specs.Passing.{front_byte, IsAtToken, Passes, is_single};
ghost use Rattle.kx_lex.specs.Production.{Production, many};
ghost use Rattle.kx_lex.specs.Tokens.{comma, mark};
ghost use Rattle.kx_tree.specs.Forms.{after, ended, listed, sequence};
ghost use Rattle.kx_tree.specs.Passing.{call_behind, more, operations, place_behind, set_behind};
ghost use Rattle.kx_tree.specs.Values.{argument, braces, element, expression, index, list, member, operation, optional_index, part, sign, signed, symbol, term, value};

use crate::tree::{BracePart, Element, PlacedArgument};
use kx_lex::passing::{
    front_is, front_is_digit, front_is_word, pass_key_name, pass_mark, pass_number, pass_text,
    pass_word,
};

/// Something that is passed many times in a row.
pub trait Passed {
    /// What is spelled by each.
    type Value;

    ghost production: { List ℕ → Production Self.Value };

    /// Passes one.
    fn pass_next(bytes: &[u8]) -> Option<&[u8]>
        requires { IsAtToken bytes.now }
        ensures passes { IfSome result (λ rest. Passes production bytes.now rest.now) }
        ensures within { IfSome result (λ rest. length rest.now < length bytes.now) }
        ensures at { IfSome result (λ rest. IsAtToken rest.now) };
}

/// Passes as many after commas as stand at the front.
fn pass_more<P: Passed>(bytes: &[u8]) -> Option<&[u8]>
    requires { IsAtToken bytes.now }
    ensures passes { IfSome result (λ rest. Passes (more P.production) bytes.now rest.now) }
    ensures within { IfSome result (λ rest. length rest.now ≤ length bytes.now) }
    ensures at { IfSome result (λ rest. IsAtToken rest.now) }
{
    let mut rest = bytes;
    'more: while front_is(b',', rest) {
        rest = P::pass_next(pass_mark(b',', rest)?)?;
    }
    Some(rest)
}

/// Passes one, and more after commas.
pub fn pass_sequence<P: Passed>(bytes: &[u8]) -> Option<&[u8]>
    requires { IsAtToken bytes.now }
    ensures passes { IfSome result (λ rest.
        Passes (λ text. sequence text (P.production text)) bytes.now rest.now) }
    ensures within { IfSome result (λ rest. length rest.now < length bytes.now) }
    ensures at { IfSome result (λ rest. IsAtToken rest.now) }
{
    let first = P::pass_next(bytes)?;
    pass_more::<P>(first)
}

/// Passes none or one, and more after commas, and the mark that closes the list, by its byte.
pub fn pass_listed<P: Passed>(close: u8, bytes: &[u8]) -> Option<&[u8]>
    requires single { is_single close ≡ true }
    requires at { IsAtToken bytes.now }
    ensures passes { IfSome result (λ rest.
        Passes (λ text. ended text close (listed text close (P.production text))) bytes.now
        rest.now) }
    ensures within { IfSome result (λ rest. length rest.now < length bytes.now) }
    ensures at { IfSome result (λ rest. IsAtToken rest.now) }
{
    if front_is(close, bytes) {
        return pass_mark(close, bytes);
    }
    let end = pass_sequence::<P>(bytes)?;
    pass_mark(close, end)
}

/// Passes a keysym as it is written.
#[inline(always)]
pub fn pass_symbol(bytes: &[u8]) -> Option<&[u8]>
    ensures passes { IfSome result (λ rest. Passes symbol bytes.now rest.now) }
    ensures within { IfSome result (λ rest. length rest.now < length bytes.now) }
    ensures at { IfSome result (λ rest. IsAtToken rest.now) }
{
    if front_is_digit(bytes) {
        return pass_number(bytes);
    }
    pass_word(bytes)
}

fn front_is_sign(bytes: &[u8]) -> bool
    ensures { result ≡ (front_byte 43 bytes.now || front_byte 45 bytes.now) }
{
    front_is(b'+', bytes) || front_is(b'-', bytes)
}

#[inline(always)]
fn pass_sign(bytes: &[u8]) -> Option<&[u8]>
    ensures passes { IfSome result (λ rest. Passes sign bytes.now rest.now) }
    ensures within { IfSome result (λ rest. length rest.now < length bytes.now) }
    ensures at { IfSome result (λ rest. IsAtToken rest.now) }
{
    if front_is(b'+', bytes) {
        return pass_mark(b'+', bytes);
    }
    pass_mark(b'-', bytes)
}

fn pass_signed(bytes: &[u8]) -> Option<&[u8]>
    ensures passes { IfSome result (λ rest. Passes signed bytes.now rest.now) }
    ensures within { IfSome result (λ rest. length rest.now < length bytes.now) }
    ensures at { IfSome result (λ rest. IsAtToken rest.now) }
{
    pass_number(pass_sign(bytes)?)
}

fn pass_term(bytes: &[u8]) -> Option<&[u8]>
    ensures passes { IfSome result (λ rest. Passes term bytes.now rest.now) }
    ensures within { IfSome result (λ rest. length rest.now < length bytes.now) }
    ensures at { IfSome result (λ rest. IsAtToken rest.now) }
{
    if front_is_word(bytes) {
        return pass_word(bytes);
    }
    if front_is_sign(bytes) {
        return pass_signed(bytes);
    }
    if front_is(b'"', bytes) {
        return pass_text(bytes);
    }
    if front_is(b'<', bytes) {
        return pass_key_name(bytes);
    }
    pass_number(bytes)
}

fn pass_operation(bytes: &[u8]) -> Option<&[u8]>
    ensures passes { IfSome result (λ rest. Passes operation bytes.now rest.now) }
    ensures within { IfSome result (λ rest. length rest.now < length bytes.now) }
    ensures at { IfSome result (λ rest. IsAtToken rest.now) }
{
    pass_term(pass_sign(bytes)?)
}

/// Passes what stands after the first term of an expression.
#[inline(always)]
pub fn pass_operations(bytes: &[u8]) -> Option<&[u8]>
    requires { IsAtToken bytes.now }
    ensures passes { IfSome result (λ rest. Passes operations bytes.now rest.now) }
    ensures within { IfSome result (λ rest. length rest.now ≤ length bytes.now) }
    ensures at { IfSome result (λ rest. IsAtToken rest.now) }
{
    let mut rest = bytes;
    'terms: while front_is_sign(rest) {
        rest = pass_operation(rest)?;
    }
    Some(rest)
}

/// Passes terms joined by `+` and `-`.
pub fn pass_expression(bytes: &[u8]) -> Option<&[u8]>
    ensures passes { IfSome result (λ rest. Passes expression bytes.now rest.now) }
    ensures within { IfSome result (λ rest. length rest.now < length bytes.now) }
    ensures at { IfSome result (λ rest. IsAtToken rest.now) }
{
    pass_operations(pass_term(bytes)?)
}

fn pass_index(bytes: &[u8]) -> Option<&[u8]>
    ensures passes { IfSome result (λ rest. Passes index bytes.now rest.now) }
    ensures within { IfSome result (λ rest. length rest.now < length bytes.now) }
    ensures at { IfSome result (λ rest. IsAtToken rest.now) }
{
    let value = pass_mark(b'[', bytes)?;
    let close = pass_expression(value)?;
    pass_mark(b']', close)
}

#[inline(always)]
fn pass_optional_index(bytes: &[u8]) -> Option<&[u8]>
    requires { IsAtToken bytes.now }
    ensures passes { IfSome result (λ rest. Passes optional_index bytes.now rest.now) }
    ensures within { IfSome result (λ rest. length rest.now ≤ length bytes.now) }
    ensures at { IfSome result (λ rest. IsAtToken rest.now) }
{
    if front_is(b'[', bytes) {
        return pass_index(bytes);
    }
    Some(bytes)
}

fn pass_member(bytes: &[u8]) -> Option<&[u8]>
    ensures passes { IfSome result (λ rest. Passes member bytes.now rest.now) }
    ensures within { IfSome result (λ rest. length rest.now < length bytes.now) }
    ensures at { IfSome result (λ rest. IsAtToken rest.now) }
{
    pass_word(pass_mark(b'.', bytes)?)
}

/// Passes what stands after the word of a field's place.
#[inline(always)]
pub fn pass_place_behind(bytes: &[u8]) -> Option<&[u8]>
    requires { IsAtToken bytes.now }
    ensures passes { IfSome result (λ rest. Passes place_behind bytes.now rest.now) }
    ensures within { IfSome result (λ rest. length rest.now ≤ length bytes.now) }
    ensures at { IfSome result (λ rest. IsAtToken rest.now) }
{
    if front_is(b'.', bytes) {
        let index = pass_member(bytes)?;
        return pass_optional_index(index);
    }
    pass_optional_index(bytes)
}

/// Passes what stands after the word of an argument that sets it.
#[inline(always)]
fn pass_set_behind(bytes: &[u8]) -> Option<&[u8]>
    requires { IsAtToken bytes.now }
    ensures passes { IfSome result (λ rest. Passes set_behind bytes.now rest.now) }
    ensures within { IfSome result (λ rest. length rest.now < length bytes.now) }
    ensures at { IfSome result (λ rest. IsAtToken rest.now) }
{
    let equals = pass_optional_index(bytes)?;
    let value = pass_mark(b'=', equals)?;
    pass_expression(value)
}

/// Whether what stands after the word of an argument sets it.
fn front_is_set(bytes: &[u8]) -> bool
    ensures { result ≡ (front_byte 61 bytes.now || front_byte 91 bytes.now) }
{
    front_is(b'=', bytes) || front_is(b'[', bytes)
}

/// Passes an argument of a call.
fn pass_argument(bytes: &[u8]) -> Option<&[u8]>
    requires { IsAtToken bytes.now }
    ensures passes { IfSome result (λ rest. Passes argument bytes.now rest.now) }
    ensures within { IfSome result (λ rest. length rest.now < length bytes.now) }
    ensures at { IfSome result (λ rest. IsAtToken rest.now) }
{
    if front_is(b'!', bytes) {
        return pass_word(pass_mark(b'!', bytes)?);
    }
    if !front_is_word(bytes) {
        return pass_expression(bytes);
    }
    let behind = pass_word(bytes)?;
    if front_is_set(behind) {
        return pass_set_behind(behind);
    }
    pass_operations(behind)
}

struct Arguments;

impl Passed for Arguments {
    type Value = PlacedArgument;

    ghost production = { argument };

    #[inline(always)]
    fn pass_next(bytes: &[u8]) -> Option<&[u8]> {
        pass_argument(bytes)
    }
}

/// Passes what stands after the word of a call: its arguments between parentheses.
pub fn pass_call_behind(bytes: &[u8]) -> Option<&[u8]>
    ensures passes { IfSome result (λ rest. Passes call_behind bytes.now rest.now) }
    ensures within { IfSome result (λ rest. length rest.now < length bytes.now) }
    ensures at { IfSome result (λ rest. IsAtToken rest.now) }
{
    let arguments = pass_mark(b'(', bytes)?;
    pass_listed::<Arguments>(b')', arguments)
}

/// Passes a symbol or a call.
#[inline(always)]
fn pass_part(bytes: &[u8]) -> Option<&[u8]>
    ensures passes { IfSome result (λ rest. Passes part bytes.now rest.now) }
    ensures within { IfSome result (λ rest. length rest.now < length bytes.now) }
    ensures at { IfSome result (λ rest. IsAtToken rest.now) }
{
    if front_is_digit(bytes) {
        return pass_number(bytes);
    }
    let behind = pass_word(bytes)?;
    if front_is(b'(', behind) {
        return pass_call_behind(behind);
    }
    Some(behind)
}

struct Parts;

impl Passed for Parts {
    type Value = BracePart;

    ghost production = { part };

    #[inline(always)]
    fn pass_next(bytes: &[u8]) -> Option<&[u8]> {
        pass_part(bytes)
    }
}

fn pass_braces(bytes: &[u8]) -> Option<&[u8]>
    ensures passes { IfSome result (λ rest. Passes braces bytes.now rest.now) }
    ensures within { IfSome result (λ rest. length rest.now < length bytes.now) }
    ensures at { IfSome result (λ rest. IsAtToken rest.now) }
{
    let parts = pass_mark(b'{', bytes)?;
    pass_listed::<Parts>(b'}', parts)
}

/// Passes one level of a list.
#[inline(always)]
fn pass_element(bytes: &[u8]) -> Option<&[u8]>
    ensures passes { IfSome result (λ rest. Passes element bytes.now rest.now) }
    ensures within { IfSome result (λ rest. length rest.now < length bytes.now) }
    ensures at { IfSome result (λ rest. IsAtToken rest.now) }
{
    if front_is(b'{', bytes) {
        return pass_braces(bytes);
    }
    pass_part(bytes)
}

struct Elements;

impl Passed for Elements {
    type Value = Element;

    ghost production = { element };

    #[inline(always)]
    fn pass_next(bytes: &[u8]) -> Option<&[u8]> {
        pass_element(bytes)
    }
}

/// Passes a list between brackets.
pub fn pass_list(bytes: &[u8]) -> Option<&[u8]>
    ensures passes { IfSome result (λ rest. Passes list bytes.now rest.now) }
    ensures within { IfSome result (λ rest. length rest.now < length bytes.now) }
    ensures at { IfSome result (λ rest. IsAtToken rest.now) }
{
    let elements = pass_mark(b'[', bytes)?;
    pass_listed::<Elements>(b']', elements)
}

/// Passes what a field is set to.
pub fn pass_value(bytes: &[u8]) -> Option<&[u8]>
    requires { IsAtToken bytes.now }
    ensures passes { IfSome result (λ rest. Passes value bytes.now rest.now) }
    ensures within { IfSome result (λ rest. length rest.now < length bytes.now) }
    ensures at { IfSome result (λ rest. IsAtToken rest.now) }
{
    if front_is(b'[', bytes) {
        return pass_list(bytes);
    }
    if !front_is_word(bytes) {
        return pass_expression(bytes);
    }
    let behind = pass_word(bytes)?;
    if front_is(b'(', behind) {
        return pass_call_behind(behind);
    }
    pass_operations(behind)
}
