//! Fields and statements that are passed over by their bytes.
ghost use Rattle.std.specs.Prelude.{◌≡◌, ◌≤◌, ◌<◌, ℕ, List, length, IfSome};
ghost use Rattle.kx_lex.specs.Kinds.{before_mark};
ghost use Rattle.kx_lex.specs.Passing.{IsAtToken, Passes};
ghost use Rattle.kx_lex.specs.Production.{many};
ghost use Rattle.kx_lex.specs.Tokens.{close_brace};
ghost use Rattle.kx_tree.specs.Passing.{GoesOn, alias_behind, block_fields, field_behind, group_behind, indicator_name_behind, interpretation_behind, key_behind, modifier_map_behind, named_block, terminated, virtual_modifiers_behind};
ghost use Rattle.kx_tree.specs.Statements.{block, declaration, declared_mask, entry, field, field_statement, indicator_name, key_field, keycode, optional_modifiers, predicate, setting, statement};

use crate::passing::{
    Passed, pass_call_behind, pass_expression, pass_list, pass_listed, pass_operations,
    pass_place_behind, pass_sequence, pass_symbol, pass_value,
};
use crate::tree::{Declaration, Entry, KeyField};
use kx_lex::Keyword;
use kx_lex::passing::{
    front_is, front_is_digit, front_is_word, pass_key_name, pass_keyword, pass_mark, pass_number,
    pass_text, pass_word,
};

#[inline(always)]
fn pass_setting(bytes: &[u8]) -> Option<&[u8]>
    requires { IsAtToken bytes.now }
    ensures passes { IfSome result (λ rest. Passes setting bytes.now rest.now) }
    ensures within { IfSome result (λ rest. length rest.now ≤ length bytes.now) }
    ensures at { IfSome result (λ rest. IsAtToken rest.now) }
{
    if front_is(b'=', bytes) {
        return pass_value(pass_mark(b'=', bytes)?);
    }
    Some(bytes)
}

/// Passes what stands after the first word of a field.
#[inline(always)]
fn pass_field_behind(bytes: &[u8]) -> Option<&[u8]>
    requires { IsAtToken bytes.now }
    ensures passes { IfSome result (λ rest. Passes field_behind bytes.now rest.now) }
    ensures within { IfSome result (λ rest. length rest.now ≤ length bytes.now) }
    ensures at { IfSome result (λ rest. IsAtToken rest.now) }
{
    let setting = pass_place_behind(bytes)?;
    pass_setting(setting)
}

/// Passes a field without its `;`.
fn pass_field(bytes: &[u8]) -> Option<&[u8]>
    ensures passes { IfSome result (λ rest. Passes field bytes.now rest.now) }
    ensures within { IfSome result (λ rest. length rest.now < length bytes.now) }
    ensures at { IfSome result (λ rest. IsAtToken rest.now) }
{
    if front_is(b'!', bytes) {
        let place = pass_mark(b'!', bytes)?;
        let behind = pass_word(place)?;
        return pass_place_behind(behind);
    }
    let behind = pass_word(bytes)?;
    pass_field_behind(behind)
}

/// Passes the fields of a block, each with its `;`, and the brace that closes it.
fn pass_block_fields(bytes: &[u8]) -> Option<&[u8]>
    requires { IsAtToken bytes.now }
    ensures passes { IfSome result (λ rest. Passes block_fields bytes.now rest.now) }
    ensures within { IfSome result (λ rest. length rest.now < length bytes.now) }
    ensures at { IfSome result (λ rest. IsAtToken rest.now) }
{
    let mut rest = bytes;
    'fields: while !front_is(b'}', rest) {
        rest = pass_mark(b';', pass_field(rest)?)?;
    }
    pass_mark(b'}', rest)
}

/// Passes the fields between braces, each with its `;`.
fn pass_block(bytes: &[u8]) -> Option<&[u8]>
    ensures passes { IfSome result (λ rest. Passes block bytes.now rest.now) }
    ensures within { IfSome result (λ rest. length rest.now < length bytes.now) }
    ensures at { IfSome result (λ rest. IsAtToken rest.now) }
{
    let fields = pass_mark(b'{', bytes)?;
    pass_block_fields(fields)
}

#[inline(always)]
fn pass_key_field(bytes: &[u8]) -> Option<&[u8]>
    ensures passes { IfSome result (λ rest. Passes key_field bytes.now rest.now) }
    ensures within { IfSome result (λ rest. length rest.now < length bytes.now) }
    ensures at { IfSome result (λ rest. IsAtToken rest.now) }
{
    if front_is(b'[', bytes) {
        return pass_list(bytes);
    }
    pass_field(bytes)
}

struct KeyFields;

impl Passed for KeyFields {
    type Value = KeyField;

    ghost production = { key_field };

    #[inline(always)]
    fn pass_next(bytes: &[u8]) -> Option<&[u8]> {
        pass_key_field(bytes)
    }
}

#[inline(always)]
fn pass_declared_mask(bytes: &[u8]) -> Option<&[u8]>
    requires { IsAtToken bytes.now }
    ensures passes { IfSome result (λ rest. Passes declared_mask bytes.now rest.now) }
    ensures within { IfSome result (λ rest. length rest.now ≤ length bytes.now) }
    ensures at { IfSome result (λ rest. IsAtToken rest.now) }
{
    if front_is(b'=', bytes) {
        return pass_expression(pass_mark(b'=', bytes)?);
    }
    Some(bytes)
}

fn pass_declaration(bytes: &[u8]) -> Option<&[u8]>
    ensures passes { IfSome result (λ rest. Passes declaration bytes.now rest.now) }
    ensures within { IfSome result (λ rest. length rest.now < length bytes.now) }
    ensures at { IfSome result (λ rest. IsAtToken rest.now) }
{
    let mask = pass_word(bytes)?;
    pass_declared_mask(mask)
}

struct Declarations;

impl Passed for Declarations {
    type Value = Declaration;

    ghost production = { declaration };

    fn pass_next(bytes: &[u8]) -> Option<&[u8]> {
        pass_declaration(bytes)
    }
}

/// Passes the predicate of an interpretation: a call or a mask.
fn pass_predicate(bytes: &[u8]) -> Option<&[u8]>
    requires { IsAtToken bytes.now }
    ensures passes { IfSome result (λ rest. Passes predicate bytes.now rest.now) }
    ensures within { IfSome result (λ rest. length rest.now < length bytes.now) }
    ensures at { IfSome result (λ rest. IsAtToken rest.now) }
{
    if !front_is_word(bytes) {
        return pass_expression(bytes);
    }
    let behind = pass_word(bytes)?;
    if front_is(b'(', behind) {
        return pass_call_behind(behind);
    }
    pass_operations(behind)
}

#[inline(always)]
fn pass_wanted_modifiers(bytes: &[u8]) -> Option<&[u8]>
    requires { IsAtToken bytes.now }
    ensures passes { IfSome result (λ rest. Passes optional_modifiers bytes.now rest.now) }
    ensures within { IfSome result (λ rest. length rest.now ≤ length bytes.now) }
    ensures at { IfSome result (λ rest. IsAtToken rest.now) }
{
    if front_is(b'+', bytes) {
        return pass_predicate(pass_mark(b'+', bytes)?);
    }
    Some(bytes)
}

fn pass_entry(bytes: &[u8]) -> Option<&[u8]>
    ensures passes { IfSome result (λ rest. Passes entry bytes.now rest.now) }
    ensures within { IfSome result (λ rest. length rest.now < length bytes.now) }
    ensures at { IfSome result (λ rest. IsAtToken rest.now) }
{
    if front_is(b'<', bytes) {
        return pass_key_name(bytes);
    }
    pass_symbol(bytes)
}

struct Entries;

impl Passed for Entries {
    type Value = Entry;

    ghost production = { entry };

    fn pass_next(bytes: &[u8]) -> Option<&[u8]> {
        pass_entry(bytes)
    }
}

/// Passes a key's name and its code, with the `;`.
fn pass_keycode(bytes: &[u8]) -> Option<&[u8]>
    ensures passes { IfSome result (λ rest. Passes (terminated keycode) bytes.now rest.now) }
    ensures within { IfSome result (λ rest. length rest.now < length bytes.now) }
    ensures at { IfSome result (λ rest. IsAtToken rest.now) }
{
    let equals = pass_key_name(bytes)?;
    let code = pass_mark(b'=', equals)?;
    let end = pass_number(code)?;
    pass_mark(b';', end)
}

/// Passes what stands after `alias`, with the `;`.
fn pass_alias_behind(bytes: &[u8]) -> Option<&[u8]>
    ensures passes { IfSome result (λ rest. Passes (terminated alias_behind) bytes.now rest.now) }
    ensures within { IfSome result (λ rest. length rest.now < length bytes.now) }
    ensures at { IfSome result (λ rest. IsAtToken rest.now) }
{
    let equals = pass_key_name(bytes)?;
    let target = pass_mark(b'=', equals)?;
    let end = pass_key_name(target)?;
    pass_mark(b';', end)
}

/// Passes what stands after `indicator` where it names one, with the `;`.
fn pass_indicator_name_behind(bytes: &[u8]) -> Option<&[u8]>
    ensures passes { IfSome result (λ rest. Passes (terminated indicator_name_behind) bytes.now rest.now) }
    ensures within { IfSome result (λ rest. length rest.now < length bytes.now) }
    ensures at { IfSome result (λ rest. IsAtToken rest.now) }
{
    let equals = pass_number(bytes)?;
    let name = pass_mark(b'=', equals)?;
    let end = pass_text(name)?;
    pass_mark(b';', end)
}

/// Passes what stands after `virtual`, with the `;`.
fn pass_indicator_name(bytes: &[u8]) -> Option<&[u8]>
    ensures passes { IfSome result (λ rest. Passes (terminated indicator_name) bytes.now rest.now) }
    ensures within { IfSome result (λ rest. length rest.now < length bytes.now) }
    ensures at { IfSome result (λ rest. IsAtToken rest.now) }
{
    let (word, behind) = pass_keyword(bytes)?;
    match word {
        Some(Keyword::Indicator) => pass_indicator_name_behind(behind),
        _ => None,
    }
}

/// Passes what stands after `virtual_modifiers`, with the `;`.
fn pass_virtual_modifiers_behind(bytes: &[u8]) -> Option<&[u8]>
    requires { IsAtToken bytes.now }
    ensures passes { IfSome result (λ rest. Passes (terminated virtual_modifiers_behind) bytes.now rest.now) }
    ensures within { IfSome result (λ rest. length rest.now < length bytes.now) }
    ensures at { IfSome result (λ rest. IsAtToken rest.now) }
{
    let end = pass_sequence::<Declarations>(bytes)?;
    pass_mark(b';', end)
}

/// Passes a name and a block, with the `;`, as they stand after `type` and `indicator`.
fn pass_named_block(bytes: &[u8]) -> Option<&[u8]>
    ensures passes { IfSome result (λ rest. Passes (terminated named_block) bytes.now rest.now) }
    ensures within { IfSome result (λ rest. length rest.now < length bytes.now) }
    ensures at { IfSome result (λ rest. IsAtToken rest.now) }
{
    let fields = pass_text(bytes)?;
    let end = pass_block(fields)?;
    pass_mark(b';', end)
}

/// Passes what stands after `interpret`, with the `;`.
fn pass_interpretation_behind(bytes: &[u8]) -> Option<&[u8]>
    ensures passes { IfSome result (λ rest. Passes (terminated interpretation_behind) bytes.now rest.now) }
    ensures within { IfSome result (λ rest. length rest.now < length bytes.now) }
    ensures at { IfSome result (λ rest. IsAtToken rest.now) }
{
    let modifiers = pass_symbol(bytes)?;
    let fields = pass_wanted_modifiers(modifiers)?;
    let end = pass_block(fields)?;
    pass_mark(b';', end)
}

/// Passes what stands after `group`, with the `;`.
fn pass_group_behind(bytes: &[u8]) -> Option<&[u8]>
    ensures passes { IfSome result (λ rest. Passes (terminated group_behind) bytes.now rest.now) }
    ensures within { IfSome result (λ rest. length rest.now < length bytes.now) }
    ensures at { IfSome result (λ rest. IsAtToken rest.now) }
{
    let equals = pass_number(bytes)?;
    let mask = pass_mark(b'=', equals)?;
    let end = pass_expression(mask)?;
    pass_mark(b';', end)
}

/// Passes what stands after `key`, with the `;`.
fn pass_key_behind(bytes: &[u8]) -> Option<&[u8]>
    ensures passes { IfSome result (λ rest. Passes (terminated key_behind) bytes.now rest.now) }
    ensures within { IfSome result (λ rest. length rest.now < length bytes.now) }
    ensures at { IfSome result (λ rest. IsAtToken rest.now) }
{
    let open = pass_key_name(bytes)?;
    let fields = pass_mark(b'{', open)?;
    let end = pass_listed::<KeyFields>(b'}', fields)?;
    pass_mark(b';', end)
}

/// Passes what stands after `modifier_map`, with the `;`.
fn pass_modifier_map_behind(bytes: &[u8]) -> Option<&[u8]>
    ensures passes { IfSome result (λ rest. Passes (terminated modifier_map_behind) bytes.now rest.now) }
    ensures within { IfSome result (λ rest. length rest.now < length bytes.now) }
    ensures at { IfSome result (λ rest. IsAtToken rest.now) }
{
    let open = pass_word(bytes)?;
    let entries = pass_mark(b'{', open)?;
    let close = pass_sequence::<Entries>(entries)?;
    let end = pass_mark(b'}', close)?;
    pass_mark(b';', end)
}

/// Passes what stands after the first word of a field that is a statement, with the `;`.
fn pass_field_statement_behind(bytes: &[u8]) -> Option<&[u8]>
    requires { IsAtToken bytes.now }
    ensures passes { IfSome result (λ rest. Passes (terminated field_behind) bytes.now rest.now) }
    ensures within { IfSome result (λ rest. length rest.now < length bytes.now) }
    ensures at { IfSome result (λ rest. IsAtToken rest.now) }
{
    let end = pass_field_behind(bytes)?;
    pass_mark(b';', end)
}

/// Passes a field that is a statement, with its `;`.
fn pass_field_statement(bytes: &[u8]) -> Option<&[u8]>
    ensures passes { IfSome result (λ rest. Passes (terminated field_statement) bytes.now rest.now) }
    ensures within { IfSome result (λ rest. length rest.now < length bytes.now) }
    ensures at { IfSome result (λ rest. IsAtToken rest.now) }
{
    let end = pass_field(bytes)?;
    pass_mark(b';', end)
}

/// Passes what stands after the first word of a statement, with the `;`. The word spells this keyword, or none.
pub fn pass_statement_behind(word: Option<Keyword>, bytes: &[u8]) -> Option<&[u8]>
    requires { IsAtToken bytes.now }
    ensures passes { IfSome result (λ rest. GoesOn word bytes.now rest.now) }
    ensures within { IfSome result (λ rest. length rest.now < length bytes.now) }
    ensures at { IfSome result (λ rest. IsAtToken rest.now) }
{
    match word {
        Some(Keyword::Key) if front_is(b'<', bytes) => pass_key_behind(bytes),
        Some(Keyword::ModifierMap) if front_is_word(bytes) => pass_modifier_map_behind(bytes),
        Some(Keyword::Alias) if front_is(b'<', bytes) => pass_alias_behind(bytes),
        Some(Keyword::Virtual) if front_is_word(bytes) => pass_indicator_name(bytes),
        Some(Keyword::Indicator) if front_is_digit(bytes) => pass_indicator_name_behind(bytes),
        Some(Keyword::Indicator) if front_is(b'"', bytes) => pass_named_block(bytes),
        Some(Keyword::VirtualModifiers) if front_is_word(bytes) => {
            pass_virtual_modifiers_behind(bytes)
        }
        Some(Keyword::Type) if front_is(b'"', bytes) => pass_named_block(bytes),
        Some(Keyword::Interpret) if front_is_word(bytes) || front_is_digit(bytes) => {
            pass_interpretation_behind(bytes)
        }
        Some(Keyword::Group) if front_is_digit(bytes) => pass_group_behind(bytes),
        _ => pass_field_statement_behind(bytes),
    }
}

/// Passes a statement without its mode, with its `;`.
pub fn pass_statement(bytes: &[u8]) -> Option<&[u8]>
    ensures passes { IfSome result (λ rest. Passes (terminated statement) bytes.now rest.now) }
    ensures within { IfSome result (λ rest. length rest.now < length bytes.now) }
    ensures at { IfSome result (λ rest. IsAtToken rest.now) }
{
    if front_is(b'<', bytes) {
        return pass_keycode(bytes);
    }
    if front_is(b'!', bytes) {
        return pass_field_statement(bytes);
    }
    let (word, behind) = pass_keyword(bytes)?;
    pass_statement_behind(word, behind)
}
