//! Reading statements.
ghost use Rattle.std.specs.Prelude.{◌≡◌, ◌&&◌, ◌||◌, codes};
ghost use Rattle.kx_lex.specs.Gives.{Gives};
ghost use Rattle.kx_lex.specs.Kinds.{front, is_mark, is_word, is_number, is_text, is_key_name, is_keyword};
ghost use Rattle.kx_tree.specs.Statements.{keycode, alias, indicator_name, virtual_indicator, virtual_modifiers, key_type, optional_modifiers, interpretation, indicator, group, key, mapped_entries, modifier_map, field_statement, symbols_statement, types_statement, keycodes_statement, statement};

use crate::fields::{Declarations, Entries, KeyFields, read_block, read_field, read_predicate};
use kx_lex::repeated::{read_sequence, read_small_list};
use kx_lex::tokens::{
    Parsed, behind_front, front_is_key_name, front_is_keyword, front_is_mark, front_is_number,
    front_is_text, front_is_word, is_number, is_word, read_key_name, read_keyword, read_mark,
    read_number, read_text, read_word,
};
use kx_lex::{Boxed, Fault, Keyword, Row, Token};
use kx_tree::values::{read_expression, read_symbol};
use kx_tree::{Entry, Predicate, Statement};
use std::alloc::Global;

#[tactic(auto, unfolding(kx_tree::specs::Statements::keycode))]
fn read_keycode<'a>(alloc: Global, text: &[u8], tokens: &'a [Token]) -> Parsed<'a, Statement>
    ensures { Gives result ((keycode text.now).read tokens.now) }
{
    let (name, rest) = read_key_name(alloc, text, tokens)?;
    let (_, rest) = read_mark(text, b'=', rest)?;
    let (code, rest) = read_number(text, rest)?;
    Ok((Statement::Keycode { name, code }, rest))
}

#[tactic(auto, unfolding(kx_tree::specs::Statements::alias))]
fn read_alias<'a>(alloc: Global, text: &[u8], tokens: &'a [Token]) -> Parsed<'a, Statement>
    ensures { Gives result ((alias text.now).read tokens.now) }
{
    let (_, rest) = read_keyword(text, Keyword::Alias, tokens)?;
    let (name, rest) = read_key_name(alloc, text, rest)?;
    let (_, rest) = read_mark(text, b'=', rest)?;
    let (target, rest) = read_key_name(alloc, text, rest)?;
    Ok((Statement::Alias { name, target }, rest))
}

#[tactic(auto, unfolding(kx_tree::specs::Statements::indicator_name))]
fn read_indicator_name<'a>(alloc: Global, text: &[u8], tokens: &'a [Token]) -> Parsed<'a, Statement>
    ensures { Gives result ((indicator_name text.now).read tokens.now) }
{
    let (_, rest) = read_keyword(text, Keyword::Indicator, tokens)?;
    let (number, rest) = read_number(text, rest)?;
    let (_, rest) = read_mark(text, b'=', rest)?;
    let (name, rest) = read_text(alloc, text, rest)?;
    Ok((Statement::IndicatorName { number, name }, rest))
}

#[tactic(auto, unfolding(kx_tree::specs::Statements::virtual_indicator))]
fn read_virtual_indicator<'a>(
    alloc: Global,
    text: &[u8],
    tokens: &'a [Token],
) -> Parsed<'a, Statement>
    ensures { Gives result ((virtual_indicator text.now).read tokens.now) }
{
    let (_, rest) = read_keyword(text, Keyword::Virtual, tokens)?;
    read_indicator_name(alloc, text, rest)
}

#[tactic(auto, unfolding(kx_tree::specs::Statements::virtual_modifiers))]
fn read_virtual_modifiers<'a>(
    alloc: Global,
    text: &[u8],
    tokens: &'a [Token],
) -> Parsed<'a, Statement>
    ensures { Gives result ((virtual_modifiers text.now).read tokens.now) }
{
    let (_, rest) = read_keyword(text, Keyword::VirtualModifiers, tokens)?;
    let (declarations, rest) = read_sequence::<Declarations>(alloc, text, rest)?;
    Ok((Statement::VirtualModifiers(declarations), rest))
}

#[tactic(auto, unfolding(kx_tree::specs::Statements::key_type))]
fn read_key_type<'a>(alloc: Global, text: &[u8], tokens: &'a [Token]) -> Parsed<'a, Statement>
    ensures { Gives result ((key_type text.now).read tokens.now) }
{
    let (_, rest) = read_keyword(text, Keyword::Type, tokens)?;
    let (name, rest) = read_text(alloc, text, rest)?;
    let (fields, rest) = read_block(alloc, text, rest)?;
    Ok((Statement::KeyType { name, fields }, rest))
}

#[tactic(auto, unfolding(kx_tree::specs::Statements::wanted_modifiers))]
fn read_wanted_modifiers<'a>(
    alloc: Global,
    text: &[u8],
    tokens: &'a [Token],
) -> Parsed<'a, Option<Boxed<Predicate>>>
    ensures { Gives result ((optional_modifiers text.now).read tokens.now) }
{
    if !front_is_mark(b'+', tokens) {
        return Ok((None, tokens));
    }
    let (_, rest) = read_mark(text, b'+', tokens)?;
    let (predicate, rest) = read_predicate(alloc, text, rest)?;
    Ok((Some(Boxed::of(alloc, predicate)?), rest))
}

#[tactic(auto, unfolding(kx_tree::specs::Statements::interpretation))]
fn read_interpretation<'a>(alloc: Global, text: &[u8], tokens: &'a [Token]) -> Parsed<'a, Statement>
    ensures { Gives result ((interpretation text.now).read tokens.now) }
{
    let (_, rest) = read_keyword(text, Keyword::Interpret, tokens)?;
    let (symbol, rest) = read_symbol(alloc, text, rest)?;
    let (predicate, rest) = read_wanted_modifiers(alloc, text, rest)?;
    let (fields, rest) = read_block(alloc, text, rest)?;
    Ok((
        Statement::Interpretation {
            symbol,
            predicate,
            fields,
        },
        rest,
    ))
}

#[tactic(auto, unfolding(kx_tree::specs::Statements::indicator))]
fn read_indicator<'a>(alloc: Global, text: &[u8], tokens: &'a [Token]) -> Parsed<'a, Statement>
    ensures { Gives result ((indicator text.now).read tokens.now) }
{
    let (_, rest) = read_keyword(text, Keyword::Indicator, tokens)?;
    let (name, rest) = read_text(alloc, text, rest)?;
    let (fields, rest) = read_block(alloc, text, rest)?;
    Ok((Statement::Indicator { name, fields }, rest))
}

#[tactic(auto, unfolding(kx_tree::specs::Statements::group))]
fn read_group<'a>(alloc: Global, text: &[u8], tokens: &'a [Token]) -> Parsed<'a, Statement>
    ensures { Gives result ((group text.now).read tokens.now) }
{
    let (_, rest) = read_keyword(text, Keyword::Group, tokens)?;
    let (number, rest) = read_number(text, rest)?;
    let (_, rest) = read_mark(text, b'=', rest)?;
    let (mask, rest) = read_expression(alloc, text, rest)?;
    let mask = Boxed::of(alloc, mask)?;
    Ok((Statement::Group { number, mask }, rest))
}

#[tactic(auto, unfolding(kx_tree::specs::Statements::key))]
fn read_key<'a>(alloc: Global, text: &[u8], tokens: &'a [Token]) -> Parsed<'a, Statement>
    ensures { Gives result ((key text.now).read tokens.now) }
{
    let (_, rest) = read_keyword(text, Keyword::Key, tokens)?;
    let (name, rest) = read_key_name(alloc, text, rest)?;
    let (_, rest) = read_mark(text, b'{', rest)?;
    let (fields, rest) = read_small_list::<KeyFields>(alloc, text, b'}', rest)?;
    let (_, rest) = read_mark(text, b'}', rest)?;
    Ok((Statement::Key { name, fields }, rest))
}

#[tactic(auto, unfolding(kx_tree::specs::Statements::mapped_entries))]
fn read_mapped_entries<'a>(
    alloc: Global,
    text: &[u8],
    tokens: &'a [Token],
) -> Parsed<'a, Row<Entry>>
    ensures { Gives result ((mapped_entries text.now).read tokens.now) }
{
    read_sequence::<Entries>(alloc, text, tokens)
}

#[tactic(auto, unfolding(kx_tree::specs::Statements::modifier_map))]
fn read_modifier_map<'a>(alloc: Global, text: &[u8], tokens: &'a [Token]) -> Parsed<'a, Statement>
    ensures { Gives result ((modifier_map text.now).read tokens.now) }
{
    let (_, rest) = read_keyword(text, Keyword::ModifierMap, tokens)?;
    let (modifier, rest) = read_word(alloc, text, rest)?;
    let (_, rest) = read_mark(text, b'{', rest)?;
    let (entries, rest) = read_mapped_entries(alloc, text, rest)?;
    let (_, rest) = read_mark(text, b'}', rest)?;
    Ok((Statement::ModifierMap { modifier, entries }, rest))
}

#[tactic(auto, unfolding(kx_tree::specs::Statements::field_statement))]
fn read_field_statement<'a>(
    alloc: Global,
    text: &[u8],
    tokens: &'a [Token],
) -> Parsed<'a, Statement>
    ensures { Gives result ((field_statement text.now).read tokens.now) }
{
    let (field, rest) = read_field(alloc, text, tokens)?;
    Ok((Statement::Field(Boxed::of(alloc, field)?), rest))
}

/// Whether this word stands at the front, where what stands after it is right. That is told first,
/// being cheaper to tell.
fn begins(keyword: Keyword, tokens: &[Token], is_right_behind: bool) -> bool
    ensures { result ≡ (front (is_keyword keyword) tokens.now && is_right_behind) }
{
    is_right_behind && front_is_keyword(keyword, tokens)
}

#[tactic(auto, unfolding(kx_tree::specs::Statements::symbols_statement))]
fn read_symbols_statement<'a>(
    alloc: Global,
    text: &[u8],
    tokens: &'a [Token],
) -> Parsed<'a, Statement>
    ensures { Gives result ((symbols_statement text.now).read tokens.now) }
{
    let behind = behind_front(tokens);
    if begins(Keyword::Key, tokens, front_is_key_name(behind)) {
        return read_key(alloc, text, tokens);
    }
    if begins(Keyword::ModifierMap, tokens, front_is_word(behind)) {
        return read_modifier_map(alloc, text, tokens);
    }
    read_field_statement(alloc, text, tokens)
}

fn front_is_symbol(tokens: &[Token]) -> bool
    ensures { result ≡ front (λ t. is_word t || is_number t) tokens.now }
{
    match tokens.first() {
        Some(token) => is_word(token) || is_number(token),
        None => false,
    }
}

#[tactic(auto, unfolding(kx_tree::specs::Statements::types_statement))]
fn read_types_statement<'a>(
    alloc: Global,
    text: &[u8],
    tokens: &'a [Token],
) -> Parsed<'a, Statement>
    ensures { Gives result ((types_statement text.now (symbols_statement text.now)).read
        tokens.now) }
{
    let behind = behind_front(tokens);
    if begins(Keyword::VirtualModifiers, tokens, front_is_word(behind)) {
        return read_virtual_modifiers(alloc, text, tokens);
    }
    if begins(Keyword::Type, tokens, front_is_text(behind)) {
        return read_key_type(alloc, text, tokens);
    }
    if begins(Keyword::Interpret, tokens, front_is_symbol(behind)) {
        return read_interpretation(alloc, text, tokens);
    }
    if begins(Keyword::Indicator, tokens, front_is_text(behind)) {
        return read_indicator(alloc, text, tokens);
    }
    if begins(Keyword::Group, tokens, front_is_number(behind)) {
        return read_group(alloc, text, tokens);
    }
    read_symbols_statement(alloc, text, tokens)
}

/// Takes a statement without its mode and its `;`.
#[tactic(auto, unfolding(kx_tree::specs::Statements::statement, kx_tree::specs::Statements::keycodes_statement))]
pub fn read_statement<'a>(alloc: Global, text: &[u8], tokens: &'a [Token]) -> Parsed<'a, Statement>
    ensures { Gives result ((statement text.now).read tokens.now) }
{
    let behind = behind_front(tokens);
    if front_is_key_name(tokens) {
        return read_keycode(alloc, text, tokens);
    }
    if begins(Keyword::Alias, tokens, front_is_key_name(behind)) {
        return read_alias(alloc, text, tokens);
    }
    if front_is_keyword(Keyword::Virtual, tokens) && front_is_keyword(Keyword::Indicator, behind) {
        return read_virtual_indicator(alloc, text, tokens);
    }
    if begins(Keyword::Indicator, tokens, front_is_number(behind)) {
        return read_indicator_name(alloc, text, tokens);
    }
    read_types_statement(alloc, text, tokens)
}
