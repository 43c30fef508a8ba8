//! Reading fields and blocks.
ghost use Rattle.std.specs.Prelude.{◌≡◌, true};
ghost use Rattle.kx_lex.specs.Gives.{Gives};
ghost use Rattle.kx_tree.specs.Statements.{setting, bare_field, field, block_field, block, key_field, declared_mask, declaration, predicate, entry};
ghost use Rattle.kx_lex.specs.Kinds.{before_mark};
ghost use Rattle.kx_lex.specs.Tokens.{close_brace};

use kx_lex::repeated::{Repeated, is_before_mark, read_many};
use kx_lex::tokens::{
    Parsed, front_is_key_name, front_is_mark, read_key_name, read_mark, read_word, span_between,
};
use kx_lex::{Boxed, Fault, Row, Token};
use kx_tree::values::{
    begins_call, read_call, read_expression, read_list, read_place, read_symbol, read_value,
};
use kx_tree::{Declaration, Entry, Expression, Field, FieldPlace, KeyField, Predicate, Setting};
use std::alloc::Global;

#[inline(always)]
#[tactic(auto, unfolding(kx_tree::specs::Statements::setting))]
fn read_setting<'a>(alloc: Global, text: &[u8], tokens: &'a [Token]) -> Parsed<'a, Setting>
    ensures { Gives result ((setting text.now).read tokens.now) }
{
    if !front_is_mark(b'=', tokens) {
        return Ok((Setting::On, tokens));
    }
    let (_, rest) = read_mark(text, b'=', tokens)?;
    let (value, rest) = read_value(alloc, text, rest)?;
    Ok((Setting::To(value), rest))
}

#[inline(always)]
fn read_bare_field<'a>(
    alloc: Global,
    text: &[u8],
    tokens: &'a [Token],
) -> Parsed<'a, (FieldPlace, Setting)>
    ensures { Gives result ((bare_field text.now).read tokens.now) }
{
    if front_is_mark(b'!', tokens) {
        let (_, rest) = read_mark(text, b'!', tokens)?;
        let (place, rest) = read_place(alloc, text, rest)?;
        return Ok(((place, Setting::Off), rest));
    }
    let (place, rest) = read_place(alloc, text, tokens)?;
    let (setting, rest) = read_setting(alloc, text, rest)?;
    Ok(((place, setting), rest))
}

/// Takes a field without its `;`.
#[tactic(auto, unfolding(kx_tree::specs::Statements::field))]
pub fn read_field<'a>(alloc: Global, text: &[u8], tokens: &'a [Token]) -> Parsed<'a, Field>
    ensures { Gives result ((field text.now).read tokens.now) }
{
    let ((place, setting), rest) = read_bare_field(alloc, text, tokens)?;
    let span = span_between(tokens, rest);
    Ok((
        Field {
            place,
            setting,
            span,
        },
        rest,
    ))
}

#[inline(always)]
#[tactic(auto, unfolding(kx_tree::specs::Statements::block_field))]
fn read_block_field<'a>(alloc: Global, text: &[u8], tokens: &'a [Token]) -> Parsed<'a, Field>
    ensures { Gives result ((block_field text.now).read tokens.now) }
{
    let (field, rest) = read_field(alloc, text, tokens)?;
    let (_, rest) = read_mark(text, b';', rest)?;
    Ok((field, rest))
}

struct BlockFields;

impl Repeated for BlockFields {
    type Value = Field;

    ghost test = { λ text. before_mark close_brace };

    ghost reading = { λ text. (block_field text).read };

    fn is_next(text: &[u8], tokens: &[Token]) -> bool {
        is_before_mark(b'}', tokens)
    }

    #[inline(always)]
    fn read_next<'a>(alloc: Global, text: &[u8], tokens: &'a [Token]) -> Parsed<'a, Field> {
        read_block_field(alloc, text, tokens)
    }
}

/// Takes the fields between braces, each with its `;`.
#[tactic(auto, unfolding(kx_tree::specs::Statements::block))]
pub fn read_block<'a>(alloc: Global, text: &[u8], tokens: &'a [Token]) -> Parsed<'a, Row<Field>>
    ensures { Gives result ((block text.now).read tokens.now) }
{
    let (_, rest) = read_mark(text, b'{', tokens)?;
    let (fields, rest) = read_many::<BlockFields>(alloc, text, rest)?;
    let (_, rest) = read_mark(text, b'}', rest)?;
    Ok((fields.fitted(), rest))
}

#[inline(always)]
#[tactic(auto, unfolding(kx_tree::specs::Statements::key_field))]
fn read_key_field<'a>(alloc: Global, text: &[u8], tokens: &'a [Token]) -> Parsed<'a, KeyField>
    ensures { Gives result ((key_field text.now).read tokens.now) }
{
    if front_is_mark(b'[', tokens) {
        let (list, rest) = read_list(alloc, text, tokens)?;
        return Ok((KeyField::List(list), rest));
    }
    let (field, rest) = read_field(alloc, text, tokens)?;
    Ok((KeyField::Field(Boxed::of(alloc, field)?), rest))
}

/// The fields of a key.
pub struct KeyFields;

impl Repeated for KeyFields {
    type Value = KeyField;

    ghost test = { λ text ts. true };

    ghost reading = { λ text. (key_field text).read };

    fn is_next(text: &[u8], tokens: &[Token]) -> bool {
        true
    }

    #[inline(always)]
    fn read_next<'a>(alloc: Global, text: &[u8], tokens: &'a [Token]) -> Parsed<'a, KeyField> {
        read_key_field(alloc, text, tokens)
    }
}

fn read_declared_mask<'a>(
    alloc: Global,
    text: &[u8],
    tokens: &'a [Token],
) -> Parsed<'a, Option<Expression>>
    ensures { Gives result ((declared_mask text.now).read tokens.now) }
{
    if !front_is_mark(b'=', tokens) {
        return Ok((None, tokens));
    }
    let (_, rest) = read_mark(text, b'=', tokens)?;
    let (mask, rest) = read_expression(alloc, text, rest)?;
    Ok((Some(mask), rest))
}

#[tactic(auto, unfolding(kx_tree::specs::Statements::declaration))]
fn read_declaration<'a>(alloc: Global, text: &[u8], tokens: &'a [Token]) -> Parsed<'a, Declaration>
    ensures { Gives result ((declaration text.now).read tokens.now) }
{
    let (word, rest) = read_word(alloc, text, tokens)?;
    let (mask, rest) = read_declared_mask(alloc, text, rest)?;
    Ok((Declaration { word, mask }, rest))
}

/// The virtual modifiers that a statement declares.
pub struct Declarations;

impl Repeated for Declarations {
    type Value = Declaration;

    ghost test = { λ text ts. true };

    ghost reading = { λ text. (declaration text).read };

    fn is_next(text: &[u8], tokens: &[Token]) -> bool {
        true
    }

    fn read_next<'a>(alloc: Global, text: &[u8], tokens: &'a [Token]) -> Parsed<'a, Declaration> {
        read_declaration(alloc, text, tokens)
    }
}

/// Takes the predicate of an interpretation: a call or a mask.
#[tactic(auto, unfolding(kx_tree::specs::Statements::predicate))]
pub fn read_predicate<'a>(alloc: Global, text: &[u8], tokens: &'a [Token]) -> Parsed<'a, Predicate>
    ensures { Gives result ((predicate text.now).read tokens.now) }
{
    if begins_call(tokens) {
        let (call, rest) = read_call(alloc, text, tokens)?;
        return Ok((Predicate::Call(call), rest));
    }
    let (mask, rest) = read_expression(alloc, text, tokens)?;
    Ok((Predicate::Mask(mask), rest))
}

#[tactic(auto, unfolding(kx_tree::specs::Statements::entry))]
fn read_entry<'a>(alloc: Global, text: &[u8], tokens: &'a [Token]) -> Parsed<'a, Entry>
    ensures { Gives result ((entry text.now).read tokens.now) }
{
    if front_is_key_name(tokens) {
        let (name, rest) = read_key_name(alloc, text, tokens)?;
        return Ok((Entry::KeyName(name), rest));
    }
    let (symbol, rest) = read_symbol(alloc, text, tokens)?;
    Ok((Entry::Symbol(symbol), rest))
}

/// What a modifier map names.
pub struct Entries;

impl Repeated for Entries {
    type Value = Entry;

    ghost test = { λ text ts. true };

    ghost reading = { λ text. (entry text).read };

    fn is_next(text: &[u8], tokens: &[Token]) -> bool {
        true
    }

    fn read_next<'a>(alloc: Global, text: &[u8], tokens: &'a [Token]) -> Parsed<'a, Entry> {
        read_entry(alloc, text, tokens)
    }
}
