//! Reading sections, sources and files.
ghost use Rattle.std.specs.Prelude.{◌≡◌, ◌⊎◌, ℕ, List, IfOk, IfErr, is_some, true};
ghost use Rattle.kx_lex.specs.declared.fault.At.{At as AtValue};
ghost use Rattle.kx_lex.specs.declared.fault.Fault.{Fault as FaultValue};
ghost use Rattle.kx_lex.specs.declared.fault.Fault.TheVariants.{Memory, NumberTooBig};
ghost use Rattle.kx_lex.specs.declared.token.Token.{Token as TokenValue};
ghost use Rattle.kx_tree.specs.declared.tree.Tree.{Tree as TreeValue};
ghost use Rattle.kx_tree.specs.Geometry.{geometry, geometry_read};
ghost use Rattle.kx_lex.specs.Gives.{Gives};
ghost use Rattle.kx_lex.specs.Production.{optional, known, many, at_end};
ghost use Rattle.kx_parse.specs.Refusals.{InSourceSection, InPlainSection};
ghost use Rattle.kx_lex.specs.Stops.{StopsWithin};
ghost use Rattle.kx_lex.specs.Kinds.{front, is_text, is_mark, before_mark};
ghost use Rattle.kx_lex.specs.Tokens.{text_name, close_brace};
ghost use Rattle.kx_tree.specs.Sections.{mode_of, join_of, begins_include, begins_moded, join, mode, include, moded, modal, own, item, kind_of, flag_of, kind, flag, flags, optional_text, held_items, plain_section, geometry_body, geometry_section, flagged, section, held_sections, source, file, Spells, StopsWith, SpellsFile, FileStopsWith};

use crate::statements::read_statement;
use kx_lex::repeated::{Repeated, is_before_mark, read_many, read_many_in_room};
use kx_lex::tokens::{
    Parsed, behind_front, front_is_key_name, front_is_keyword, front_is_mark, front_is_text,
    front_is_word, front_span, is_keyword, is_mark, read_keyword, read_mark, read_text,
    span_between, syntax,
};
use kx_lex::{Fault, Keyword, Name, Row, Span, Token};
use kx_tree::{Flag, Item, Kind, Mode, Section, Stated, Statement, Tree};
use std::alloc::Global;

#[tactic(auto, unfolding(kx_tree::specs::Sections::mode_of))]
pub(crate) fn mode_of(token: &Token) -> Option<Mode>
    ensures { result ≡ mode_of token.now }
{
    if is_keyword(Keyword::Augment, token) {
        Some(Mode::Augment)
    } else if is_keyword(Keyword::Override, token) {
        Some(Mode::Override)
    } else if is_keyword(Keyword::Replace, token) {
        Some(Mode::Replace)
    } else if is_keyword(Keyword::Alternate, token) {
        Some(Mode::Override)
    } else {
        None
    }
}

#[tactic(auto, unfolding(kx_tree::specs::Sections::join_of))]
pub(crate) fn join_of(token: &Token) -> Option<Mode>
    ensures { result ≡ join_of token.now }
{
    if is_keyword(Keyword::Include, token) {
        Some(Mode::Override)
    } else {
        mode_of(token)
    }
}

fn begins_include(tokens: &[Token]) -> bool
    ensures { result ≡ begins_include tokens.now }
{
    match tokens.first() {
        Some(token) => front_is_text(behind_front(tokens)) && join_of(token).is_some(),
        None => false,
    }
}

fn begins_moded(tokens: &[Token]) -> bool
    ensures { result ≡ begins_moded tokens.now }
{
    let behind = behind_front(tokens);
    match tokens.first() {
        Some(token) => {
            (front_is_word(behind) || front_is_key_name(behind) || front_is_mark(b'!', behind))
                && mode_of(token).is_some()
        }
        None => false,
    }
}

#[tactic(auto, unfolding(kx_tree::specs::Sections::join))]
fn read_join<'a>(text: &[u8], tokens: &'a [Token]) -> Parsed<'a, Mode>
    ensures { Gives result ((join text.now).read tokens.now) }
{
    match tokens.split_first() {
        Some((token, rest)) => match join_of(token) {
            Some(mode) => Ok((mode, rest)),
            None => Err(syntax(text, tokens)),
        },
        None => Err(syntax(text, tokens)),
    }
}

#[tactic(auto, unfolding(kx_tree::specs::Sections::mode))]
fn read_mode<'a>(text: &[u8], tokens: &'a [Token]) -> Parsed<'a, Mode>
    ensures { Gives result ((mode text.now).read tokens.now) }
{
    match tokens.split_first() {
        Some((token, rest)) => match mode_of(token) {
            Some(mode) => Ok((mode, rest)),
            None => Err(syntax(text, tokens)),
        },
        None => Err(syntax(text, tokens)),
    }
}

#[tactic(auto, unfolding(kx_tree::specs::Sections::include))]
fn read_include<'a>(alloc: Global, text: &[u8], tokens: &'a [Token]) -> Parsed<'a, Item>
    ensures { Gives result ((include text.now).read tokens.now) }
{
    let (mode, rest) = read_join(text, tokens)?;
    let (name, rest) = read_text(alloc, text, rest)?;
    let span = span_between(tokens, rest);
    Ok((
        Item::Include {
            mode,
            text: name,
            span,
        },
        rest,
    ))
}

#[tactic(auto, unfolding(kx_tree::specs::Sections::moded))]
#[inline(always)]
fn read_moded<'a>(
    alloc: Global,
    text: &[u8],
    mode: Mode,
    tokens: &'a [Token],
) -> Parsed<'a, (Mode, Statement, Span)>
    ensures { Gives result ((moded text.now mode).read tokens.now) }
{
    let first = front_span(tokens);
    let (statement, rest) = read_statement(alloc, text, tokens)?;
    let (_, rest) = read_mark(text, b';', rest)?;
    Ok(((mode, statement, first), rest))
}

#[tactic(auto, unfolding(kx_tree::specs::Sections::modal))]
fn read_modal<'a>(
    alloc: Global,
    text: &[u8],
    tokens: &'a [Token],
) -> Parsed<'a, (Mode, Statement, Span)>
    ensures { Gives result ((modal text.now).read tokens.now) }
{
    let (mode, rest) = read_mode(text, tokens)?;
    read_moded(alloc, text, mode, rest)
}

#[tactic(auto, unfolding(kx_tree::specs::Sections::own))]
fn read_own<'a>(alloc: Global, text: &[u8], tokens: &'a [Token]) -> Parsed<'a, Item>
    ensures { Gives result ((own text.now).read tokens.now) }
{
    let ((mode, statement, first), rest) = if begins_moded(tokens) {
        read_modal(alloc, text, tokens)?
    } else {
        read_moded(alloc, text, Mode::Override, tokens)?
    };
    let span = span_between(tokens, rest);
    Ok((
        Item::Statement(Stated {
            mode,
            statement,
            first,
            span,
        }),
        rest,
    ))
}

#[tactic(auto, unfolding(kx_tree::specs::Sections::item))]
fn read_item<'a>(alloc: Global, text: &[u8], tokens: &'a [Token]) -> Parsed<'a, Item>
    ensures { Gives result ((item text.now).read tokens.now) }
{
    if begins_include(tokens) {
        return read_include(alloc, text, tokens);
    }
    read_own(alloc, text, tokens)
}

struct Items;

impl Repeated for Items {
    type Value = Item;

    ghost test = { λ text. before_mark close_brace };

    ghost reading = { λ text. (item text).read };

    fn is_next(text: &[u8], tokens: &[Token]) -> bool {
        is_before_mark(b'}', tokens)
    }

    fn read_next<'a>(alloc: Global, text: &[u8], tokens: &'a [Token]) -> Parsed<'a, Item> {
        read_item(alloc, text, tokens)
    }
}

#[tactic(auto, unfolding(kx_tree::specs::Sections::kind_of))]
pub(crate) fn kind_of(token: &Token) -> Option<Kind>
    ensures { result ≡ kind_of token.now }
{
    if is_keyword(Keyword::XkbKeycodes, token) {
        Some(Kind::Keycodes)
    } else if is_keyword(Keyword::XkbTypes, token) {
        Some(Kind::Types)
    } else if is_keyword(Keyword::XkbSymbols, token) {
        Some(Kind::Symbols)
    } else if is_keyword(Keyword::XkbCompatibility, token) {
        Some(Kind::Compat)
    } else if is_keyword(Keyword::XkbCompat, token) {
        Some(Kind::Compat)
    } else if is_keyword(Keyword::XkbCompatMap, token) {
        Some(Kind::Compat)
    } else if is_keyword(Keyword::XkbCompatibilityMap, token) {
        Some(Kind::Compat)
    } else {
        None
    }
}

#[tactic(auto, unfolding(kx_tree::specs::Sections::flag_of))]
pub(crate) fn flag_of(token: &Token) -> Option<Flag>
    ensures { result ≡ flag_of token.now }
{
    if is_keyword(Keyword::Default, token) {
        Some(Flag::Default)
    } else if is_keyword(Keyword::Partial, token) {
        Some(Flag::Partial)
    } else if is_keyword(Keyword::Hidden, token) {
        Some(Flag::Hidden)
    } else if is_keyword(Keyword::AlphanumericKeys, token) {
        Some(Flag::AlphanumericKeys)
    } else if is_keyword(Keyword::ModifierKeys, token) {
        Some(Flag::ModifierKeys)
    } else if is_keyword(Keyword::KeypadKeys, token) {
        Some(Flag::KeypadKeys)
    } else if is_keyword(Keyword::FunctionKeys, token) {
        Some(Flag::FunctionKeys)
    } else if is_keyword(Keyword::AlternateGroup, token) {
        Some(Flag::AlternateGroup)
    } else {
        None
    }
}

#[tactic(auto, unfolding(kx_tree::specs::Sections::kind))]
fn read_kind<'a>(text: &[u8], tokens: &'a [Token]) -> Parsed<'a, Kind>
    ensures { Gives result ((kind text.now).read tokens.now) }
{
    match tokens.split_first() {
        Some((token, rest)) => match kind_of(token) {
            Some(kind) => Ok((kind, rest)),
            None => Err(syntax(text, tokens)),
        },
        None => Err(syntax(text, tokens)),
    }
}

#[tactic(auto, unfolding(kx_tree::specs::Sections::flag))]
fn read_flag<'a>(text: &[u8], tokens: &'a [Token]) -> Parsed<'a, Flag>
    ensures { Gives result ((flag text.now).read tokens.now) }
{
    match tokens.split_first() {
        Some((token, rest)) => match flag_of(token) {
            Some(flag) => Ok((flag, rest)),
            None => Err(syntax(text, tokens)),
        },
        None => Err(syntax(text, tokens)),
    }
}

struct Flags;

impl Repeated for Flags {
    type Value = Flag;

    ghost test = { λ text. front (λ t. is_some (flag_of t)) };

    ghost reading = { λ text. (flag text).read };

    fn is_next(text: &[u8], tokens: &[Token]) -> bool {
        match tokens.first() {
            Some(token) => flag_of(token).is_some(),
            None => false,
        }
    }

    fn read_next<'a>(alloc: Global, text: &[u8], tokens: &'a [Token]) -> Parsed<'a, Flag> {
        read_flag(text, tokens)
    }
}

#[tactic(auto, unfolding(kx_tree::specs::Sections::flags))]
fn read_flags<'a>(alloc: Global, text: &[u8], tokens: &'a [Token]) -> Parsed<'a, Row<Flag>>
    ensures { Gives result ((flags text.now).read tokens.now) }
{
    read_many::<Flags>(alloc, text, tokens)
}

#[tactic(auto, unfolding(kx_tree::specs::Sections::optional_text))]
fn read_optional_text<'a>(
    alloc: Global,
    text: &[u8],
    tokens: &'a [Token],
) -> Parsed<'a, Option<Name>>
    ensures { Gives result ((optional_text text.now).read tokens.now) }
{
    if !front_is_text(tokens) {
        return Ok((None, tokens));
    }
    let (name, rest) = read_text(alloc, text, tokens)?;
    Ok((Some(name), rest))
}

/// Few items have fewer tokens, so that most lists of items never move.
const USUAL_ITEM_TOKENS: usize = 8;

/// Room for this many items at most is made before they are read, so that it comes from the heap: glibc's `malloc` maps a greater
/// block by itself, and each of many small sections would keep a page.
const MOST_ROOM: usize = 800;

#[tactic(auto, unfolding(kx_tree::specs::Sections::held_items))]
fn read_held_items<'a>(alloc: Global, text: &[u8], tokens: &'a [Token]) -> Parsed<'a, Row<Item>>
    ensures { Gives result ((held_items text.now).read tokens.now) }
{
    let (_, rest) = read_mark(text, b'{', tokens)?;
    let room = (rest.len() / USUAL_ITEM_TOKENS).min(MOST_ROOM);
    let (items, rest) = read_many_in_room::<Items>(alloc, text, room, rest)?;
    let (_, rest) = read_mark(text, b'}', rest)?;
    Ok((items.fitted(), rest))
}

#[tactic(auto, unfolding(kx_tree::specs::Sections::plain_section))]
fn read_plain_section<'a>(
    alloc: Global,
    text: &[u8],
    flags: Row<Flag>,
    tokens: &'a [Token],
) -> Parsed<'a, Section>
    ensures { Gives result ((plain_section text.now flags).read tokens.now) }
{
    let (kind, rest) = read_kind(text, tokens)?;
    let (name, rest) = read_optional_text(alloc, text, rest)?;
    let (items, rest) = read_held_items(alloc, text, rest)?;
    Ok((
        Section {
            flags,
            kind,
            name,
            items,
        },
        rest,
    ))
}

/// Passes over geometry, up to the brace that closes it; braces are counted.
#[tactic(auto, unfolding(kx_tree::specs::Geometry::geometry))]
fn read_geometry<'a>(text: &[u8], tokens: &'a [Token]) -> Parsed<'a, ()>
    ensures { Gives result ((geometry text.now).read tokens.now) }
{
    let mut depth: usize = 0;
    for (i, token) in tokens.iter().enumerate() {
        if is_mark(b'{', token) {
            depth += 1;
        } else if is_mark(b'}', token) {
            if depth == 0 {
                return Ok(((), &tokens[i..]));
            }
            depth -= 1;
        }
    }
    Err(syntax(text, &[]))
}

#[tactic(auto, unfolding(kx_tree::specs::Sections::geometry_body))]
fn read_geometry_body<'a>(text: &[u8], tokens: &'a [Token]) -> Parsed<'a, ()>
    ensures { Gives result ((geometry_body text.now).read tokens.now) }
{
    let (_, rest) = read_mark(text, b'{', tokens)?;
    let (_, rest) = read_geometry(text, rest)?;
    let (_, rest) = read_mark(text, b'}', rest)?;
    Ok(((), rest))
}

#[tactic(auto, unfolding(kx_tree::specs::Sections::geometry_section))]
fn read_geometry_section<'a>(
    alloc: Global,
    text: &[u8],
    flags: Row<Flag>,
    tokens: &'a [Token],
) -> Parsed<'a, Section>
    ensures { Gives result ((geometry_section text.now flags).read tokens.now) }
{
    let (_, rest) = read_keyword(text, Keyword::XkbGeometry, tokens)?;
    let (name, rest) = read_optional_text(alloc, text, rest)?;
    let (_, rest) = read_geometry_body(text, rest)?;
    Ok((
        Section {
            flags,
            kind: Kind::Geometry,
            name,
            items: Row::of(Vec::new(alloc)),
        },
        rest,
    ))
}

#[tactic(auto, unfolding(kx_tree::specs::Sections::flagged))]
fn read_flagged<'a>(
    alloc: Global,
    text: &[u8],
    flags: Row<Flag>,
    tokens: &'a [Token],
) -> Parsed<'a, Section>
    ensures { Gives result ((flagged text.now flags).read tokens.now) }
{
    if front_is_keyword(Keyword::XkbGeometry, tokens) {
        return read_geometry_section(alloc, text, flags, tokens);
    }
    read_plain_section(alloc, text, flags, tokens)
}

#[tactic(auto, unfolding(kx_tree::specs::Sections::section))]
pub(crate) fn read_section<'a>(
    alloc: Global,
    text: &[u8],
    tokens: &'a [Token],
) -> Parsed<'a, Section>
    ensures { Gives result ((section text.now).read tokens.now) }
{
    let (flags, rest) = read_flags(alloc, text, tokens)?;
    let (section, rest) = read_flagged(alloc, text, flags, rest)?;
    let (_, rest) = read_mark(text, b';', rest)?;
    Ok((section, rest))
}

struct HeldSections;

impl Repeated for HeldSections {
    type Value = Section;

    ghost test = { λ text. before_mark close_brace };

    ghost reading = { λ text. (section text).read };

    fn is_next(text: &[u8], tokens: &[Token]) -> bool {
        is_before_mark(b'}', tokens)
    }

    fn read_next<'a>(alloc: Global, text: &[u8], tokens: &'a [Token]) -> Parsed<'a, Section> {
        read_section(alloc, text, tokens)
    }
}

struct FileSections;

impl Repeated for FileSections {
    type Value = Section;

    ghost test = { λ text. front (λ _. true) };

    ghost reading = { λ text. (section text).read };

    fn is_next(text: &[u8], tokens: &[Token]) -> bool {
        !tokens.is_empty()
    }

    fn read_next<'a>(alloc: Global, text: &[u8], tokens: &'a [Token]) -> Parsed<'a, Section> {
        read_section(alloc, text, tokens)
    }
}

#[tactic(auto, unfolding(kx_tree::specs::Sections::held_sections))]
fn read_held_sections<'a>(
    alloc: Global,
    text: &[u8],
    tokens: &'a [Token],
) -> Parsed<'a, Row<Section>>
    ensures { Gives result ((held_sections text.now).read tokens.now) }
{
    let (_, rest) = read_mark(text, b'{', tokens)?;
    let (sections, rest) = read_many::<HeldSections>(alloc, text, rest)?;
    let (_, rest) = read_mark(text, b'}', rest)?;
    Ok((sections, rest))
}

fn read_end<'a>(text: &[u8], tokens: &'a [Token]) -> Parsed<'a, ()>
    ensures { Gives result (at_end.read tokens.now) }
{
    if tokens.is_empty() {
        Ok(((), tokens))
    } else {
        Err(syntax(text, tokens))
    }
}

#[tactic(auto, unfolding(kx_tree::specs::Sections::source))]
fn read_source<'a>(alloc: Global, text: &[u8], tokens: &'a [Token]) -> Parsed<'a, Tree>
    ensures { Gives result ((source text.now).read tokens.now) }
{
    let (_, rest) = read_flags(alloc, text, tokens)?;
    let (_, rest) = read_keyword(text, Keyword::XkbKeymap, rest)?;
    let (_, rest) = read_optional_text(alloc, text, rest)?;
    let (sections, rest) = read_held_sections(alloc, text, rest)?;
    let (_, rest) = read_mark(text, b';', rest)?;
    let (_, rest) = read_end(text, rest)?;
    Ok((Tree { sections }, rest))
}

#[tactic(auto, unfolding(kx_tree::specs::Sections::file))]
fn read_file<'a>(alloc: Global, text: &[u8], tokens: &'a [Token]) -> Parsed<'a, Tree>
    ensures { Gives result ((file text.now).read tokens.now) }
{
    let (sections, rest) = read_many::<FileSections>(alloc, text, tokens)?;
    let (_, rest) = read_end(text, rest)?;
    Ok((Tree { sections }, rest))
}

/// The tree of a source's tokens, which are those of `text`. Tokens spell one tree at most.
///
/// # Errors
/// `Syntax` at the first token that may not stand where it does, or at the end; `NumberTooBig` at
/// a number of 2^32 or more outside geometry; both in file 0. `Memory` where a growth is refused.
pub fn parse(alloc: Global, text: &[u8], tokens: &[Token]) -> Result<Tree, Fault>
    ensures spelled { IfOk result (λ tree. Spells text.now tokens.now tree) }
    ensures stopped { IfErr result (λ e. (e ≡ Memory) ⊎ StopsWith text.now tokens.now e) }
    ensures complete { (tree : TreeValue) → Spells text.now tokens.now tree
        → IfErr result (λ e. e ≡ Memory) }
{
    let (tree, _rest) = read_source(alloc, text, tokens)?;
    Ok(tree)
}

/// The tree of an include file's tokens, which are those of `text`: sections alone.
///
/// # Errors
/// As those of [`parse`].
pub fn parse_file(alloc: Global, text: &[u8], tokens: &[Token]) -> Result<Tree, Fault>
    ensures spelled { IfOk result (λ tree. SpellsFile text.now tokens.now tree) }
    ensures stopped { IfErr result (λ e. (e ≡ Memory) ⊎ FileStopsWith text.now tokens.now e) }
    ensures complete { (tree : TreeValue) → SpellsFile text.now tokens.now tree
        → IfErr result (λ e. e ≡ Memory) }
{
    let (tree, _rest) = read_file(alloc, text, tokens)?;
    Ok(tree)
}

/// What a stop of [`parse`] and [`parse_file`] means. It stands at a token, or at the end: there the
/// fault is `Syntax`, or `NumberTooBig` where that token is a number of 2^32 or more. Such a number
/// stands in a section that is not geometry: after whole sections, and after the flags of one
/// more, where `xkb_geometry` does not stand.
pub fn stops()
    ensures source { (text : List ℕ) (tokens : List TokenValue) (e : FaultValue)
        → StopsWith text tokens e → StopsWithin text tokens e }
    ensures file { (text : List ℕ) (tokens : List TokenValue) (e : FaultValue)
        → FileStopsWith text tokens e → StopsWithin text tokens e }
    ensures source_number { (text : List ℕ) (tokens : List TokenValue) (at : AtValue)
        → StopsWith text tokens (NumberTooBig at) → InSourceSection text tokens (NumberTooBig at) }
    ensures file_number { (text : List ℕ) (tokens : List TokenValue) (at : AtValue)
        → FileStopsWith text tokens (NumberTooBig at)
        → InPlainSection text tokens (NumberTooBig at) }
{}

/// Tokens stop the reading with one fault at most, and those that do spell no tree.
pub fn one_stop()
    ensures source { (text : List ℕ) (tokens : List TokenValue) (e f : FaultValue)
        → StopsWith text tokens e → StopsWith text tokens f → e ≡ f }
    ensures file { (text : List ℕ) (tokens : List TokenValue) (e f : FaultValue)
        → FileStopsWith text tokens e → FileStopsWith text tokens f → e ≡ f }
    ensures source_spelled { (text : List ℕ) (tokens : List TokenValue) (e : FaultValue)
        (tree : TreeValue) → StopsWith text tokens e → Spells text tokens tree → ⊥ }
    ensures file_spelled { (text : List ℕ) (tokens : List TokenValue) (e : FaultValue)
        (tree : TreeValue) → FileStopsWith text tokens e → SpellsFile text tokens tree → ⊥ }
{}

/// Tokens spell one tree of a source at most, and one of a file.
pub fn one_tree()
    ensures source { (text : List ℕ) (tokens : List TokenValue) (s t : TreeValue)
        → Spells text tokens s → Spells text tokens t → s ≡ t }
    ensures file { (text : List ℕ) (tokens : List TokenValue) (s t : TreeValue)
        → SpellsFile text tokens s → SpellsFile text tokens t → s ≡ t }
{}
