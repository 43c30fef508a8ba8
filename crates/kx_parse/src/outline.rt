//! What the sections of a text are, without the statements in them.
ghost use Rattle.std.specs.Prelude.{◌≡◌, ◌≤◌, ◌<◌, ◌-◌, ◌+◌, ◌==◌, ◌&&◌, ◌++◌, [], ◌∷◌, true, false, ℕ, List, Some, None, filter, get_or, length, map, IfErr, IfNone, IfOk, IfSome};
ghost use Rattle.kx_lex.specs.declared.fault.Fault.TheVariants.{Memory};
ghost use Rattle.kx_lex.specs.Passing.{Ends, IsAtToken, front_byte, Passes, PassesAs, PassesTo, PassesWord};
ghost use Rattle.kx_lex.specs.Production.{spanned};
ghost use Rattle.kx_lex.specs.Tokens.{close_brace, text_name};
ghost use Rattle.kx_lex.specs.declared.scan.TheConstants.{MOST_TEXT_BYTES};
ghost use Rattle.kx_lex.specs.declared.token.TokenKind.TheVariants.{Word};
ghost use Rattle.kx_tree.specs.Forms.{ended};
ghost use Rattle.kx_tree.specs.Geometry.{geometry};
ghost use Rattle.kx_parse.specs.Outline.{BeginsNoInclude, BeginsNoModed, EndSections, HasNoSectionAt, IsNumbered, IsSectionAt, IsSourceOutline, StandElsewhere, built_from, outline_from, sections_before, source_end, source_front, IsJoinWord, IsKindWord, IsModeWord, IsNoFlag, IsOutline, PassesDeep, held_by, include_at, is_include, items_ended, outline_of};
ghost use Rattle.kx_tree.specs.Sections.{flag, flagged, flags, item, optional_text, section};

use crate::sections::{flag_of, join_of, kind_of, mode_of, read_section};
use kx_lex::passing::{
    first_in, front_is, front_is_word, pass_keyword, pass_mark, pass_name, pass_token, span_at,
};
use kx_lex::tokens::is_keyword;
use kx_lex::{Fault, Keyword, MOST_TEXT_BYTES, Name, Row, Span, Token, TokenKind, lex_front};
use kx_tree::passing_statements::{pass_statement, pass_statement_behind};
use kx_tree::{Flag, Item, Kind, Mode, Section};
use std::alloc::{AllocError, Global};

/// The sections of a text without their statements, and where each stands, from its first token to its `;`.
pub struct Outline {
    pub sections: Row<Section>,
    pub places: Row<Span>,
}

impl Drop for Outline {
    fn drop(self) {
        let Outline {
            sections: _,
            places: _,
        } = self;
    }
}

/// What is known of a value that is passed over, and what stands after it; nothing where none is spelled, and an error where
/// a growth is refused.
type Outlined<'t, T> = Result<Option<(T, &'t [u8])>, AllocError>;

/// A word that spells this keyword, or none.
fn word_token(keyword: Option<Keyword>) -> Token
    ensures { result.kind ≡ Word keyword }
{
    Token {
        kind: TokenKind::Word(keyword),
        span: Span { start: 0, stop: 0 },
    }
}

/// The mode in which an include joins what stands before it, where its word and its text stand there.
fn include_mode(word: Option<Keyword>, bytes: &[u8]) -> Option<Mode>
    requires { IsAtToken bytes.now }
    ensures some { IfSome result (λ mode. IsJoinWord mode word) }
    ensures none { IfNone result (BeginsNoInclude word bytes.now) }
{
    let mode = join_of(&word_token(word))?;
    if !front_is(b'"', bytes) {
        return None;
    }
    Some(mode)
}

/// Whether bytes after a mode's word begin a statement in that mode.
fn front_is_moded(word: Option<Keyword>, bytes: &[u8]) -> bool
    requires { IsAtToken bytes.now }
    ensures some { result ≡ true → IsModeWord word }
    ensures none { result ≡ false → BeginsNoModed word bytes.now }
{
    if mode_of(&word_token(word)).is_none() {
        return false;
    }
    front_is_word(bytes) || front_is(b'<', bytes) || front_is(b'!', bytes)
}

/// Passes the text of an include, whose word stands at `start`, and answers it.
fn pass_include<'t>(
    alloc: Global,
    text: &[u8],
    mode: Mode,
    start: &[u8],
    bytes: &'t [u8],
) -> Outlined<'t, Item>
    requires starts { Ends text.now start.now }
    requires ends { Ends text.now bytes.now }
    requires short { length text.now ≤ MOST_TEXT_BYTES }
    ensures passes { IfOk result (λ o. IfSome o (λ p.
        PassesAs text.now (text_name text.now)
        (λ n. p.0 ≡ include_at mode (length text.now - length start.now) n)
        bytes.now p.1.now)) }
    ensures within { IfOk result (λ o. IfSome o (λ p. length p.1.now < length bytes.now)) }
    ensures at { IfOk result (λ o. IfSome o (λ p. IsAtToken p.1.now)) }
{
    let Some((name, rest)) = pass_name(alloc, text, bytes)? else {
        return Ok(None);
    };
    let span = Span {
        start: span_at(text, start, 0).start,
        stop: name.span.stop,
    };
    let include = Item::Include {
        mode,
        text: name,
        span,
    };
    Ok(Some((include, rest)))
}

/// Passes an item of a section, and adds it where it is an include.
fn pass_item<'t>(
    alloc: Global,
    text: &[u8],
    bytes: &'t [u8],
    includes: &mut Vec<Item>,
) -> Result<Option<&'t [u8]>, AllocError>
    requires ends { Ends text.now bytes.now }
    requires short { length text.now ≤ MOST_TEXT_BYTES }
    requires at { IsAtToken bytes.now }
    ensures passes { IfOk result (λ o. IfSome o (λ rest.
        PassesAs text.now (item text.now)
        (λ i. includes.new.items ≡ includes.old.items ++ filter is_include (i ∷ []))
        bytes.now rest.now)) }
    ensures within { IfOk result (λ o. IfSome o (λ rest. length rest.now < length bytes.now)) }
    ensures at { IfOk result (λ o. IfSome o (λ rest. IsAtToken rest.now)) }
{
    let Some((word, behind)) = pass_keyword(bytes) else {
        return Ok(pass_statement(bytes));
    };
    if let Some(mode) = include_mode(word, behind) {
        let Some((include, rest)) = pass_include(alloc, text, mode, bytes, behind)? else {
            return Ok(None);
        };
        includes.push(include)?;
        return Ok(Some(rest));
    }
    if front_is_moded(word, behind) {
        return Ok(pass_statement(behind));
    }
    Ok(pass_statement_behind(word, behind))
}

/// Passes the items of a section and the brace that closes it, and answers the includes among them.
fn pass_items<'t>(alloc: Global, text: &[u8], bytes: &'t [u8]) -> Outlined<'t, Row<Item>>
    requires ends { Ends text.now bytes.now }
    requires short { length text.now ≤ MOST_TEXT_BYTES }
    requires at { IsAtToken bytes.now }
    ensures passes { IfOk result (λ o. IfSome o (λ p.
        PassesAs text.now (items_ended text.now) (λ is. p.0 ≡ filter is_include is)
        bytes.now p.1.now)) }
    ensures within { IfOk result (λ o. IfSome o (λ p. length p.1.now < length bytes.now)) }
    ensures at { IfOk result (λ o. IfSome o (λ p. IsAtToken p.1.now)) }
{
    let mut includes = Vec::new(alloc);
    let mut rest = bytes;
    'items: while !front_is(b'}', rest) {
        let Some(left) = pass_item(alloc, text, rest, &mut includes)? else {
            return Ok(None);
        };
        rest = left;
    }
    match pass_mark(b'}', rest) {
        Some(left) => Ok(Some((Row::of(includes).fitted(), left))),
        None => Ok(None),
    }
}

/// Whether the brace that closes geometry stands at the front, with so many open braces before it.
fn ends_geometry(depth: usize, bytes: &[u8]) -> bool
    ensures { result ≡ (depth == 0 && front_byte 125 bytes.now) }
{
    depth == 0 && front_is(b'}', bytes)
}

/// Passes a token of geometry with so many open braces before it, and answers how many there are after it.
fn pass_deeper(depth: usize, bytes: &[u8]) -> Option<(usize, &[u8])>
    requires short { depth + length bytes.now ≤ MOST_TEXT_BYTES }
    requires at { IsAtToken bytes.now }
    ensures passes { IfSome result (λ p. (end : List ℕ) → PassesDeep p.0 p.1.now end
        → PassesDeep depth bytes.now end) }
    ensures deeper { IfSome result (λ p. p.0 + length p.1.now ≤ depth + length bytes.now) }
    ensures within { IfSome result (λ p. length p.1.now < length bytes.now) }
    ensures at { IfSome result (λ p. IsAtToken p.1.now) }
{
    if front_is(b'{', bytes) {
        let rest = pass_mark(b'{', bytes)?;
        return Some((depth + 1, rest));
    }
    if !front_is(b'}', bytes) {
        let rest = pass_token(bytes)?;
        return Some((depth, rest));
    }
    if depth == 0 {
        return None;
    }
    let rest = pass_mark(b'}', bytes)?;
    Some((depth - 1, rest))
}

/// Passes geometry and the brace that closes it; braces are counted.
fn pass_geometry(bytes: &[u8]) -> Option<&[u8]>
    requires short { length bytes.now ≤ MOST_TEXT_BYTES }
    requires at { IsAtToken bytes.now }
    ensures passes { IfSome result (λ rest.
        Passes (λ text. ended text close_brace (geometry text)) bytes.now rest.now) }
    ensures within { IfSome result (λ rest. length rest.now < length bytes.now) }
    ensures at { IfSome result (λ rest. IsAtToken rest.now) }
{
    let mut depth: usize = 0;
    let mut rest = bytes;
    'tokens: while !ends_geometry(depth, rest) {
        let (inner, left) = pass_deeper(depth, rest)?;
        depth = inner;
        rest = left;
    }
    pass_mark(b'}', rest)
}

/// Passes a word that flags a section.
fn pass_flag(bytes: &[u8]) -> Option<(Flag, &[u8])>
    requires { IsAtToken bytes.now }
    ensures passes { IfSome result (λ p. PassesTo flag p.0 bytes.now p.1.now) }
    ensures none { IfNone result (IsNoFlag bytes.now) }
    ensures within { IfSome result (λ p. length p.1.now < length bytes.now) }
    ensures at { IfSome result (λ p. IsAtToken p.1.now) }
{
    let (word, rest) = pass_keyword(bytes)?;
    let flag = flag_of(&word_token(word))?;
    Some((flag, rest))
}

fn pass_flags<'t>(alloc: Global, bytes: &'t [u8]) -> Result<(Row<Flag>, &'t [u8]), AllocError>
    requires { IsAtToken bytes.now }
    ensures passes { IfOk result (λ p. PassesTo flags p.0 bytes.now p.1.now) }
    ensures within { IfOk result (λ p. length p.1.now ≤ length bytes.now) }
    ensures at { IfOk result (λ p. IsAtToken p.1.now) }
{
    let mut flags = Vec::new(alloc);
    let mut rest = bytes;
    'flags: while let Some((flag, left)) = pass_flag(rest) {
        flags.push(flag)?;
        rest = left;
    }
    Ok((Row::of(flags), rest))
}

fn pass_optional_name<'t>(alloc: Global, text: &[u8], bytes: &'t [u8]) -> Outlined<'t, Option<Name>>
    requires ends { Ends text.now bytes.now }
    requires short { length text.now ≤ MOST_TEXT_BYTES }
    requires at { IsAtToken bytes.now }
    ensures passes { IfOk result (λ o. IfSome o (λ p.
        PassesAs text.now (optional_text text.now) (λ n. n ≡ p.0) bytes.now p.1.now)) }
    ensures within { IfOk result (λ o. IfSome o (λ p. length p.1.now ≤ length bytes.now)) }
    ensures at { IfOk result (λ o. IfSome o (λ p. IsAtToken p.1.now)) }
{
    if !front_is(b'"', bytes) {
        return Ok(Some((None, bytes)));
    }
    match pass_name(alloc, text, bytes)? {
        Some((name, rest)) => Ok(Some((Some(name), rest))),
        None => Ok(None),
    }
}

/// Passes the braces of a section of a kind, and answers the includes between them.
fn pass_held<'t>(alloc: Global, text: &[u8], kind: Kind, bytes: &'t [u8]) -> Outlined<'t, Row<Item>>
    requires ends { Ends text.now bytes.now }
    requires short { length text.now ≤ MOST_TEXT_BYTES }
    ensures passes { IfOk result (λ o. IfSome o (λ p.
        PassesAs text.now (held_by text.now kind) (λ is. p.0 ≡ filter is_include is) bytes.now
        p.1.now)) }
    ensures within { IfOk result (λ o. IfSome o (λ p. length p.1.now < length bytes.now)) }
    ensures at { IfOk result (λ o. IfSome o (λ p. IsAtToken p.1.now)) }
{
    let Some(first) = pass_mark(b'{', bytes) else {
        return Ok(None);
    };
    match kind {
        Kind::Geometry => match pass_geometry(first) {
            Some(rest) => Ok(Some((Row::of(Vec::new(alloc)), rest))),
            None => Ok(None),
        },
        _ => pass_items(alloc, text, first),
    }
}

/// The kind of section that a word begins.
fn section_kind(word: Option<Keyword>) -> Option<Kind>
    ensures { IfSome result (λ kind. IsKindWord kind word) }
{
    let token = word_token(word);
    if is_keyword(Keyword::XkbGeometry, &token) {
        return Some(Kind::Geometry);
    }
    kind_of(&token)
}

/// Passes a section after its flags, without its `;`, and answers it without its statements.
fn pass_flagged<'t>(
    alloc: Global,
    text: &[u8],
    flags: Row<Flag>,
    bytes: &'t [u8],
) -> Outlined<'t, Section>
    requires ends { Ends text.now bytes.now }
    requires short { length text.now ≤ MOST_TEXT_BYTES }
    ensures passes { IfOk result (λ o. IfSome o (λ p.
        PassesAs text.now (flagged text.now flags) (λ s. p.0 ≡ outline_of s) bytes.now
        p.1.now)) }
    ensures within { IfOk result (λ o. IfSome o (λ p. length p.1.now < length bytes.now)) }
    ensures at { IfOk result (λ o. IfSome o (λ p. IsAtToken p.1.now)) }
{
    let Some((word, behind)) = pass_keyword(bytes) else {
        return Ok(None);
    };
    let Some(kind) = section_kind(word) else {
        return Ok(None);
    };
    let Some((name, open)) = pass_optional_name(alloc, text, behind)? else {
        return Ok(None);
    };
    let Some((items, rest)) = pass_held(alloc, text, kind, open)? else {
        return Ok(None);
    };
    let section = Section {
        flags,
        kind,
        name,
        items,
    };
    Ok(Some((section, rest)))
}

/// Passes a section, and answers it without its statements, and where it stands.
fn pass_section<'t>(alloc: Global, text: &[u8], bytes: &'t [u8]) -> Outlined<'t, (Section, Span)>
    requires ends { Ends text.now bytes.now }
    requires short { length text.now ≤ MOST_TEXT_BYTES }
    requires at { IsAtToken bytes.now }
    ensures passes { IfOk result (λ o. IfSome o (λ p.
        PassesAs text.now (spanned (section text.now))
        (λ s. p.0 ≡ (outline_of s.0, s.1)) bytes.now p.1.now)) }
    ensures within { IfOk result (λ o. IfSome o (λ p. length p.1.now < length bytes.now)) }
    ensures at { IfOk result (λ o. IfSome o (λ p. IsAtToken p.1.now)) }
{
    let (flags, kind) = pass_flags(alloc, bytes)?;
    let Some((section, end)) = pass_flagged(alloc, text, flags, kind)? else {
        return Ok(None);
    };
    let Some(rest) = pass_mark(b';', end) else {
        return Ok(None);
    };
    let span = Span {
        start: span_at(text, bytes, 0).start,
        stop: span_at(text, end, 1).stop,
    };
    Ok(Some(((section, span), rest)))
}

/// The section of a file that stands at a place; nothing where none stands there.
///
/// # Errors
/// `Memory`.
fn section_at(alloc: Global, text: &[u8], place: Span) -> Result<Option<Section>, Fault>
    requires { length text.now ≤ MOST_TEXT_BYTES }
    ensures section { IfOk result (λ o. IfSome o (λ section. IsSectionAt text.now place section)) }
    ensures none { IfOk result (λ o. IfNone o (HasNoSectionAt text.now place)) }
    ensures err { IfErr result (λ e. e ≡ Memory) }
{
    let tokens = lex_front(alloc, text, place)?;
    match read_section(alloc, text, tokens.as_slice()) {
        Ok((section, _)) => Ok(Some(section)),
        Err(fault) => {
            if fault.is_memory() {
                return Err(fault);
            }
            Ok(None)
        }
    }
}

/// The section of a number, counted from 0, of a file whose sections stand at these places; nothing where they don't.
///
/// # Errors
/// `Memory`.
fn numbered(
    alloc: Global,
    text: &[u8],
    places: &[Span],
    number: usize,
) -> Result<Option<Section>, Fault>
    requires short { length text.now ≤ MOST_TEXT_BYTES }
    requires within { number < length places.now }
    ensures section { IfOk result (λ o. IfSome o (λ section.
        IsNumbered text.now places.now number section)) }
    ensures none { IfOk result (λ o. IfNone o (StandElsewhere text.now places.now)) }
    ensures err { IfErr result (λ e. e ≡ Memory) }
{
    match places.get(number) {
        Some(place) => section_at(alloc, text, *place),
        None => unreachable!(),
    }
}

/// Whether the section of a number is wanted; it isn't where there is no flag for it.
fn is_wanted(wanted: &[bool], number: usize) -> bool
    ensures { result ≡ get_or wanted.now number false }
{
    match wanted.get(number) {
        Some(flag) => *flag,
        None => false,
    }
}

/// The sections of an outline of a text that are wanted, with their statements. Nothing where the outline isn't the text's.
///
/// # Errors
/// `Memory`.
pub fn built_sections(
    alloc: Global,
    text: &[u8],
    outline: &Outline,
    wanted: &[bool],
) -> Result<Option<Vec<Option<Section>>>, Fault>
    ensures built { IfOk result (λ o. IfSome o (λ built. (is : IsOutline text.now outline.now)
        → built.items ≡ built_from wanted.now (map (λ s. s.0) is.sections))) }
    ensures none { IfOk result (λ o. IfNone o (length text.now ≤ MOST_TEXT_BYTES
        → IsOutline text.now outline.now → ⊥)) }
    ensures err { IfErr result (λ e. e ≡ Memory) }
{
    if text.len() > MOST_TEXT_BYTES {
        return Ok(None);
    }
    let places = outline.places.as_slice();
    let mut built = Vec::new(alloc);
    'sections: for number in 0..places.len() {
        if !is_wanted(wanted, number) {
            built.push(None)?;
            continue;
        }
        let Some(section) = numbered(alloc, text, places, number)? else {
            return Ok(None);
        };
        built.push(Some(section))?;
    }
    Ok(Some(built))
}

/// Whether sections end here: at the brace that closes them, or at the end.
fn end_sections(bytes: &[u8]) -> bool
    ensures { result ≡ true → EndSections bytes.now }
{
    match pass_mark(b'}', bytes) {
        Some(_) => true,
        None => bytes.is_empty(),
    }
}

/// Passes sections up to the brace that closes them, or to the end, and answers their outline.
fn pass_sections<'t>(alloc: Global, text: &[u8], bytes: &'t [u8]) -> Outlined<'t, Outline>
    requires ends { Ends text.now bytes.now }
    requires short { length text.now ≤ MOST_TEXT_BYTES }
    requires at { IsAtToken bytes.now }
    ensures { IfOk result (λ o. IfSome o (λ p.
        PassesAs text.now (sections_before text.now) (λ ss. p.0 ≡ outline_from ss) bytes.now
        p.1.now)) }
{
    let mut sections = Vec::new(alloc);
    let mut places = Vec::new(alloc);
    let mut rest = bytes;
    'sections: while !end_sections(rest) {
        let Some((placed, left)) = pass_section(alloc, text, rest)? else {
            return Ok(None);
        };
        let (section, place) = placed;
        sections.push(section)?;
        places.push(place)?;
        rest = left;
    }
    let outline = Outline {
        sections: Row::of(sections).fitted(),
        places: Row::of(places).fitted(),
    };
    Ok(Some((outline, rest)))
}

/// The outline of a file; nothing where the file has no tree.
///
/// # Errors
/// Where a growth is refused.
pub fn outline_file(alloc: Global, text: &[u8]) -> Result<Option<Outline>, AllocError>
    ensures outline { IfOk result (λ o. IfSome o (λ outline. IsOutline text.now outline)) }
    ensures short { IfOk result (λ o. IfSome o (λ _. length text.now ≤ MOST_TEXT_BYTES)) }
{
    if text.len() > MOST_TEXT_BYTES {
        return Ok(None);
    }
    let Some((outline, rest)) = pass_sections(alloc, text, first_in(text))? else {
        return Ok(None);
    };
    if !rest.is_empty() {
        return Ok(None);
    }
    Ok(Some(outline))
}

/// Passes what stands before the sections of a keymap's source: its flags, `xkb_keymap`, its name and the brace.
fn pass_source_front<'t>(
    alloc: Global,
    text: &[u8],
    bytes: &'t [u8],
) -> Result<Option<&'t [u8]>, AllocError>
    requires ends { Ends text.now bytes.now }
    requires short { length text.now ≤ MOST_TEXT_BYTES }
    requires at { IsAtToken bytes.now }
    ensures passes { IfOk result (λ o. IfSome o (λ rest.
        PassesAs text.now (source_front text.now) (λ _. Unit {0}) bytes.now rest.now)) }
    ensures at { IfOk result (λ o. IfSome o (λ rest. IsAtToken rest.now)) }
{
    let (_flags, word) = pass_flags(alloc, bytes)?;
    let Some((Some(Keyword::XkbKeymap), behind)) = pass_keyword(word) else {
        return Ok(None);
    };
    let Some((_name, open)) = pass_optional_name(alloc, text, behind)? else {
        return Ok(None);
    };
    Ok(pass_mark(b'{', open))
}

/// Whether nothing stands here but the brace and the `;` that close a keymap's source.
fn ends_source(bytes: &[u8]) -> bool
    ensures { result ≡ true → (text : List ℕ) → Ends text bytes.now
        → PassesAs text (source_end text) (λ _. Unit {0}) bytes.now [] }
{
    let Some(end) = pass_mark(b'}', bytes) else {
        return false;
    };
    match pass_mark(b';', end) {
        Some(rest) => rest.is_empty(),
        None => false,
    }
}

/// The outline of a keymap's source; nothing where the source has no tree.
///
/// # Errors
/// Where a growth is refused.
pub fn outline_source(alloc: Global, text: &[u8]) -> Result<Option<Outline>, AllocError>
    ensures outline { IfOk result (λ o. IfSome o (λ outline. IsSourceOutline text.now outline)) }
    ensures short { IfOk result (λ o. IfSome o (λ _. length text.now ≤ MOST_TEXT_BYTES)) }
{
    if text.len() > MOST_TEXT_BYTES {
        return Ok(None);
    }
    let Some(open) = pass_source_front(alloc, text, first_in(text))? else {
        return Ok(None);
    };
    let Some((outline, close)) = pass_sections(alloc, text, open)? else {
        return Ok(None);
    };
    if !ends_source(close) {
        return Ok(None);
    }
    Ok(Some(outline))
}
