//! The lines of a rules text.
ghost use Rattle.std.specs.Prelude.{◌≡◌, ◌≤◌, ◌<◌, ◌∷◌, [], IfOk, IfSome, MatchOption, length, take, drop};
ghost use Rattle.kx_rule_lines.specs.Lines.{begins_include, closes, cut_at, lines, right_behind, right_of, values_len, words_len};
ghost use Rattle.kx_rule_lines.specs.Lines.{is_value, is_word};
ghost use Rattle.kx_rule_lines.specs.Pieces.{pieces};

use crate::scan::{Kind, next_piece};
use crate::word::Piece;
use std::alloc::AllocError;

fn is_word(kind: Kind) -> bool
    ensures { result ≡ is_word kind }
{
    match kind {
        Kind::Word => true,
        _ => false,
    }
}

fn is_value(kind: Kind) -> bool
    ensures { result ≡ is_value kind }
{
    match kind {
        Kind::Word | Kind::Star | Kind::Group => true,
        _ => false,
    }
}

fn begins_include(line: &[Piece]) -> bool
    ensures { result ≡ begins_include line.now }
{
    match line {
        [first, second] => first.kind() == Kind::Bang && second.kind() == Kind::Include,
        _ => false,
    }
}

/// Whether a piece ends the line that these begin.
fn closes(line: &[Piece], kind: Kind) -> bool
    ensures { result ≡ closes line.now kind }
{
    match kind {
        Kind::NewLine => true,
        Kind::Word => begins_include(line),
        _ => false,
    }
}

/// Puts the first line of a text in the place of another, and answers what is left of the text after it; nothing where there
/// is no line.
///
/// # Errors
/// Where no memory is left.
#[tactic(auto, using(crate::proofs::Cutting::more_of_line, crate::proofs::Cutting::end_of_line, crate::proofs::Cutting::last_line, crate::proofs::Cutting::no_line))]
pub fn next_line<'a>(
    line: &mut Vec<Piece<'a>>,
    text: &'a [u8],
) -> Result<Option<&'a [u8]>, AllocError>
    ensures value { IfOk result (λ found.
        MatchOption found (lines [] (pieces text.entry.now 0) ≡ []) (λ rest.
        lines [] (pieces text.entry.now 0) ≡ line.new.items ∷ lines [] (pieces rest.now 0))) }
    ensures shorter { IfOk result (λ found.
        IfSome found (λ rest. length rest.now < length text.entry.now)) }
{
    line.clear();
    let mut rest = text;
    'pieces: loop {
        match next_piece(rest) {
            None => break,
            Some(found) => {
                let is_end = closes(line.as_slice(), found.kind);
                line.push(Piece::of(found.kind, found.text, found.left))?;
                rest = found.rest;
                if is_end {
                    return Ok(Some(rest));
                }
            }
        }
    }
    if line.is_empty() {
        return Ok(None);
    }
    Ok(Some(rest))
}

/// How many words a line begins with.
pub fn words_len(line: &[Piece]) -> usize
    ensures value { result ≡ words_len line.now }
    ensures within { result ≤ length line.now }
{
    line.iter()
        .take_while(|piece| is_word(piece.kind()))
        .count()
}

/// How many values a line begins with.
pub fn values_len(line: &[Piece]) -> usize
    ensures value { result ≡ values_len line.now }
    ensures within { result ≤ length line.now }
{
    line.iter()
        .take_while(|piece| is_value(piece.kind()))
        .count()
}

/// The words after a sign =, and how many bytes are left where something unexpected begins, if the line doesn't end after
/// them.
#[derive(Drop)]
pub struct Right<'l, 'a> {
    pub words: &'l [Piece<'a>],
    pub cut: Option<usize>,
}

/// How many bytes are left where something unexpected begins, if a line doesn't end here.
fn cut_at(behind: &[Piece]) -> Option<usize>
    ensures { result ≡ cut_at behind.now }
{
    match behind {
        [] => Some(0),
        [piece, ..] => match piece.kind() {
            Kind::NewLine => None,
            _ => Some(piece.left()),
        },
    }
}

/// The words after a line's sign =, and where something unexpected begins.
fn right_behind<'l, 'a>(line: &'l [Piece<'a>]) -> Right<'l, 'a>
    ensures words { result.words.now ≡ (right_behind line.entry.now).words }
    ensures cut { result.cut ≡ (right_behind line.entry.now).cut }
{
    let (words, behind) = line.split_at(words_len(line));
    let cut = cut_at(behind);
    Right { words, cut }
}

/// The right side of a line from its sign = on.
#[tactic(auto, unfolding(crate::specs::Lines::right_of))]
pub fn right_of<'l, 'a>(line: &'l [Piece<'a>]) -> Right<'l, 'a>
    ensures words { result.words.now ≡ (right_of line.entry.now).words }
    ensures cut { result.cut ≡ (right_of line.entry.now).cut }
{
    match line {
        [] => Right {
            words: &line[..0],
            cut: Some(0),
        },
        [piece, more @ ..] => match piece.kind() {
            Kind::Equals => right_behind(more),
            _ => Right {
                words: &line[..0],
                cut: Some(piece.left()),
            },
        },
    }
}
