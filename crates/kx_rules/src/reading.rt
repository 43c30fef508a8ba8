//! Whole texts.
ghost use Rattle.std.specs.Prelude.{◌≡◌, ◌≤◌, ◌⊎◌, IfOk, IfErr, Ok, Err, length};
ghost use Rattle.kx_rules.specs.Rules.{IsPassedOver, included, line_number, lines_of, meaning, run, whole};
ghost use Rattle.kx_rules.specs.declared.fault.Fault.TheVariants.{Memory};
ghost use Rattle.kx_rules.specs.declared.limits.TheConstants.{MOST_DEPTH, MOST_READ_BYTES};

use crate::components::Components;
use crate::fault::Fault;
use crate::limits::{MOST_DEPTH, MOST_READ_BYTES};
use crate::members::Groups;
use crate::names::Names;
use crate::passed::{Passed, Uses};
use crate::state::{State, Taken};
use crate::texts::Texts;
use kx_rule_lines::{Piece, next_line};
use std::alloc::{AllocError, Global};

/// A place in a text and the number of its line, counted from 1.
#[derive(Clone, Copy)]
struct Place {
    line: usize,
    at: usize,
}

impl Place {
    fn new() -> Place {
        Place { line: 1, at: 0 }
    }

    /// The place further on where a line begins.
    fn at(self, text: &[u8], line: &[Piece]) -> Place {
        let left = line.first().map_or(0, |piece| piece.left());
        let at = text.len().saturating_sub(left);
        let passed = text.get(self.at..at).unwrap_or(&[]);
        let ends = passed.iter().filter(|byte| **byte == b'\n').count();
        Place {
            line: self.line.saturating_add(ends),
            at,
        }
    }
}

/// Reads a text, in which includes may be nested so deep; answers how many bytes are left where something unexpected
/// begins.
fn read(
    alloc: Global,
    state: &mut State,
    names: &Names,
    texts: &Texts,
    depth: usize,
    text: &[u8],
) -> Result<Option<usize>, AllocError>
    ensures { IfOk result (λ left. (state.new, left)
        ≡ run names.now (included depth names.now texts.now) state.old (lines_of text.now)) }
{
    let mut line = Vec::new(alloc);
    let mut rest = text;
    let mut place = Place::new();
    'lines: loop {
        match next_line(&mut line, state.behind_passed(rest))? {
            None => return Ok(None),
            Some(behind) => {
                match state.take(alloc, names, texts, depth, line.as_slice())? {
                    Taken::Next => {
                        if state.lacks_line() {
                            place = place.at(text, line.as_slice());
                            state.tell_line(place.line);
                        }
                    }
                    Taken::Unexpected(left) => return Ok(Some(left)),
                    Taken::Inner(inner) => {
                        let outer = state.text();
                        state.name_text(alloc, line.as_slice())?;
                        let _ = read(alloc, state, names, texts, depth - 1, inner)?;
                        state.leave_to(outer);
                        state.begin();
                    }
                }
                rest = behind;
            }
        }
    }
}

/// The line in which so many bytes are left, counted from 1.
fn line_number(text: &[u8], left: usize) -> usize
    ensures { result ≡ line_number text.now left }
{
    let seen = text.len().saturating_sub(left);
    1 + text[..seen].iter().filter(|byte| **byte == b'\n').count()
}

/// Reads the text itself; answers where something unexpected begins too.
fn read_first(
    alloc: Global,
    text: &[u8],
    texts: &Texts,
    names: &Names,
) -> Result<(State, Option<usize>), AllocError>
    requires { length text.now ≤ MOST_READ_BYTES }
    ensures { IfOk result (λ found. (found.0, found.1)
        ≡ whole text.now texts.now names.now) }
{
    let mut state = State::new(alloc, text.len());
    let left = read(alloc, &mut state, names, texts, MOST_DEPTH, text)?;
    Ok((state, left))
}

/// The components, and what was passed over for them.
#[derive(Drop)]
pub struct Answer {
    pub components: Components,
    pub passed: Passed,
}

/// The components that a rules text gives for names, and the groups and what was taken for them.
#[tactic(auto, unfolding(crate::specs::Rules::meaning))]
fn parts_of(
    alloc: Global,
    text: &[u8],
    texts: &Texts,
    names: &Names,
) -> Result<(Components, Groups, Uses), Fault>
    ensures value { IfOk result (λ parts.
        meaning text.now texts.now names.now ≡ Ok parts.0) }
    ensures groups { IfOk result (λ parts.
        (whole text.now texts.now names.now).0.groups ≡ parts.1) }
    ensures taken { IfOk result (λ parts.
        (whole text.now texts.now names.now).0.taken ≡ parts.2) }
    ensures fault { IfErr result (λ e.
        (e ≡ Memory) ⊎ (meaning text.now texts.now names.now ≡ Err e)) }
{
    if !names.are_short() {
        return Err(Fault::LongName);
    }
    if text.len() > MOST_READ_BYTES {
        return Err(Fault::TooMuch);
    }
    let (state, cut) = read_first(alloc, text, texts, names)?;
    if let Some(left) = cut {
        return Err(Fault::Unexpected(line_number(text, left)));
    }
    if state.is_full() {
        return Err(Fault::TooMuch);
    }
    let (components, groups, uses) = state.into_parts();
    if components.is_some_empty() {
        return Err(Fault::NoComponents);
    }
    Ok((components, groups, uses))
}

/// The components that a rules text gives for names, with the texts that its includes find.
///
/// # Errors
/// `LongName`, `TooMuch`, `Unexpected`, `NoComponents`; `Memory`.
pub fn components_of(
    alloc: Global,
    text: &[u8],
    texts: &Texts,
    names: &Names,
) -> Result<Answer, Fault>
    ensures value { IfOk result (λ answer.
        meaning text.now texts.now names.now ≡ Ok answer.components) }
    ensures passed { IfOk result (λ answer.
        IsPassedOver text.now texts.now names.now answer.passed) }
    ensures fault { IfErr result (λ e.
        (e ≡ Memory) ⊎ (meaning text.now texts.now names.now ≡ Err e)) }
{
    let (components, groups, uses) = parts_of(alloc, text, texts, names)?;
    let passed = uses.passed(alloc, names, &groups)?;
    Ok(Answer { components, passed })
}
