//! Lines of event text.
ghost use Rattle.std.specs.Prelude.{◌≡◌, ◌≤◌, ◌++◌, ◌∷◌, [], ℕ, List, true, length};
ghost use Rattle.std.specs.Char.{is_ascii_digit};
ghost use Rattle.std.specs.List.{list_all};
ghost use Rattle.kx_lines.specs.EventLines.{KeepsLine, Says, code_in, event_of, event_with, has_code_digits};

use arrayvec::ArrayVec;
use kx_basics::decimal_value;
use kx_run::{Direction, Event};
use std::marker::Model;

/// The longest line that is kept.
pub const MOST_LINE_BYTES: usize = 64;

/// A line of event text, as far as it is read.
#[derive(Drop)]
pub struct Line {
    bytes: ArrayVec<u8, MOST_LINE_BYTES>,
    too_long: bool,
}

impl Model for Line {
    ghost use Rattle.kx_lines.specs.EventLines.{Kept};

    ghost Value = { Kept };

    ghost view = { λ l. record { bytes = l.bytes.items; is_long = l.too_long } };
}

/// What a line says.
#[derive(Clone, Copy, PartialEq, Eq)]
pub enum Said {
    /// Nothing: the line is empty.
    Nothing,
    /// A key goes down or up.
    Event(Event),
    /// What no event line says.
    Other,
}

impl Line {
    /// A line with nothing read.
    pub fn new() -> Line
        ensures { KeepsLine result [] }
    {
        Line {
            bytes: ArrayVec::new(),
            too_long: false,
        }
    }

    /// Reads one more byte of the line.
    pub fn push(&mut self, byte: u8)
        ensures { (line : List ℕ) → KeepsLine self.old line
            → KeepsLine self.new (line ++ byte ∷ []) }
    {
        if self.bytes.is_full() {
            self.too_long = true;
        } else {
            self.bytes.push(byte);
        }
    }

    /// Reads the next bytes of the line.
    pub fn push_all(&mut self, part: &[u8])
        ensures { (line : List ℕ) → KeepsLine self.old line
            → KeepsLine self.new (line ++ part.now) }
    {
        if self.bytes.try_extend_from_slice(part).is_err() {
            self.too_long = true;
        }
    }

    /// Forgets what was read.
    pub fn clear(&mut self)
        ensures { KeepsLine self.new [] }
    {
        self.bytes.clear();
        self.too_long = false;
    }

    /// What the line says.
    pub fn said(&self) -> Said
        ensures { (line : List ℕ) → KeepsLine self.now line → Says line result }
    {
        if self.too_long {
            return Said::Other;
        }
        said_by(self.bytes.as_slice())
    }
}

/// What a line says.
fn said_by(line: &[u8]) -> Said
    ensures { Says line.now result }
{
    if line.is_empty() {
        return Said::Nothing;
    }
    match event_of(line) {
        Some(event) => Said::Event(event),
        None => Said::Other,
    }
}

/// `down` or `up`, one space and a code.
#[tactic(auto, unfolding(crate::specs::EventLines::event_of))]
fn event_of(line: &[u8]) -> Option<Event>
    ensures { result ≡ event_of line.now }
{
    if let Some(code) = line.strip_prefix(b"down ".as_slice()) {
        return event_with(Direction::Down, code_in(code));
    }
    if let Some(code) = line.strip_prefix(b"up ".as_slice()) {
        return event_with(Direction::Up, code_in(code));
    }
    None
}

fn event_with(direction: Direction, code: Option<u16>) -> Option<Event>
    ensures { result ≡ event_with direction code }
{
    match code {
        Some(code) => Some(Event { code, direction }),
        None => None,
    }
}

/// A decimal code of 1 to 5 digits, at most 65,535.
#[tactic(auto, unfolding(crate::specs::EventLines::code_in))]
fn code_in(digits: &[u8]) -> Option<u16>
    ensures { result ≡ code_in digits.now }
{
    if !has_code_digits(digits) {
        return None;
    }
    let code = decimal_value(digits);
    if code < 65_536 {
        Some(code as u16)
    } else {
        None
    }
}

/// Whether these are 1 to 5 decimal digits.
#[tactic(auto, unfolding(crate::specs::EventLines::has_code_digits))]
fn has_code_digits(digits: &[u8]) -> bool
    ensures { result ≡ has_code_digits digits.now }
{
    1 <= digits.len() && digits.len() <= 5 && are_digits(digits)
}

fn are_digits(digits: &[u8]) -> bool
    ensures { result ≡ list_all is_ascii_digit digits.now }
{
    digits.iter().all(|byte| byte.is_ascii_digit())
}
