//! One line that gives a name to a keysym.
ghost use Rattle.std.specs.Prelude.{◌≡◌, ◌<◌, ◌≤◌, ◌==◌, ◌∷◌, true, false, not, None, Some, IsNone, IsSome, IfOk, IfErr, OnOk, IfSome, IfNone, MatchOption, drop, length, position, if◌then◌else◌};
ghost use Rattle.std.specs.List.{list_all};
ghost use Rattle.std.specs.Char.{is_ascii_digit};
ghost use Rattle.std.specs.Option.{option_map};
ghost use Rattle.std.specs.Str.Parse.{AllDigits};
ghost use Rattle.ks_core.specs.Digits.{in_32_bits};
ghost use Rattle.ks_core.specs.Lines.{lines_of, lines_left, is_skipped, is_blank, first_or_end, is_given_name, is_number, number_in, name_part, value_part, entry_of, own_fault};
ghost use Rattle.ks_core.specs.Name.{is_word, is_word_start, is_word_byte, is_u_form, is_hex_form, is_decimal};
ghost use Rattle.kx_basics.specs.Keysyms.{is_keysym};

use crate::digits::{decimal_number, is_hex, whole_hex_number};
use crate::fault::NameFault;
use kx_basics::is_keysym;
use std::str;

/// The most bytes of a name that a line gives.
const MOST_NAME: usize = 63;

/// The first line of the text, and what is left after its line feed.
pub(crate) fn first_line(text: &[u8]) -> (&[u8], Option<&[u8]>)
    ensures lines { lines_of text.now
        ≡ result.0.now ∷ lines_left (option_map (λ rest. rest.now) result.1) }
    ensures shorter { IfSome result.1 (λ rest. length rest.now < length text.now) }
{
    match line_end(text) {
        Some(end) => (text.split_at(end).0, Some(text.split_at(end + 1).1)),
        None => (text, None),
    }
}

/// Where the first line feed stands.
fn line_end(text: &[u8]) -> Option<usize>
    ensures index { result ≡ position (λ c. c == 10) text.now }
    ensures within { IfSome result (λ end. end < length text.now) }
{
    text.iter().position(|byte| *byte == b'\n')
}

/// The name and the keysym of the line, or `None` where it is empty or begins with `#`.
#[tactic(auto, unfolding(crate::specs::Lines::own_fault, crate::specs::Lines::entry_of))]
pub(crate) fn read_line(line: &[u8], number: usize) -> Result<Option<(&str, u32)>, NameFault>
    ensures fault { IfErr result (λ fault. own_fault number line.now ≡ Some fault) }
    ensures valid { OnOk result (own_fault number line.now ≡ None) }
    ensures skipped { IfOk result (λ entry. IfNone entry (is_skipped line.now ≡ true)) }
    ensures read { IfOk result (λ entry.
        IfSome entry (λ e. (is_skipped line.now ≡ false) × ((e.0.now, e.1) ≡ entry_of line.now))) }
{
    if is_skipped(line) {
        return Ok(None);
    }
    let (name, value) = parts(line);
    let Some(name) = given_name(name) else {
        return Err(NameFault::LineShape(number));
    };
    if !is_number(value) {
        return Err(NameFault::LineShape(number));
    }
    let Some(keysym) = nameable_in(value) else {
        return Err(NameFault::Value(number));
    };
    Ok(Some((name, keysym)))
}

fn is_skipped(line: &[u8]) -> bool
    ensures { result ≡ is_skipped line.now }
{
    line.is_empty() || line[0] == b'#'
}

/// The bytes before the first blank, and those after the blanks.
#[tactic(auto, unfolding(crate::specs::Lines::name_part, crate::specs::Lines::value_part))]
fn parts(line: &[u8]) -> (&[u8], &[u8])
    ensures name { result.0.now ≡ name_part line.now }
    ensures value { result.1.now ≡ value_part line.now }
{
    let (name, rest) = line.split_at(blank_at(line));
    (name, rest.split_at(other_at(rest)).1)
}

/// Where the first blank stands, or the length.
fn blank_at(bytes: &[u8]) -> usize
    ensures index { result ≡ first_or_end is_blank bytes.now }
    ensures within { result ≤ length bytes.now }
{
    find_blank(bytes).unwrap_or(bytes.len())
}

fn find_blank(bytes: &[u8]) -> Option<usize>
    ensures index { result ≡ position is_blank bytes.now }
    ensures within { IfSome result (λ index. index ≤ length bytes.now) }
{
    bytes.iter().position(|byte| is_blank(*byte))
}

/// Where the first byte stands that is no blank, or the length.
fn other_at(bytes: &[u8]) -> usize
    ensures index { result ≡ first_or_end (λ c. not (is_blank c)) bytes.now }
    ensures within { result ≤ length bytes.now }
{
    find_other(bytes).unwrap_or(bytes.len())
}

fn find_other(bytes: &[u8]) -> Option<usize>
    ensures index { result ≡ position (λ c. not (is_blank c)) bytes.now }
    ensures within { IfSome result (λ index. index ≤ length bytes.now) }
{
    bytes.iter().position(|byte| !is_blank(*byte))
}

fn is_blank(byte: u8) -> bool
    ensures { result ≡ is_blank byte }
{
    byte == b' ' || byte == b'\t' || byte == 0x0b || byte == 0x0c || byte == b'\r'
}

/// The name as text, where a line may give it.
fn given_name(name: &[u8]) -> Option<&str>
    ensures { option_map (λ text. text.now) result
        ≡ (if is_given_name name.now then Some name.now else None) }
{
    if !is_given_name(name) {
        return None;
    }
    match str::from_utf8(name) {
        Ok(text) => Some(text),
        Err(_) => None,
    }
}

#[tactic(auto, unfolding(crate::specs::Lines::is_given_name))]
fn is_given_name(name: &[u8]) -> bool
    ensures { result ≡ is_given_name name.now }
{
    is_word(name) && name.len() <= MOST_NAME && !is_u_form(name)
}

fn is_u_form(name: &[u8]) -> bool
    ensures { result ≡ is_u_form name.now }
{
    u_digits(name).is_some()
}

#[tactic(auto, unfolding(crate::specs::Name::is_word))]
fn is_word(name: &[u8]) -> bool
    ensures { result ≡ is_word name.now }
{
    !name.is_empty() && is_word_start(name[0]) && are_word_bytes(name)
}

fn are_word_bytes(name: &[u8]) -> bool
    ensures { result ≡ list_all is_word_byte name.now }
{
    name.iter().all(|byte| is_word_byte(*byte))
}

fn is_word_byte(byte: u8) -> bool
    ensures { result ≡ is_word_byte byte }
{
    is_word_start(byte) || byte.is_ascii_digit()
}

fn is_word_start(byte: u8) -> bool
    ensures { result ≡ is_word_start byte }
{
    byte.is_ascii_alphabetic() || byte == b'_'
}

/// The digits of a name of the U form.
#[tactic(auto, unfolding(crate::specs::Name::is_u_form))]
pub(crate) fn u_digits(name: &[u8]) -> Option<&[u8]>
    ensures hex { IfSome result (λ digits. AllDigits 16 digits.now) }
    ensures few { IfSome result (λ digits. length digits.now ≤ 8) }
    ensures found { option_map (λ digits. digits.now) result
        ≡ (if is_u_form name.now then Some (drop 1 name.now) else None) }
{
    if name.is_empty() || name[0] != b'U' {
        return None;
    }
    let digits = name.split_at(1).1;
    if is_hex(digits, 6) {
        Some(digits)
    } else {
        None
    }
}

/// The digits of a number of the 0x form.
#[tactic(auto, unfolding(crate::specs::Name::is_hex_form))]
pub(crate) fn hex_digits(text: &[u8]) -> Option<&[u8]>
    ensures hex { IfSome result (λ digits. AllDigits 16 digits.now) }
    ensures few { IfSome result (λ digits. length digits.now ≤ 8) }
    ensures found { option_map (λ digits. digits.now) result
        ≡ (if is_hex_form text.now then Some (drop 2 text.now) else None) }
{
    if text.len() < 2 || text[0] != b'0' || text[1] != b'x' {
        return None;
    }
    let digits = text.split_at(2).1;
    if is_hex(digits, 8) {
        Some(digits)
    } else {
        None
    }
}

/// Whether this is a number in decimal or of the 0x form.
fn is_number(text: &[u8]) -> bool
    ensures { result ≡ is_number text.now }
{
    is_decimal(text) || hex_digits(text).is_some()
}

#[tactic(auto, unfolding(crate::specs::Name::is_decimal))]
fn is_decimal(text: &[u8]) -> bool
    ensures { result ≡ is_decimal text.now }
{
    !text.is_empty() && are_digits(text)
}

fn are_digits(text: &[u8]) -> bool
    ensures { result ≡ list_all is_ascii_digit text.now }
{
    text.iter().all(|byte| byte.is_ascii_digit())
}

/// The keysym in the text, where a line can name it.
#[tactic(auto, unfolding(crate::specs::Digits::in_32_bits))]
fn nameable_in(text: &[u8]) -> Option<u32>
    requires { is_number text.now ≡ true }
    ensures { result ≡ (if is_keysym (number_in text.now) then Some (number_in text.now)
        else None) }
{
    match number_in(text) {
        Some(keysym) if is_keysym(keysym) => Some(keysym),
        _ => None,
    }
}

/// The number in the text, where it fits 32 bits.
#[tactic(auto, unfolding(crate::specs::Lines::number_in))]
fn number_in(text: &[u8]) -> Option<u32>
    requires { is_number text.now ≡ true }
    ensures { result ≡ in_32_bits (number_in text.now) }
{
    match hex_digits(text) {
        Some(digits) => whole_hex_number(digits),
        None => decimal_number(text),
    }
}
