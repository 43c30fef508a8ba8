//! The text of an include as parts.
ghost use Rattle.std.specs.Prelude.{◌≡◌, ◌<◌, ◌≤◌, length, IfOk, IfSome};
ghost use Rattle.std.specs.Option.{option_map};
ghost use Rattle.kx_parse.specs.IncludeText.{is_name_byte, is_number, name_len, group_number, ending, closing, behind_file, part_of, join_of, split, parts_of};
ghost use Rattle.kx_parse.specs.Splits.{is_inner, cut_at};
ghost use Rattle.std.specs.Char.{is_ascii_digit};
ghost use Rattle.std.specs.List.{list_all, prefix_len};

use kx_basics::{MOST_GROUPS, decimal_value};
use kx_tree::Mode;
use std::alloc::{AllocError, Global};
use std::marker::Model;

/// A part of an include's text: what it names, and how that joins what stands before it.
#[derive(Drop)]
pub struct Part<'a> {
    mode: Mode,
    file: &'a [u8],
    map: Option<&'a [u8]>,
    group: Option<u8>,
}

impl<'a> Model for Part<'a> {
    ghost use Rattle.std.specs.Option.{option_map};
    ghost use Rattle.kx_parse.specs.IncludeText.{Part};

    ghost Value = { Part };

    ghost view = { λ p. record {
      mode = p.mode;
      file = p.file.now;
      map = option_map (λ m. m.now) p.map;
      group = p.group;
    } };
}

impl<'a> Part<'a> {
    /// How the part joins what stands before it.
    pub fn mode(&self) -> Mode
        ensures { result ≡ self.now.mode }
    {
        self.mode
    }

    /// The name of the file.
    pub fn file(&self) -> &'a [u8]
        ensures { result.now ≡ self.now.file }
    {
        self.file
    }

    /// The name of the map, where one is named.
    pub fn map(&self) -> Option<&'a [u8]>
        ensures { option_map (λ m. m.now) result ≡ self.now.map }
    {
        self.map
    }

    /// The group, counted from 1, that the map's first group becomes, where one is named.
    pub fn group(&self) -> Option<u8>
        ensures { result ≡ self.now.group }
    {
        self.group
    }
}

fn is_name_byte(byte: u8) -> bool
    ensures { result ≡ is_name_byte byte }
{
    !matches!(byte, b'+' | b'|' | b'(' | b')' | b':' | b'%' | b'^')
}

/// How many bytes of a name stand at the front.
fn name_len(bytes: &[u8]) -> usize
    ensures value { result ≡ name_len bytes.now }
    ensures within { result ≤ length bytes.now }
{
    bytes.iter().take_while(|byte| is_name_byte(**byte)).count()
}

fn are_digits(bytes: &[u8]) -> bool
    ensures { result ≡ list_all is_ascii_digit bytes.now }
{
    bytes.iter().all(|byte| byte.is_ascii_digit())
}

fn is_number(bytes: &[u8]) -> bool
    ensures { result ≡ is_number bytes.now }
{
    !bytes.is_empty() && are_digits(bytes)
}

#[tactic(auto, unfolding(crate::specs::IncludeText::group_number))]
fn group_number(bytes: &[u8]) -> Option<u8>
    ensures { result ≡ group_number bytes.now }
{
    if !is_number(bytes) {
        return None;
    }
    let number = decimal_value(bytes);
    if 1 <= number && number <= u64::from(MOST_GROUPS) {
        Some(number as u8)
    } else {
        None
    }
}

#[tactic(auto, unfolding(crate::specs::IncludeText::ending))]
fn ending<'a>(mode: Mode, file: &'a [u8], map: Option<&'a [u8]>, bytes: &[u8]) -> Option<Part<'a>>
    ensures { result ≡ ending mode file.now (option_map (λ m. m.now) map.entry) bytes.now }
{
    match bytes.split_first() {
        None => Some(Part {
            mode,
            file,
            map,
            group: None,
        }),
        Some((b':', digits)) => {
            let group = group_number(digits)?;
            Some(Part {
                mode,
                file,
                map,
                group: Some(group),
            })
        }
        Some(_) => None,
    }
}

#[tactic(auto, unfolding(crate::specs::IncludeText::closing))]
fn closing<'a>(mode: Mode, file: &'a [u8], map: &'a [u8], bytes: &[u8]) -> Option<Part<'a>>
    ensures { result ≡ closing mode file.now map.now bytes.now }
{
    match bytes.split_first() {
        Some((b')', rest)) if !map.is_empty() => ending(mode, file, Some(map), rest),
        _ => None,
    }
}

#[tactic(auto, unfolding(crate::specs::IncludeText::behind_file))]
fn behind_file<'a>(mode: Mode, file: &'a [u8], bytes: &'a [u8]) -> Option<Part<'a>>
    ensures { result ≡ behind_file mode file.now bytes.now }
{
    match bytes.split_first() {
        Some((b'(', rest)) => {
            let (map, behind) = rest.split_at(name_len(rest));
            closing(mode, file, map, behind)
        }
        _ => ending(mode, file, None, bytes),
    }
}

#[tactic(auto, unfolding(crate::specs::IncludeText::part_of))]
fn part_of(mode: Mode, bytes: &[u8]) -> Option<Part<'_>>
    ensures { result ≡ part_of mode bytes.now }
{
    let (file, rest) = bytes.split_at(name_len(bytes));
    if file.is_empty() {
        return None;
    }
    behind_file(mode, file, rest)
}

fn join_of(byte: u8) -> Option<Mode>
    ensures { result ≡ join_of byte }
{
    match byte {
        b'+' => Some(Mode::Override),
        b'|' => Some(Mode::Augment),
        _ => None,
    }
}

/// How many bytes stand before the first join.
fn inner_len(bytes: &[u8]) -> usize
    ensures value { result ≡ prefix_len is_inner bytes.now }
    ensures within { result ≤ length bytes.now }
{
    bytes
        .iter()
        .take_while(|byte| join_of(**byte).is_none())
        .count()
}

/// The text of the first part, and where others follow how the next one joins it and their texts.
#[tactic(auto, using(crate::proofs::Cutting::cut_end, crate::proofs::Cutting::cut_join, crate::proofs::Cutting::cut_no_join))]
fn cut(bytes: &[u8]) -> (&[u8], Option<(Mode, &[u8])>)
    ensures value { split bytes.now ≡ cut_at result.0.now result.1 }
    ensures shorter { IfSome result.1 (λ rest. length rest.1.now < length bytes.now) }
{
    let (front, rest) = bytes.split_at(inner_len(bytes));
    match rest.split_first() {
        None => (front, None),
        Some((join, behind)) => match join_of(*join) {
            None => (front, None),
            Some(mode) => (front, Some((mode, behind))),
        },
    }
}

/// The parts of an include's text, of which there is one at least; `None` where it names no files.
///
/// # Errors
/// Where a growth is refused.
pub fn include_parts(alloc: Global, text: &[u8]) -> Result<Option<Vec<Part<'_>>>, AllocError>
    ensures { IfOk result (λ parts. option_map (λ ps. ps.items) parts ≡ parts_of text.now) }
{
    let mut parts = Vec::new(alloc);
    let mut mode = Mode::Override;
    let mut rest = text;
    'parts: loop {
        let (front, behind) = cut(rest);
        match part_of(mode, front) {
            None => return Ok(None),
            Some(part) => parts.push(part)?,
        }
        match behind {
            None => return Ok(Some(parts)),
            Some((join, left)) => {
                mode = join;
                rest = left;
            }
        }
    }
}
