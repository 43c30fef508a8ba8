//! What a rule's value adds to a component.
ghost use Rattle.std.specs.Prelude.{◌≡◌, ◌≤◌, ◌<◌, length, IfOk, IfSome, OnOk, None, [], Some, ◌++◌, take};
ghost use Rattle.std.specs.Option.{option_map};
ghost use Rattle.kx_rules.specs.Expansions.{enclosed, expanded, index_in, indexed, is_joint, is_part, item_at, joined, lettered, named, placeholder};
ghost use Rattle.kx_rule_lines.specs.Pieces.{begins};

use crate::limits::GREATEST_INDEX;
use crate::names::Names;
use kx_rule_lines::Word;
use std::alloc::{AllocError, Global};

/// The place that a digit in brackets names, counted from 0.
#[tactic(auto, unfolding(crate::specs::Expansions::index_in))]
pub(crate) fn index_in(text: &[u8]) -> Option<usize>
    ensures { result ≡ index_in text.now }
{
    match text {
        [b'[', digit, b']'] if b'1' <= *digit && usize::from(*digit) < 49 + GREATEST_INDEX => {
            Some(usize::from(*digit) - 49)
        }
        _ => None,
    }
}

fn item_at<'a>(items: &[Word<'a>], place: Option<usize>) -> &'a [u8]
    ensures { result.now ≡ item_at items.now place }
{
    match (place, items) {
        (None, [item]) => item.as_slice(),
        (Some(place), [_, _, ..]) => match items.get(place) {
            None => b"",
            Some(item) => item.as_slice(),
        },
        _ => b"",
    }
}

/// The first three bytes, or all where there are fewer.
pub(crate) fn front(bytes: &[u8]) -> &[u8]
    ensures { result.now ≡ take 3 bytes.now }
{
    bytes.get(..3).unwrap_or(bytes)
}

/// What an item with an index or without stands for, and how many bytes the index takes.
#[tactic(auto, using(crate::proofs::Expanding::index_long))]
fn indexed<'a>(items: &[Word<'a>], bytes: &[u8]) -> Option<(&'a [u8], usize)>
    ensures value { option_map (λ f. (f.0.now, f.1)) result ≡ indexed items.now bytes.now }
    ensures within { IfSome result (λ f. f.1 ≤ length bytes.now) }
{
    if bytes.starts_with(b"[") {
        let place = index_in(front(bytes))?;
        Some((item_at(items, Some(place)), 3))
    } else {
        Some((item_at(items, None), 0))
    }
}

#[tactic(auto, unfolding(crate::specs::Expansions::named))]
fn named<'a>(names: &Names<'a>, letter: u8, bytes: &[u8]) -> Option<(&'a [u8], usize)>
    ensures value { option_map (λ f. (f.0.now, f.1)) result ≡ named names.now letter bytes.now }
    ensures within { IfSome result (λ f. f.1 ≤ length bytes.now) }
{
    match letter {
        b'm' => {
            if bytes.starts_with(b"[") {
                None
            } else {
                Some((names.model(), 0))
            }
        }
        b'l' => indexed(names.layouts(), bytes),
        b'v' => indexed(names.variants(), bytes),
        _ => None,
    }
}

pub(crate) fn is_joint(byte: u8) -> bool
    ensures { result ≡ is_joint byte }
{
    matches!(byte, b'+' | b'|' | b'_' | b'-')
}

/// What a placeholder stands for: a name, and what is written before and after it.
#[derive(Clone, Copy)]
pub(crate) struct Placed<'a> {
    front: &'a [u8],
    name: &'a [u8],
    back: &'a [u8],
    len: usize,
}

/// A letter, with what is to stand before and after its name.
fn lettered<'a>(
    names: &Names<'a>,
    front: &'a [u8],
    back: &'a [u8],
    bytes: &[u8],
) -> Option<Placed<'a>>
    ensures value { option_map (λ p. (enclosed p.front.now p.name.now p.back.now, p.len)) result
        ≡ lettered names.now front.now back.now bytes.now }
    ensures within { IfSome result (λ p. p.len ≤ length bytes.now) }
{
    let (letter, behind) = bytes.split_first()?;
    let (name, len) = named(names, *letter, behind)?;
    if !behind[len..].starts_with(back) {
        return None;
    }
    Some(Placed {
        front,
        name,
        back,
        len: 1 + len + back.len(),
    })
}

/// A letter, with a sign before it if there is one.
#[tactic(auto, unfolding(crate::specs::Expansions::placeholder))]
fn placeholder<'a>(names: &Names<'a>, bytes: &'a [u8]) -> Option<Placed<'a>>
    ensures value { option_map (λ p. (enclosed p.front.now p.name.now p.back.now, p.len)) result
        ≡ placeholder names.now bytes.now }
    ensures within { IfSome result (λ p. p.len ≤ length bytes.now) }
{
    let (sign, behind) = bytes.split_first()?;
    if *sign == b'(' {
        let found = lettered(names, b"(", b")", behind)?;
        Some(Placed {
            len: 1 + found.len,
            ..found
        })
    } else if is_joint(*sign) {
        let found = lettered(names, &bytes[..1], b"", behind)?;
        Some(Placed {
            len: 1 + found.len,
            ..found
        })
    } else {
        lettered(names, b"", b"", bytes)
    }
}

fn push_enclosed(
    out: &mut Vec<u8>,
    front: &[u8],
    name: &[u8],
    back: &[u8],
) -> Result<(), AllocError>
    ensures { OnOk result (out.new.items ≡ out.old.items ++ enclosed front.now name.now back.now) }
{
    if name.is_empty() {
        return Ok(());
    }
    out.extend_from_slice(front)?;
    out.extend_from_slice(name)?;
    out.extend_from_slice(back)?;
    Ok(())
}

/// What is written for a value; none if a placeholder is faulty.
#[tactic(auto, using(crate::proofs::Expanding::written_byte, crate::proofs::Expanding::written_placeholder, crate::proofs::Expanding::faulty_placeholder, crate::proofs::Expanding::written_all))]
pub(crate) fn expanded<'a>(
    alloc: Global,
    names: &Names<'a>,
    value: &'a [u8],
) -> Result<Option<Vec<u8>>, AllocError>
    ensures { IfOk result (λ text.
        option_map (λ t. t.items) text ≡ expanded names.now value.now 0) }
{
    let mut out = Vec::new(alloc);
    let mut rest = value;
    'bytes: while let Some((byte, behind)) = rest.split_first() {
        if *byte == b'%' {
            match placeholder(names, behind) {
                None => return Ok(None),
                Some(placed) => {
                    push_enclosed(&mut out, placed.front, placed.name, placed.back)?;
                    let (_, left) = behind.split_at(placed.len);
                    rest = left;
                }
            }
        } else {
            out.push(*byte)?;
            rest = behind;
        }
    }
    Ok(Some(out))
}

fn is_part(text: &[u8]) -> bool
    ensures { result ≡ is_part text.now }
{
    text.starts_with(b"+") || text.starts_with(b"|")
}

/// Puts text after others or before them.
#[tactic(auto, unfolding(crate::specs::Expansions::joined))]
pub(crate) fn join(to: &mut Vec<u8>, more: &[u8]) -> Result<(), AllocError>
    ensures { OnOk result (to.new.items ≡ joined to.old.items more.now) }
{
    if to.is_empty() || is_part(more) {
        to.extend_from_slice(more)?;
    } else if is_part(to.as_slice()) && !more.is_empty() {
        let mut all = Vec::from_slice(*to.allocator(), more)?;
        all.extend_from_slice(to.as_slice())?;
        *to = all;
    }
    Ok(())
}
