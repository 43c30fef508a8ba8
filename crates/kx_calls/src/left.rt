//! What the image of a source leaves out: aliases of keys, virtual modifiers, names of indicators, and what repeats.
ghost use Rattle.std.specs.Prelude.{◌≡◌, None, Some, min, slice_get};
ghost use Rattle.std.specs.Option.{option_map};
ghost use Rattle.kx_calls.specs.LeftInC.{CopiesFound, alias_key, alias_name, left_counts_in_c, modifier_name, repeats_in_c};
ghost use Rattle.kx_calls.specs.declared.status.TheConstants.{MISSING};

use crate::out::copy;
use crate::status::MISSING;
use kx_clients::LeftOut;

/// How many aliases, virtual modifiers and names of indicators there are.
#[repr(C)]
#[derive(Clone, Copy)]
pub struct XkcLeftCounts {
    pub aliases: u32,
    pub modifiers: u32,
    pub indicators: u32,
}

impl XkcLeftCounts {
    /// How many there are of each.
    pub fn of(left: &LeftOut) -> XkcLeftCounts
        ensures { result ≡ left_counts_in_c left.now }
    {
        XkcLeftCounts {
            aliases: count(left.aliases().len()),
            modifiers: count(left.modifiers().len()),
            indicators: count(left.indicators().len()),
        }
    }
}

/// A count, or the greatest number of 32 bits where it is greater.
fn count(length: usize) -> u32
    ensures { result ≡ min length 4294967295 }
{
    u32::try_from(length).unwrap_or(u32::MAX)
}

/// Whether the key of a code repeats; none of so great a code does.
pub fn does_repeat(left: &LeftOut, code: u32) -> bool
    ensures { result ≡ repeats_in_c left.now code }
{
    match u16::try_from(code) {
        Ok(code) => left.repeats(code),
        Err(_) => false,
    }
}

/// The name of an alias, by its index from 0.
pub fn alias_at(left: &LeftOut, index: u32) -> Option<&[u8]>
    ensures { option_map (λ name. name.now) result ≡ alias_name left.now index }
{
    match left.aliases().get(index as usize) {
        Some(alias) => Some(alias.name.as_slice()),
        None => None,
    }
}

/// The name of the key that an alias is for, by the alias's index from 0.
pub fn alias_key_at(left: &LeftOut, index: u32) -> Option<&[u8]>
    ensures { option_map (λ name. name.now) result ≡ alias_key left.now index }
{
    match left.aliases().get(index as usize) {
        Some(alias) => Some(alias.key.as_slice()),
        None => None,
    }
}

/// The name of a virtual modifier, by its index from 0.
pub fn modifier_at(left: &LeftOut, index: u32) -> Option<&[u8]>
    ensures { option_map (λ name. name.now) result ≡ modifier_name left.now index }
{
    match left.modifiers().get(index as usize) {
        Some(modifier) => Some(modifier.name.as_slice()),
        None => None,
    }
}

/// The name that keycodes give an indicator, by its index from 0.
pub fn indicator_at(left: &LeftOut, index: u32) -> Option<&[u8]>
    ensures { option_map (λ name. name.now) result ≡ slice_get left.now.indicators index }
{
    match left.indicators().get(index as usize) {
        Some(name) => Some(name.as_slice()),
        None => None,
    }
}

/// Copies bytes that are found where there is room for them, and tells their size.
pub fn copy_found(found: Option<&[u8]>, out: &mut [u8], size: &mut usize) -> u32
    ensures { CopiesFound (option_map (λ name. name.now) found.entry)
        out.old out.new size.old size.new result }
{
    match found {
        None => MISSING,
        Some(bytes) => copy(bytes, out, size),
    }
}
