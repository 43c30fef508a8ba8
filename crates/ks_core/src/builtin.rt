//! The built-in names.
ghost use Rattle.std.specs.Prelude.{◌≡◌, ◌+◌, ◌<◌, ◌≤◌, true, length, map, slice_get, IfSome};
ghost use Rattle.std.specs.Option.{option_map};
ghost use Rattle.std.specs.Str.{IsAscii, bytes_eq};
ghost use Rattle.ks_core.specs.Entry.{keysym_in, name_in};
ghost use Rattle.ks_core.specs.BuiltIn.{built_in};
ghost use Rattle.ks_core.specs.HashIndex.{IsHashIndex, hash_of, slot_of};
ghost use Rattle.ks_core.specs.Index.{IsKeysymIndex};
ghost use Rattle.ks_core.specs.Names.{is_written_back};

use crate::table::{BY_KEYSYM, Entry, SHIFTS, SLOTS};

/// The length of the longest built-in name.
const LONGEST: usize = 20;

/// By the hash of a name, where it stands among the built-in names.
#[derive(Clone, Copy)]
struct HashIndex {
    shifts: &'static [u8],
    slots: &'static [u16],
}

fn by_hash() -> HashIndex
    ensures { IsHashIndex result.shifts.now result.slots.now }
{
    HashIndex {
        shifts: &SHIFTS,
        slots: &SLOTS,
    }
}

/// The built-in names as they are defined, one after another, by keysym. A table of texts is proved anew, slowly, in each function
/// that names it, so no other does.
fn by_keysym() -> &'static [Entry]
    ensures names { map (λ row. (row.0.now, row.1)) result.now ≡ built_in }
    ensures index { IsKeysymIndex result.now }
{
    &BY_KEYSYM
}

/// A number of the length and of five bytes, which tells the built-in names apart.
#[tactic(auto, unfolding(crate::specs::HashIndex::hash_of))]
fn hash_of(name: &[u8]) -> usize
    requires some { 0 < length name.now }
    requires short { length name.now ≤ 20 }
    ensures value { result ≡ hash_of name.now }
    ensures small { result < 1048576 }
{
    let len = name.len();
    // No index is constant: a first byte that is at hand would break up the words that `same_ends` reads.
    len * 32
        + usize::from(name[len / 16]) * 138
        + usize::from(name[len * 5 / 16]) * 583
        + usize::from(name[len * 9 / 16]) * 868
        + usize::from(name[len * 10 / 16]) * 822
        + usize::from(name[len * 15 / 16]) * 256
}

/// Whether two texts of one length are the same, by their first and their last `N` bytes.
fn same_ends<const N: usize>(a: &[u8], b: &[u8]) -> bool
    requires alike { length a.now ≡ length b.now }
    requires least { N ≤ length a.now }
    requires most { length a.now ≤ N + N }
    ensures { result ≡ bytes_eq a.now b.now }
{
    match (
        a.split_first_chunk::<N>(),
        b.split_first_chunk::<N>(),
        a.split_last_chunk::<N>(),
        b.split_last_chunk::<N>(),
    ) {
        (Some((a_first, _)), Some((b_first, _)), Some((_, a_last)), Some((_, b_last))) => {
            a_first == b_first && a_last == b_last
        }
        _ => unreachable!(),
    }
}

/// Whether two long names are the same. Few are long, and inlined it would break up the words that `same_ends` reads.
#[inline(never)]
fn same_long(a: &[u8], b: &[u8]) -> bool
    ensures { result ≡ bytes_eq a.now b.now }
{
    a == b
}

/// Whether two names are the same.
fn same_name(a: &[u8], b: &[u8]) -> bool
    requires some { 0 < length a.now }
    requires short { length a.now ≤ 20 }
    ensures { result ≡ bytes_eq a.now b.now }
{
    if a.len() != b.len() {
        return false;
    }
    match a.len() {
        8..=16 => same_ends::<8>(a, b),
        4..=7 => same_ends::<4>(a, b),
        2..=3 => same_ends::<2>(a, b),
        1 => same_ends::<1>(a, b),
        _ => same_long(a, b),
    }
}

/// The keysym with that built-in name. Bytes that are one are ASCII.
pub(crate) fn keysym_of(name: &[u8]) -> Option<u32>
    ensures value { result ≡ keysym_in built_in name.now }
    ensures within { IfSome result (λ keysym. is_written_back keysym ≡ true) }
    ensures ascii { IfSome result (λ keysym. IsAscii name.now) }
{
    if name.is_empty() || name.len() > LONGEST {
        return None;
    }
    let index = by_hash();
    let hash = hash_of(name);
    let slot = (hash + usize::from(index.shifts[hash / 512 % 128])) % 512;
    let (known, keysym) = by_keysym()[usize::from(index.slots[slot])];
    if same_name(name, known.as_bytes()) {
        Some(keysym)
    } else {
        None
    }
}

/// The built-in name of the keysym.
pub(crate) fn name_of(keysym: u32) -> Option<&'static str>
    ensures { option_map (λ name. name.now) result ≡ name_in built_in keysym }
{
    let entries = by_keysym();
    match entries.binary_search_by(|entry| entry.1.cmp(&keysym)) {
        Ok(index) => Some(entries[index].0),
        Err(_) => None,
    }
}

/// The name at a place, where there is one.
pub(crate) fn name_at(place: usize) -> Option<&'static str>
    ensures { option_map (λ name. name.now) result
        ≡ option_map (λ e. e.0) (slice_get built_in place) }
{
    match by_keysym().get(place) {
        Some((name, _)) => Some(*name),
        None => None,
    }
}
