//! What tables are to their readers: the traits.
ghost use Rattle.std.specs.Prelude.{◌≡◌, ◌<◌, ◌≤◌, length, slice_get, Some, None, MatchOption, IfSome, ◌+◌};
ghost use Rattle.kx_tables.specs.Content.{Content, counts_of, type_name, key_name, indicator_name, group_name, greatest_groups, part};
ghost use Rattle.kx_tables.specs.Keymap.{key_with};
ghost use Rattle.kx_tables.specs.Sound.{Sound};

use crate::rows::{CellRow, EntryRow, GroupNameRow, GroupRow, IndicatorRow, KeyRow, TypeRow};

/// How many rows each table has, and how many bytes the names.
#[derive(Clone, Copy, PartialEq, Eq)]
pub struct Counts {
    pub types: u16,
    pub entries: u32,
    pub keys: u16,
    pub groups: u32,
    pub cells: u32,
    pub keysyms: u32,
    pub indicators: u16,
    pub group_names: u16,
    pub names: u32,
}

/// The rows of tables by index, counted from 0, sound or not. The caller keeps indices below the counts.
pub trait Rows {
    ghost content: { Self → Content };

    fn counts(&self) -> Counts
        ensures { result ≡ counts_of (content self.now) };

    fn type_row(&self, index: u16) -> TypeRow
        requires { index < length (content self.now).types }
        ensures { slice_get (content self.now).types index ≡ Some result };

    fn entry_row(&self, index: u32) -> EntryRow
        requires { index < length (content self.now).entries }
        ensures { slice_get (content self.now).entries index ≡ Some result };

    fn key_row(&self, index: u16) -> KeyRow
        requires { index < length (content self.now).keys }
        ensures { slice_get (content self.now).keys index ≡ Some result };

    fn group_row(&self, index: u32) -> GroupRow
        requires { index < length (content self.now).groups }
        ensures { slice_get (content self.now).groups index ≡ Some result };

    fn cell_row(&self, index: u32) -> CellRow
        requires { index < length (content self.now).cells }
        ensures { slice_get (content self.now).cells index ≡ Some result };

    fn keysym(&self, index: u32) -> u32
        requires { index < length (content self.now).keysyms }
        ensures { slice_get (content self.now).keysyms index ≡ Some result };

    fn indicator_row(&self, index: u16) -> IndicatorRow
        requires { index < length (content self.now).indicators }
        ensures { slice_get (content self.now).indicators index ≡ Some result };

    fn group_name_row(&self, index: u16) -> GroupNameRow
        requires { index < length (content self.now).group_names }
        ensures { slice_get (content self.now).group_names index ≡ Some result };

    /// The bytes of all names.
    fn names(&self) -> &[u8]
        ensures { result.now ≡ (content self.now).names };
}

/// Sound tables. What a clause says of names, codes and groups is in `Content` and `Keymap` of `specs/`.
pub trait Tables: Rows {
    /// How many keys there are; and that the tables are sound.
    fn key_count(&self) -> u16
        ensures count { result ≡ length (Self.content self.now).keys }
        ensures sound { Sound (Self.content self.now) };

    /// The greatest number of groups of a key, 0 where there is no key.
    fn greatest_groups(&self) -> u8
        ensures { result ≡ greatest_groups (Self.content self.now).keys };

    /// The index of the key with this code.
    fn key_of(&self, code: u16) -> Option<u16>
        ensures { MatchOption result
            (key_with (Self.content self.now) code ≡ None)
            (λ i. (i < length (Self.content self.now).keys)
            × (key_with (Self.content self.now) code ≡ slice_get (Self.content self.now).keys i)) }
    {
        let mut low = 0;
        let mut high = self.key_count();
        while low < high {
            let middle = low + (high - low) / 2;
            let found = self.key_row(middle).code;
            if found == code {
                return Some(middle);
            }
            if found < code {
                low = middle + 1;
            } else {
                high = middle;
            }
        }
        None
    }

    /// The name of a type.
    fn type_name(&self, index: u16) -> &[u8]
        requires { index < length (Self.content self.now).types }
        ensures { IfSome (slice_get (Self.content self.now).types index) (λ t.
            result.now ≡ type_name (Self.content self.now) t) }
    {
        let _sound = self.key_count();
        let row = self.type_row(index);
        name_at(self.names(), row.first_name, row.name_length)
    }

    /// The name of a key.
    fn key_name(&self, index: u16) -> &[u8]
        requires { index < length (Self.content self.now).keys }
        ensures { IfSome (slice_get (Self.content self.now).keys index) (λ k.
            result.now ≡ key_name (Self.content self.now) k) }
    {
        let _sound = self.key_count();
        let row = self.key_row(index);
        name_at(self.names(), row.first_name, row.name_length)
    }

    /// The name of an indicator.
    fn indicator_name(&self, index: u16) -> &[u8]
        requires { index < length (Self.content self.now).indicators }
        ensures { IfSome (slice_get (Self.content self.now).indicators index) (λ d.
            result.now ≡ indicator_name (Self.content self.now) d) }
    {
        let _sound = self.key_count();
        let row = self.indicator_row(index);
        name_at(self.names(), row.first_name, row.name_length)
    }

    /// The name of a group, empty for one without a name.
    fn group_name(&self, index: u16) -> &[u8]
        requires { index < length (Self.content self.now).group_names }
        ensures { IfSome (slice_get (Self.content self.now).group_names index) (λ g.
            result.now ≡ group_name (Self.content self.now) g) }
    {
        let _sound = self.key_count();
        let row = self.group_name_row(index);
        name_at(self.names(), row.first_name, row.name_length)
    }
}

/// The bytes of a name among those of all names.
fn name_at(names: &[u8], first: u32, count: u16) -> &[u8]
    requires { first + count ≤ length names.now }
    ensures { result.now ≡ part names.now first count }
{
    let start = first as usize;
    &names[start..start + usize::from(count)]
}

/// The greatest number of groups of a key, 0 where there is no key.
pub fn most_groups<R: Rows>(rows: &R) -> u8
    ensures { result ≡ greatest_groups (R.content rows.now).keys }
{
    let mut greatest: u8 = 0;
    for index in 0..rows.counts().keys {
        greatest = greatest.max(rows.key_row(index).groups);
    }
    greatest
}
