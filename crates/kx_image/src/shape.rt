//! Where the tables of an image begin and end.
ghost use Rattle.std.specs.Prelude.{◌≡◌, ◌≤◌, ◌<◌, ◌+◌, ◌*◌, ◌^◌, None, Some, MatchResult, length};
ghost use Rattle.kx_image.specs.Shape as spec;
ghost use Rattle.kx_image.specs.Starts.{starts_of, IsShape};

use crate::fault::ImageFault;
use crate::header::{Header, ImageVersion};
use crate::records::{
    CELL_SIZE, ENTRY_SIZE, GROUP_NAME_SIZE, GROUP_SIZE, INDICATOR_SIZE, KEY_SIZE, KEYSYM_SIZE,
    TYPE_SIZE,
};

/// The place of each table's first byte, and the end of the last.
#[derive(Clone, Copy, PartialEq, Eq)]
pub struct Starts {
    pub types: usize,
    pub entries: usize,
    pub keys: usize,
    pub groups: usize,
    pub cells: usize,
    pub keysyms: usize,
    pub indicators: usize,
    pub group_names: usize,
    pub names: usize,
    pub end: usize,
}

impl Starts {
    /// The places in an image with this header and so many groups.
    pub fn of(header: Header, groups: u32) -> Starts
        ensures { result ≡ starts_of header groups }
    {
        let types = header_size(header.version);
        let entries = types + TYPE_SIZE * usize::from(header.types);
        let keys = entries + ENTRY_SIZE * header.entries as usize;
        let first_group = keys + KEY_SIZE * usize::from(header.keys);
        let cells = first_group + GROUP_SIZE * groups as usize;
        let keysyms = cells + CELL_SIZE * header.cells as usize;
        let indicators = keysyms + KEYSYM_SIZE * header.keysyms as usize;
        let group_names = indicators + INDICATOR_SIZE * usize::from(header.indicators);
        let names = group_names + GROUP_NAME_SIZE * usize::from(header.group_names);
        Starts {
            types,
            entries,
            keys,
            groups: first_group,
            cells,
            keysyms,
            indicators,
            group_names,
            names,
            end: names + header.names as usize,
        }
    }
}

/// How many bytes the header of a version has.
fn header_size(version: ImageVersion) -> usize
    ensures value { result ≡ spec.header_size version }
    ensures small { result ≤ 32 }
{
    match version {
        ImageVersion::One => 28,
        ImageVersion::Two => 32,
    }
}

/// How many groups the keys have whose records begin at a place.
fn count_groups(bytes: &[u8], start: usize, keys: u16) -> u32
    requires { start + 16 * keys ≤ length bytes.now }
    ensures { result ≡ spec.groups_from keys start bytes.now }
{
    let mut groups = 0;
    for index in 0..keys {
        groups += u32::from(bytes[start + KEY_SIZE * usize::from(index) + 5]);
    }
    groups
}

/// The header and the places of the tables, or the first fault of form.
pub fn shape(bytes: &[u8]) -> Result<(Header, u32), ImageFault>
    ensures { MatchResult result (λ s. IsShape bytes.now s.0 s.1) (λ f.
        spec.shape_fault bytes.now ≡ Some f) }
{
    let header = Header::read(bytes)?;
    let none = Starts::of(header, 0);
    if bytes.len() < none.groups {
        return Err(ImageFault::Truncated);
    }
    let groups = count_groups(bytes, none.keys, header.keys);
    let starts = Starts::of(header, groups);
    if bytes.len() < starts.end {
        return Err(ImageFault::Truncated);
    }
    if bytes.len() > starts.end {
        return Err(ImageFault::Length);
    }
    Ok((header, groups))
}
