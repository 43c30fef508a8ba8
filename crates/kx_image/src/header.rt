//! The header of an image.
ghost use Rattle.std.specs.Prelude.{◌≡◌, ◌≤◌, ◌+◌, ◌*◌, None, Some, MatchResult, length};
ghost use Rattle.kx_image.specs.Records as Records;
ghost use Rattle.kx_image.specs.Shape as spec;
ghost use Rattle.kx_image.specs.declared.header.ImageVersion.TheVariants.{Two};

use crate::fault::ImageFault;
use crate::numbers::{u16_at, u16_bytes, u32_at, u32_bytes};

/// A version of the image.
#[derive(Clone, Copy, PartialEq, Eq)]
pub enum ImageVersion {
    /// Without indicators and group names.
    One,
    Two,
}

/// What the header of an image tells: its version, and how many rows each table has.
#[derive(Clone, Copy, PartialEq, Eq)]
pub struct Header {
    pub version: ImageVersion,
    /// The greatest number of groups of a key.
    pub groups: u16,
    pub types: u16,
    pub keys: u16,
    pub entries: u32,
    pub cells: u32,
    pub keysyms: u32,
    /// How many bytes the names have.
    pub names: u32,
    pub indicators: u16,
    pub group_names: u16,
}

/// The first four bytes of every image.
pub const MAGIC: [u8; 4] = [75, 88, 73, 10];

impl Header {
    /// The header that bytes begin with, or the first fault of its form.
    pub fn read(bytes: &[u8]) -> Result<Header, ImageFault>
        ensures { MatchResult result
            (λ h. (spec.front_fault bytes.now ≡ None) × (h ≡ spec.header_of bytes.now)
            × (spec.header_size h.version ≤ length bytes.now))
            (λ f. spec.front_fault bytes.now ≡ Some f) }
    {
        if bytes.len() < 28 {
            return Err(ImageFault::Truncated);
        }
        if &bytes[..4] != MAGIC.as_slice() {
            return Err(ImageFault::Magic);
        }
        match u16_at(bytes, 4) {
            1 => Ok(header_one(bytes)),
            2 if bytes.len() < 32 => Err(ImageFault::Truncated),
            2 => Ok(header_two(bytes)),
            _ => Err(ImageFault::Version),
        }
    }
}

impl Header {
    /// The header's bytes in version 2.
    pub fn bytes(&self) -> [u8; 32]
        requires { self.now.version ≡ Two }
        ensures { result ≡ spec.header_bytes self.now }
    {
        let [g0, g1] = u16_bytes(self.groups);
        let [t0, t1] = u16_bytes(self.types);
        let [k0, k1] = u16_bytes(self.keys);
        let [e0, e1, e2, e3] = u32_bytes(self.entries);
        let [c0, c1, c2, c3] = u32_bytes(self.cells);
        let [y0, y1, y2, y3] = u32_bytes(self.keysyms);
        let [n0, n1, n2, n3] = u32_bytes(self.names);
        let [i0, i1] = u16_bytes(self.indicators);
        let [m0, m1] = u16_bytes(self.group_names);
        [
            75, 88, 73, 10, 2, 0, g0, g1, t0, t1, k0, k1, e0, e1, e2, e3, c0, c1, c2, c3, y0, y1,
            y2, y3, n0, n1, n2, n3, i0, i1, m0, m1,
        ]
    }
}

/// The header of version 1.
fn header_one(bytes: &[u8]) -> Header
    requires long { 28 ≤ length bytes.now }
    requires version { Records.two_at bytes.now 4 ≡ 1 }
    ensures { result ≡ spec.header_of bytes.now }
{
    Header {
        version: ImageVersion::One,
        groups: u16_at(bytes, 6),
        types: u16_at(bytes, 8),
        keys: u16_at(bytes, 10),
        entries: u32_at(bytes, 12),
        cells: u32_at(bytes, 16),
        keysyms: u32_at(bytes, 20),
        names: u32_at(bytes, 24),
        indicators: 0,
        group_names: 0,
    }
}

/// The header of version 2.
fn header_two(bytes: &[u8]) -> Header
    requires long { 32 ≤ length bytes.now }
    requires version { Records.two_at bytes.now 4 ≡ 2 }
    ensures { result ≡ spec.header_of bytes.now }
{
    Header {
        version: ImageVersion::Two,
        groups: u16_at(bytes, 6),
        types: u16_at(bytes, 8),
        keys: u16_at(bytes, 10),
        entries: u32_at(bytes, 12),
        cells: u32_at(bytes, 16),
        keysyms: u32_at(bytes, 20),
        names: u32_at(bytes, 24),
        indicators: u16_at(bytes, 28),
        group_names: u16_at(bytes, 30),
    }
}
