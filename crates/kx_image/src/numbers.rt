//! Numbers in an image: of 16 or 32 bits, the lowest byte first.
ghost use Rattle.std.specs.Prelude.{◌≡◌, ◌+◌, ◌≤◌, length};
ghost use Rattle.kx_image.specs.Records as spec;

use byteorder::{ByteOrder, LittleEndian};

/// The number in the two bytes at a place.
pub fn u16_at(bytes: &[u8], place: usize) -> u16
    requires { place + 2 ≤ length bytes.now }
    ensures { result ≡ spec.two_at bytes.now place }
{
    LittleEndian::read_u16(&bytes[place..])
}

/// The number in the four bytes at a place.
pub fn u32_at(bytes: &[u8], place: usize) -> u32
    requires { place + 4 ≤ length bytes.now }
    ensures { result ≡ spec.four_at bytes.now place }
{
    LittleEndian::read_u32(&bytes[place..])
}

/// A number's two bytes.
pub fn u16_bytes(number: u16) -> [u8; 2]
    ensures { result ≡ spec.two number }
{
    let mut bytes = [0; 2];
    LittleEndian::write_u16(&mut bytes, number);
    bytes
}

/// A number's four bytes.
pub fn u32_bytes(number: u32) -> [u8; 4]
    ensures { result ≡ spec.four number }
{
    let mut bytes = [0; 4];
    LittleEndian::write_u32(&mut bytes, number);
    bytes
}
