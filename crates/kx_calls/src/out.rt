//! What goes out to a caller's buffer.
ghost use Rattle.kx_calls.specs.Out.{Copies};

use crate::status::{OK, ROOM};

/// Copies bytes where there is room for all of them, and tells how many they are.
pub fn copy(bytes: &[u8], out: &mut [u8], size: &mut usize) -> u32
    ensures { Copies bytes.now out.old out.new size.new result }
{
    *size = bytes.len();
    if bytes.len() <= out.len() {
        out[..bytes.len()].copy_from_slice(bytes);
        OK
    } else {
        ROOM
    }
}
