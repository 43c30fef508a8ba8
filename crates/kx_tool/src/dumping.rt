//! Bytes as hexadecimal text.
ghost use Rattle.std.specs.Prelude.{◌≡◌, ◌+◌, ◌*◌, ◌/◌, ◌<◌, ◌≤◌, length};
ghost use Rattle.ks_core.specs.Device.{Puts};
ghost use Rattle.ks_core.specs.BufferedOut.{Writes};
ghost use Rattle.kx_tool.specs.Dump.{dumped, row_at, row_text};

use ks_core::{BufferedOut, Out};
use std::io;

/// How many bytes a line shows.
const ROW: usize = 32;

/// Writes the bytes in lower-case hexadecimal, 32 a line. An error is the writer's; then a beginning of the text is
/// written. Takes no memory.
pub fn dump<O: Out>(bytes: &[u8], out: &mut O) -> io::Result<()>
    ensures { Puts O.written O.failures out.old out.new result (dumped bytes.now) }
{
    let mut buffered = BufferedOut::new();
    write_rows(&mut buffered, out, bytes);
    buffered.finish(out)
}

fn write_rows<O: Out>(buffered: &mut BufferedOut, out: &mut O, bytes: &[u8])
    ensures { Writes O.written O.failures out.old buffered.old out.new buffered.new
        (dumped bytes.now) }
{
    for index in 0..bytes.len().div_ceil(ROW) {
        write_row(buffered, out, row(bytes, index));
    }
}

/// The bytes of a row, counted from 0.
fn row(bytes: &[u8], index: usize) -> &[u8]
    requires { index < (length bytes.now + 31) / 32 }
    ensures value { result.now ≡ row_at bytes.now index }
    ensures short { length result.now ≤ 32 }
{
    let rest = &bytes[ROW * index..];
    &rest[..rest.len().min(ROW)]
}

fn write_row<O: Out>(buffered: &mut BufferedOut, out: &mut O, row: &[u8])
    requires { length row.now ≤ 32 }
    ensures { Writes O.written O.failures out.old buffered.old out.new buffered.new
        (row_text row.now) }
{
    let mut text = [0; 2 * ROW];
    let digits = &mut text[..2 * row.len()];
    match hex::encode_to_slice(row, digits) {
        Ok(()) => buffered.write(out, digits),
        Err(_) => unreachable!(),
    }
    buffered.write(out, b"\n");
}
