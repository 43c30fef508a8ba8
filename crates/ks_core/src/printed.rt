//! Names as printed text writes them, so that they stay on their line and between quotes.
ghost use Rattle.std.specs.Prelude.{◌≡◌, [], ◌∷◌};
ghost use Rattle.ks_core.specs.BufferedOut.{Writes};
ghost use Rattle.ks_core.specs.PrintedName.{is_plain, octal, printed_byte, printed_name};

use crate::buffered_out::BufferedOut;
use crate::device::Out;

/// Whether a byte stands as it is: 0x20 to 0x7e, but `"` and `\`.
fn is_plain(byte: u8) -> bool
    ensures { result ≡ is_plain byte }
{
    32 <= byte && byte <= 126 && byte != b'"' && byte != b'\\'
}

/// A byte as `\` and three octal digits.
fn octal(byte: u8) -> [u8; 4]
    ensures { result ≡ octal byte }
{
    [
        b'\\',
        b'0' + byte / 64,
        b'0' + byte / 8 % 8,
        b'0' + byte % 8,
    ]
}

fn write_printed_byte<O: Out>(buffered: &mut BufferedOut, out: &mut O, byte: u8)
    ensures { Writes O.written O.failures out.old buffered.old out.new buffered.new
        (printed_byte byte) }
{
    if is_plain(byte) {
        buffered.write(out, &[byte]);
    } else {
        buffered.write(out, &octal(byte));
    }
}

/// Writes a name as printed text writes it: the bytes 0x20 to 0x7e but `"` and `\` as they are, any other as `\` and
/// three octal digits.
pub fn write_printed_name<O: Out>(buffered: &mut BufferedOut, out: &mut O, name: &[u8])
    ensures { Writes O.written O.failures out.old buffered.old out.new buffered.new
        (printed_name name.now) }
{
    for byte in name {
        write_printed_byte(buffered, out, *byte);
    }
}
