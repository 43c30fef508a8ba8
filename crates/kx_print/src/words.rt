//! Names and numbers of a printed text.
ghost use Rattle.std.specs.Prelude.{◌≡◌, ◌<◌, ◌++◌, false, codes, decimal, length};
ghost use Rattle.std.specs.Fmt.{digit_glyph};
ghost use Rattle.ks_core.specs.BufferedOut.{Writes};
ghost use Rattle.ks_core.specs.Names.{hex_digits};
ghost use Rattle.kx_print.specs.Phrases.{hexadecimal, quoted};

use itoa::Buffer;
use ks_core::{BufferedOut, Out, write_printed_name};

/// Writes a number in decimal.
pub fn write_number<O: Out>(buffered: &mut BufferedOut, out: &mut O, number: u16)
    ensures { Writes O.written O.failures out.old buffered.old out.new buffered.new
        (decimal number) }
{
    let mut buffer = Buffer::new();
    buffered.write(out, buffer.format(number).as_bytes());
}

/// Writes a name between quotes, as printed text writes it.
pub fn write_quoted<O: Out>(buffered: &mut BufferedOut, out: &mut O, name: &[u8])
    ensures { Writes O.written O.failures out.old buffered.old out.new buffered.new
        (quoted name.now) }
{
    buffered.write(out, b"\"");
    write_printed_name(buffered, out, name);
    buffered.write(out, b"\"");
}

/// Writes a number in hexadecimal, after `0x`.
pub fn write_hexadecimal<O: Out>(buffered: &mut BufferedOut, out: &mut O, number: u32)
    ensures { Writes O.written O.failures out.old buffered.old out.new buffered.new
        (hexadecimal number) }
{
    buffered.write(out, b"0x");
    if number == 0 {
        buffered.write(out, b"0");
    } else {
        write_digits(buffered, out, number);
    }
}

/// Writes the hexadecimal digits of a number, none of 0.
fn write_digits<O: Out>(buffered: &mut BufferedOut, out: &mut O, number: u32)
    ensures { Writes O.written O.failures out.old buffered.old out.new buffered.new
        (hex_digits false number) }
{
    if number > 0 {
        write_digits(buffered, out, number / 16);
        buffered.write(out, &[digit(number % 16)]);
    }
}

/// A hexadecimal digit.
fn digit(value: u32) -> u8
    requires { value < 16 }
    ensures { result ≡ digit_glyph false value }
{
    let value = value as u8;
    if value < 10 {
        b'0' + value
    } else {
        b'a' + (value - 10)
    }
}
