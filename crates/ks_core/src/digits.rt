//! Numbers in digits.
ghost use Rattle.std.specs.Prelude.{◌≡◌, ◌+◌, ◌<◌, ◌≤◌, [], ◌∷◌, ◌++◌, length};
ghost use Rattle.std.specs.Char.{is_ascii_hexdigit};
ghost use Rattle.std.specs.Fmt.{digit_glyph};
ghost use Rattle.std.specs.Int.Digits.{digits_of};
ghost use Rattle.std.specs.List.{list_all};
ghost use Rattle.std.specs.Str.Parse.{AllDigits, digits_value};
ghost use Rattle.ks_core.specs.Digits.{in_32_bits};
ghost use Rattle.ks_core.specs.Name.{is_hex};
ghost use Rattle.ks_core.specs.Names.{hex_digits};

use arrayvec::ArrayString;
use kx_basics::{decimal_value, hex_value};

/// A number, where it fits 32 bits.
#[tactic(auto, unfolding(crate::specs::Digits::in_32_bits))]
fn in_32_bits(value: u64) -> Option<u32>
    ensures { result ≡ in_32_bits value }
{
    if value < 1 << 32 {
        Some(value as u32)
    } else {
        None
    }
}

/// The number that decimal digits spell, where it fits 32 bits.
#[tactic(auto, unfolding(crate::specs::Digits::in_32_bits))]
pub(crate) fn decimal_number(digits: &[u8]) -> Option<u32>
    ensures { result ≡ in_32_bits (digits_value 10 digits.now) }
{
    in_32_bits(decimal_value(digits))
}

/// The number that hexadecimal digits spell, where it fits 32 bits.
#[tactic(auto, unfolding(crate::specs::Digits::in_32_bits))]
pub(crate) fn whole_hex_number(digits: &[u8]) -> Option<u32>
    ensures { result ≡ in_32_bits (digits_value 16 digits.now) }
{
    in_32_bits(hex_value(digits))
}

/// The number that at most 8 hexadecimal digits spell.
pub(crate) fn hex_number(digits: &[u8]) -> u32
    requires digits { AllDigits 16 digits.now }
    requires few { length digits.now ≤ 8 }
    ensures { result ≡ digits_value 16 digits.now }
{
    match whole_hex_number(digits) {
        Some(number) => number,
        None => unreachable!(),
    }
}

/// Whether these are 1 to `most` hexadecimal digits.
#[tactic(auto, unfolding(crate::specs::Name::is_hex))]
pub(crate) fn is_hex(digits: &[u8], most: usize) -> bool
    ensures { result ≡ is_hex most digits.now }
{
    if digits.is_empty() || digits.len() > most {
        return false;
    }
    are_hex(digits)
}

fn are_hex(digits: &[u8]) -> bool
    ensures { result ≡ list_all is_ascii_hexdigit digits.now }
{
    digits.iter().all(|byte| byte.is_ascii_hexdigit())
}

/// Appends the hexadecimal digits of the number, without leading zeros.
pub(crate) fn push_hex(text: &mut ArrayString<64>, number: u32, is_upper: bool)
    requires { length text.old.bytes + length (digits_of 16 number) ≤ 64 }
    ensures { text.new.bytes ≡ text.old.bytes ++ hex_digits is_upper number }
{
    if number > 0 {
        push_hex(text, number / 16, is_upper);
        push_ascii(text, hex_digit(number % 16, is_upper));
    }
}

/// Appends one byte of ASCII.
fn push_ascii(text: &mut ArrayString<64>, byte: u8)
    requires ascii { byte < 128 }
    requires room { length text.old.bytes < 64 }
    ensures { text.new.bytes ≡ text.old.bytes ++ byte ∷ [] }
{
    text.push(byte as char);
}

fn hex_digit(digit: u32, is_upper: bool) -> u8
    requires { digit < 16 }
    ensures value { result ≡ digit_glyph is_upper digit }
    ensures ascii { result < 128 }
{
    let digit = digit as u8;
    if digit < 10 {
        b'0' + digit
    } else if is_upper {
        b'A' + (digit - 10)
    } else {
        b'a' + (digit - 10)
    }
}
