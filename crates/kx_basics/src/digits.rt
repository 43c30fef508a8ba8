//! Numbers in digits.
ghost use Rattle.std.specs.Prelude.{◌≡◌, ◌≤◌, ◌<◌, ◌^◌, min};
ghost use Rattle.std.specs.Char.{digit_value};
ghost use Rattle.std.specs.Str.Parse.{digits_value};

/// The number that digits write in a base, or 2^32 where it is greater. A byte that is no digit counts as 36.
fn digits_value(digits: &[u8], base: u64) -> u64
    requires some { 1 ≤ base }
    requires written { base ≤ 36 }
    ensures { result ≡ min (digits_value base digits.now) (2 ^ 32) }
{
    let mut value = 0;
    for digit in digits {
        if value >= 1 << 32 {
            return 1 << 32;
        }
        value = value * base + digit_of(*digit);
    }
    value.min(1 << 32)
}

/// The number that decimal digits write, or 2^32 where it is greater. A byte that is no digit counts as 36, a letter as its digit.
pub fn decimal_value(digits: &[u8]) -> u64
    ensures { result ≡ min (digits_value 10 digits.now) (2 ^ 32) }
{
    digits_value(digits, 10)
}

/// The number that hexadecimal digits write, or 2^32 where it is greater. A byte that is no digit counts as 36, a letter as
/// its digit.
pub fn hex_value(digits: &[u8]) -> u64
    ensures { result ≡ min (digits_value 16 digits.now) (2 ^ 32) }
{
    digits_value(digits, 16)
}

/// The value of a digit; 36 of another byte.
fn digit_of(byte: u8) -> u64
    ensures value { result ≡ digit_value byte }
    ensures small { result < 37 }
{
    match byte {
        b'0'..=b'9' => u64::from(byte - b'0'),
        b'A'..=b'Z' => u64::from(byte - b'A') + 10,
        b'a'..=b'z' => u64::from(byte - b'a') + 10,
        _ => 36,
    }
}
