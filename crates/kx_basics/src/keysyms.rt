//! The keysyms that a level may have, and those that numbers stand for.
ghost use Rattle.std.specs.Prelude.{◌≡◌, ◌≤◌, ◌↔◌, IsTrue};
ghost use Rattle.kx_basics.specs.Keysyms.{IsKeysym, is_keysym, number_keysym};
ghost use Rattle.kx_basics.specs.declared.limits.TheConstants.{GREATEST_KEYSYM};

use crate::limits::{GREATEST_KEYSYM, LEAST_KEYSYM};

/// Whether a level may have this number as a keysym.
pub fn is_keysym(number: u32) -> bool
    ensures value { result ≡ is_keysym number }
    ensures fact { IsTrue result ↔ IsKeysym number }
{
    LEAST_KEYSYM <= number && number <= GREATEST_KEYSYM
}

/// The keysym that a number stands for in a keymap's text: that of the digit where it has one digit.
pub fn number_keysym(number: u32) -> u32
    requires { number ≤ GREATEST_KEYSYM }
    ensures value { result ≡ number_keysym number }
    ensures within { IsKeysym result }
{
    if number < 10 { 0x30 + number } else { number }
}
