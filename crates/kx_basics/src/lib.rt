//! What both halves of the compiler speak of: the limits of a keymap, the bytes of keys' names, the keysyms that a level
//! may have, and numbers in digits.
#![tactic(auto)]

mod digits;
mod key_names;
mod keysyms;
mod limits;

pub use digits::{decimal_value, hex_value};
pub use key_names::is_key_byte;
pub use keysyms::{is_keysym, number_keysym};
pub use limits::{
    CODES, GREATEST_CODE, GREATEST_KEYSYM, LEAST_KEYSYM, MOST_GROUPS, MOST_KEYSYMS, MOST_LEVELS,
    MOST_NAME_BYTES,
};
