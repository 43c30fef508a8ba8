//! Keymaps as the program reads them, what it shows of them, and what it says where it can't.
#![tactic(auto)]

mod failing;
mod looking;
mod named;
mod printing;
mod sources;
mod usage;

pub use failing::{fail, fail_aside, show_fault};
pub use looking::{find_in_keymap, print_names, show_keymap};
pub use named::{print_list, print_source, read_keymap, show_asked};
pub use printing::print_keymap;
pub use sources::{Gathered, find, gather_source, read_handed, read_names, read_or_input};
pub use usage::{explain, out_of_memory, refuse_words, word_that_is_not_text};
