//! Keysyms and their names, the devices that a keymap is read from and written to, and the counts of what a compiler notes.
#![tactic(auto)]

mod buffered_out;
mod builtin;
mod device;
mod digits;
mod fault;
mod further;
mod given;
mod keysym;
mod letter_table;
mod letters;
mod line;
mod memory;
mod names;
mod notes;
mod printed;
mod table;
mod x11;
mod x11_table;

pub use buffered_out::{BufferedOut, put_all};
pub use device::{Feed, Lent, Out};
pub use fault::NameFault;
pub use keysym::Keysym;
pub use letters::Letters;
pub use memory::{MemFeed, MemOut};
pub use names::NameTable;
pub use notes::{Note, Notes};
pub use printed::write_printed_name;
