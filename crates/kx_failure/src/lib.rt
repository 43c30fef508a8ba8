//! Why a task of the program ends early, the line and the words that say so, and the status that it leaves; and a fault of a
//! keymap's texts as a person sees it.
#![tactic(auto)]

mod failure;
mod file_kind;
mod shown;
mod words;

pub use failure::{DEVICE, Failure};
pub use file_kind::FileKind;
pub use shown::{Shown, show_position};
pub use words::Words;
