//! What the program does: the tasks that its words ask for, and what a user sees of each.
#![tactic(auto)]

mod answering;
mod putting;
mod showing;
mod tasks;

pub use kx_failure::{Failure, Shown};
pub use kx_keymaps::{out_of_memory, word_that_is_not_text};
pub use kx_words::awaited;
pub use showing::Warned;
pub use tasks::{run, run_words};
