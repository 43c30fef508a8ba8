//! The words that the program is called with, and what they ask for.
#![tactic(auto)]

mod commands;
mod input;
mod naming;
mod reading;
mod task;
mod words;

pub use input::{awaited, not_text};
pub use naming::environment_for;
pub use task::{Compile, INPUT, Includes, Keymap, Source, Task, Try, is_output};
pub use words::task_in;
