//! From keymap text to the lines that answer events.
#![tactic(auto)]

mod compiler;
mod dumping;
mod printed;
mod replaying;
mod sessions;

pub use compiler::{compile, compile_once};
pub use dumping::dump;
pub use kx_include::Files;
pub use kx_lines::fault::{ReplayFault, SessionFault};
pub use kx_lines::input::MOST_BYTES;
pub use kx_lines::locating::{Position, locate};
pub use printed::compile_printed;
pub use replaying::replay;
pub use sessions::session;
