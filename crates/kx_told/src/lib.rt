//! Files and the environment as a program in C has told them, for a library, which can't read them itself.
#![tactic(auto)]

mod environment;
mod file;
mod told;

pub use environment::Variables;
pub use file::ToldFile;
pub use told::Told;
