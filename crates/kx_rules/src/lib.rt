//! The components that a rules file names for a model, layouts, variants and options, as libxkbcommon 1.5 reads it.
#![tactic(auto)]

mod columns;
mod components;
mod expansion;
mod fault;
mod limits;
mod marks;
mod matching;
mod members;
mod names;
mod passed;
mod reading;
mod skipping;
mod source;
mod state;
mod texts;
mod uses;

pub use components::Components;
pub use fault::Fault;
pub use names::Names;
pub use passed::{Passed, PassedLine, Reason};
pub use reading::{Answer, components_of};
pub use source::{SourceFault, source_of};
pub use texts::Texts;
