//! The headline in one statement: over the image that a source is compiled to, a keyboard answers as the source means;
//! and the laws that a source means one thing, and nothing where it has a fault.
#![tactic(auto)]

mod laws;
mod playing;

pub use laws::{faults_mean_nothing, one_meaning};
pub use playing::play;
