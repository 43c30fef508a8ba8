//! What C holds of sources: a source with the files that its includes reach, what the image of one leaves out, and what is said of
//! something that went wrong.
#![tactic(auto)]

mod finding;
mod gathering;
mod gathering_handle;
mod left_handle;
mod naming;
mod saying;
mod source;
mod source_handle;
mod unread;
mod words;
mod words_handle;
mod work;

pub use gathering::{Gathering, Start};
pub use gathering_handle::GatheringHandle;
pub use left_handle::LeftHandle;
pub use naming::Names;
pub use source::HeldSource;
pub use source_handle::SourceHandle;
pub use unread::Unread;
pub use words::Words;
pub use words_handle::WordsHandle;
pub use work::{Named, Stop};
