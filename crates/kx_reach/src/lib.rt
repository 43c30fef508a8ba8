//! What a source's includes reach: maps among texts that were handed in, and files as they lie under folders.
#![tactic(auto)]

mod ahead;
mod chain;
mod folder;
mod handing;
mod kinds;
mod search;
mod text;
mod trees;
mod walk;

pub use ahead::{Ahead, source_in};
pub use chain::{chain_to, is_in};
pub use folder::{Folder, read_file, read_opened};
pub use handing::hand_in;
pub use search::{FindFault, Finding, Found, find_files};
pub use text::{Text, Texts, bytes_in, is_within};
pub use trees::{Trees, holds, item_at, item_span};
pub use walk::{MOST_PARTS, Origin, Reached, place_named, reached_from, reached_maps};
