//! Includes: what their texts name among the files handed in, and the body of each section kind.
#![tactic(auto)]

mod expanding;
mod expansion;
mod file_text;
mod files;
mod indexed;
mod kind_maps;
mod map_index;
mod place;
mod reaching;
mod reading;
mod sources;
mod text;

pub use expansion::{Bodies, Entry, Expansion, Link, Map};
pub use file_text::FileText;
pub use files::Files;
pub use kx_parse::{Part, include_parts};
pub use map_index::MapIndex;
pub use place::Place;
pub use sources::Library;
