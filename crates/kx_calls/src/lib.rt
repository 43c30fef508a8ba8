//! What the calls for C do: the structs of C, what they say of keymaps and keyboards, and what is done with what a handle
//! has. The calls themselves stand in the library for C.
#![tactic(auto)]

pub mod compiling;
pub mod fault;
pub mod files;
pub mod folders;
pub mod follower;
pub mod gathering;
pub mod keyboard;
pub mod keymap;
pub mod left;
pub mod names;
pub mod notes;
pub mod out;
pub mod reply;
pub mod row;
pub mod rows;
pub mod source_compiling;
pub mod spots;
pub mod state;
pub mod status;
pub mod text;
pub mod typed;
pub mod words;
