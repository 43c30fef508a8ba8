//! The calls of xkc for C, as `include/xkc.h` declares them.
#![tactic(auto)]

mod characters;
mod compiling;
mod follower;
mod gathering;
mod keyboard;
mod keymap;
mod left;
mod names;
mod rows;
mod source;
mod source_compiling;
mod spots;
mod text;
mod words;
