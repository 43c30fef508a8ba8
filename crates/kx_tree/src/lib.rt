//! Keymap text as trees, the grammar that gives them, and its values, which are read or passed over.
#![tactic(auto)]

pub mod passing;
pub mod passing_statements;
mod tree;
pub mod values;

pub use tree::{
    Argument, BracePart, Braces, Call, Declaration, Element, Entry, Expression, Field, FieldPlace,
    Flag, Index, Item, KeyField, Kind, List, Mode, Operation, PlacedArgument, Predicate, Section,
    Setting, Sign, Signed, Stated, Statement, Symbol, Term, Tree, Value,
};
