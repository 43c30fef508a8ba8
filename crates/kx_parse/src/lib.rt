//! Tokens as trees: the grammar of keymap text, and of the texts of its includes.
#![tactic(auto)]

mod fields;
mod outline;
mod part;
mod sections;
mod statements;

pub use kx_lex::{Boxed, Bytes, KeyName, Name, Number, Row, SmallRow};
pub use kx_tree::{
    Argument, BracePart, Braces, Call, Declaration, Element, Entry, Expression, Field, FieldPlace,
    Flag, Index, Item, KeyField, Kind, List, Mode, Operation, PlacedArgument, Predicate, Section,
    Setting, Sign, Signed, Stated, Statement, Symbol, Term, Tree, Value,
};
pub use outline::{Outline, built_sections, outline_file, outline_source};
pub use part::{Part, include_parts};
pub use sections::{one_stop, one_tree, parse, parse_file, stops};
