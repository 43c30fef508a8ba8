//! The printed text of tables means these tables: it has no fault, and whatever content it means is the one that was printed.
#![tactic(auto)]

mod law;

pub use law::printed_means_itself;
