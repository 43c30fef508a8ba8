//! The includes that led to a place.
use crate::trees::{Trees, holds};
use crate::walk::Reached;
use kx_lex::At;
use std::alloc::{AllocError, Global};

/// Whether a place of a text stands in a map that is reached. In a file without a tree each does.
pub fn is_in(trees: &Trees, reached: &Reached, at: At) -> bool {
    let sections = trees.sections_in(at.file);
    reached.place.file == at.file
        && match sections.get(reached.place.section) {
            Some(section) => holds(section, at.span),
            None => sections.is_empty(),
        }
}

/// The texts of the includes that led to a place, the innermost first; none where it stands in the source.
///
/// # Errors
/// Where a growth is refused.
pub fn chain_to(
    alloc: Global,
    trees: &Trees,
    reached: &[Reached],
    at: At,
) -> Result<Vec<At>, AllocError> {
    let mut chain = Vec::new(alloc);
    let mut next = reached.iter().find(|map| is_in(trees, map, at));
    for _ in 0..reached.len() {
        let Some(Some(origin)) = next.map(|map| map.origin) else {
            break;
        };
        chain.push(origin.text)?;
        next = reached.get(origin.map);
    }
    Ok(chain)
}
