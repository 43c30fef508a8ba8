//! The levels of types.
use kx_types::{KeyType, Types};
use std::alloc::{AllocError, Global};

/// A type has so many levels at most.
const MOST_LEVELS: usize = 64;

/// Of each level of a type, from 0, whether an entry leads to it.
pub(crate) type Reached = [bool; MOST_LEVELS];

/// The levels to which a type's entries lead.
fn reached_in(key_type: &KeyType) -> Reached {
    let mut reached = [false; MOST_LEVELS];
    for entry in key_type.entries() {
        if let Some(level) = reached.get_mut(usize::from(entry.level).saturating_sub(1)) {
            *level = true;
        }
    }
    reached
}

/// The first level after the first to which no entry of a type leads, from 1.
pub(crate) fn unreached_level(key_type: &KeyType) -> Option<usize> {
    let reached = reached_in(key_type);
    let count = usize::from(key_type.levels());
    let level = (1..count).find(|level| !reached.get(*level).copied().unwrap_or(true))?;
    Some(level.saturating_add(1))
}

/// The levels to which the entries of each type lead, by its place; of a type that isn't declared each counts as one.
pub(crate) fn reached_levels(alloc: Global, types: &Types) -> Result<Vec<Reached>, AllocError> {
    let mut all = Vec::new(alloc);
    for place in 0..types.len() {
        let reached = match types.at(place) {
            Some((_, Some(key_type))) => reached_in(key_type),
            _ => [true; MOST_LEVELS],
        };
        all.push(reached)?;
    }
    Ok(all)
}
