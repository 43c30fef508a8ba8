//! The keysyms and groups that keys have.
use ks_core::NameTable;
use kx_resolve::group_count;
use kx_source::ReadSource;
use kx_symbols::KeyRecord;
use std::alloc::{AllocError, Global};

/// A table of names has no more that are looked at.
const MOST_NAMES: usize = 1 << 16;

/// Adds the keysyms of a group of a key.
fn add_group(all: &mut Vec<u32>, key: &KeyRecord, group: usize) -> Result<(), AllocError> {
    for level in 0..key.width(group) {
        if let Some(keysyms) = key.keysyms(group, level) {
            all.extend_from_slice(keysyms.as_slice())?;
        }
    }
    Ok(())
}

/// Adds the keysyms of a key.
fn add_key(all: &mut Vec<u32>, key: &KeyRecord) -> Result<(), AllocError> {
    for group in 0..group_count(key) {
        add_group(all, key, group)?;
    }
    Ok(())
}

/// The keysyms that keys give, in the order of their numbers.
pub(crate) fn keysyms_given(alloc: Global, read: ReadSource) -> Result<Vec<u32>, AllocError> {
    let mut all = Vec::new(alloc);
    for code in 0..read.codes.end() {
        if let Some(key) = read.keys.key(code) {
            add_key(&mut all, key)?;
        }
    }
    all.sort()?;
    Ok(all)
}

/// The most groups that a key has.
pub(crate) fn most_groups(read: ReadSource) -> usize {
    let mut most = 0;
    for code in 0..read.codes.end() {
        if let Some(key) = read.keys.key(code) {
            most = group_count(key).max(most);
        }
    }
    most
}

fn is_named(name: &str, keysym: u32) -> bool {
    match NameTable::x11().by_name(name) {
        Some(found) => found.0 == keysym,
        None => false,
    }
}

/// Whether a keysym has a name of X11.
pub(crate) fn has_name(keysym: u32) -> bool {
    let names = NameTable::x11();
    let is_built_in = (0..MOST_NAMES)
        .map_while(NameTable::built_in_at)
        .any(|name| is_named(name, keysym));
    is_built_in
        || (0..MOST_NAMES)
            .map_while(|place| names.further_at(place))
            .any(|name| is_named(name, keysym))
}
