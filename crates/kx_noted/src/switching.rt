//! Which groups a keyboard can be in.
use crate::statements::Reader;
use kx_actions::KeyAction;
use kx_group_names::group_names;
use kx_resolve::group_count;
use kx_symbols::KeyRecord;
use std::alloc::Global;

/// The keysym Mode_switch, which changes the group while it is held.
const MODE_SWITCH: u32 = 0xff7e;

/// The greatest keycode of X11.
const X11_KEYCODES: u16 = 255;

/// Whether a keysym changes the group, as interpretations have it: ISO_Group_Latch to ISO_Last_Group_Lock.
fn changes_group(keysym: u32) -> bool {
    matches!(keysym, 0xfe06..=0xfe0f)
}

fn is_group_action(action: KeyAction) -> bool {
    matches!(
        action,
        KeyAction::SetGroup { .. } | KeyAction::LatchGroup { .. } | KeyAction::LockGroup { .. }
    )
}

/// Whether a level of a group has an action that changes the group.
fn has_group_action(key: &KeyRecord, group: usize, level: usize) -> bool {
    match key.action(group, level) {
        Some(action) => is_group_action(action),
        None => false,
    }
}

/// Whether a level of a group changes the group.
fn level_changes_group(key: &KeyRecord, group: usize, level: usize, is_own: bool) -> bool {
    if has_group_action(key, group, level) {
        return true;
    }
    match key.keysyms(group, level) {
        Some(keysyms) => keysyms.as_slice().iter().any(|keysym| changes_group(*keysym)
            || is_own && *keysym == MODE_SWITCH),
        None => false,
    }
}

/// Whether a key changes the group.
fn key_changes_group(key: &KeyRecord, is_own: bool) -> bool {
    (0..group_count(key)).any(|group| {
        (0..key.width(group)).any(|level| level_changes_group(key, group, level, is_own))
    })
}

/// Whether a key changes the group. Installed files give some of these to keys that keyboards don't have: by Mode_switch, and
/// to keycodes that X11 doesn't have.
fn changes_groups(reader: &Reader) -> bool {
    let read = reader.read;
    (0..read.codes.end()).any(|code| match (read.keys.key(code), reader.place_of(code)) {
        (Some(key), Some(at)) => {
            let is_own = !reader.is_installed(at.file);
            (is_own || code <= X11_KEYCODES) && key_changes_group(key, is_own)
        }
        _ => false,
    })
}

/// Whether a key has more than one group.
fn has_groups(reader: &Reader) -> bool {
    let read = reader.read;
    (0..read.codes.end()).any(|code| match read.keys.key(code) {
        Some(key) => group_count(key) > 1,
        None => false,
    })
}

/// How many groups a keyboard can be in: all, where a key changes the group, since then others follow, else those up to the last
/// that has a name, which a desktop's menu shows, and the first.
pub(crate) fn groups_in_use(alloc: Global, reader: &Reader) -> usize {
    if !has_groups(reader) || changes_groups(reader) {
        return usize::MAX;
    }
    match group_names(alloc, &reader.read.bodies.symbols) {
        Ok(names) => names.len().max(1),
        Err(_) => usize::MAX,
    }
}
