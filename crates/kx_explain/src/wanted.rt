//! What fields and arguments want as their values.

const MASK: &str = "a mask of modifiers, as Shift+Control";

const TRUTH: &str = "a truth value, as yes or no";

const TEXT: &str = "a text between quotes";

pub(crate) const GROUP: &str = "a group, as 2 or Group2";

const LEVEL: &str = "a level, as 2 or Level2";

const STATES: &str = "states, as base+locked";

const VIRTUAL_MASK: &str = "a mask of virtual modifiers";

const VIRTUAL: &str = "the name of one virtual modifier";

/// The words of fields and arguments that want the same, and what that is.
static VALUES: [(&str, &str); 17] = [
    ("modifiers, mods, preserve", MASK),
    ("map", LEVEL),
    ("level_name, levelname, name, type", TEXT),
    ("symbols", "a list of keysyms, as [a, A]"),
    ("actions", "a list of actions, as [NoAction()]"),
    ("vmods, virtualMods, virtualModifiers", VIRTUAL_MASK),
    ("groupsWrap, wrapGroups, groupsClamp, clampGroups", TRUTH),
    ("clearLocks, latchToLock", TRUTH),
    ("groupsRedirect, redirectGroups", GROUP),
    ("action", "an action, as SetMods(modifiers=Shift)"),
    ("virtualModifier, virtualMod", VIRTUAL),
    ("useModMapMods, useModMap", "level1 or any"),
    ("whichModState, whichGroupState", STATES),
    ("groups", "groups, as Group1+Group2"),
    ("affect", "lock, unlock, both or neither"),
    ("group", "a group, as 2 or +1"),
    ("minimum, maximum", "a number"),
];

/// Whether a word is one of these.
pub(crate) fn is_among(known: &'static str, word: &[u8]) -> bool {
    known.split(", ").any(|name| {
        let name = name.as_bytes();
        let name = name.strip_suffix(b"[..]").unwrap_or(name);
        name.eq_ignore_ascii_case(word)
    })
}

/// What a field or an argument of a word wants.
pub(crate) fn wanted_value(word: &[u8]) -> Option<&'static str> {
    for (words, wanted) in &VALUES {
        if is_among(words, word) {
            return Some(wanted);
        }
    }
    None
}

/// What stands in the brackets after a word.
pub(crate) fn wanted_index(word: &[u8]) -> &'static str {
    if word.eq_ignore_ascii_case(b"map") || word.eq_ignore_ascii_case(b"preserve") {
        MASK
    } else if word.eq_ignore_ascii_case(b"level_name") || word.eq_ignore_ascii_case(b"levelname") {
        LEVEL
    } else {
        GROUP
    }
}
