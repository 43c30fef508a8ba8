//! The arguments of actions.
use crate::near::Nearest;
use kx_parse::{Argument, PlacedArgument, Term};

/// The actions, and the arguments that each has.
static ARGUMENTS: [(&str, &str); 7] = [
    ("SetMods", "modifiers, clearLocks"),
    ("LatchMods", "modifiers, clearLocks, latchToLock"),
    ("LockMods", "modifiers, affect"),
    ("SetGroup", "group, clearLocks"),
    ("LatchGroup", "group, clearLocks, latchToLock"),
    ("LockGroup", "group"),
    ("NoAction", ""),
];

/// An action by its name as it is usually written, and its arguments.
pub(crate) fn action_named(word: &[u8]) -> Option<(&'static str, &'static str)> {
    for (name, arguments) in &ARGUMENTS {
        if name.as_bytes().eq_ignore_ascii_case(word) {
            return Some((name, arguments));
        }
    }
    None
}

/// The name of an action that has an effect, to which a word is near.
pub fn near_action(word: &[u8]) -> Option<&[u8]> {
    let mut nearest = Nearest::to(word);
    for (name, _) in &ARGUMENTS {
        nearest.offer(name.as_bytes());
    }
    nearest.name()
}

/// The word that says which argument is given.
pub(crate) fn argument_word(placed: &PlacedArgument) -> Option<&[u8]> {
    match &placed.argument {
        Argument::Off(word) | Argument::Set { word, .. } => Some(word.bytes.as_slice()),
        Argument::Plain(expression) => match (&expression.first, expression.rest.as_slice()) {
            (Term::Word(word), []) => Some(word.bytes.as_slice()),
            _ => None,
        },
    }
}

/// Whether a value is given with a word.
pub(crate) fn has_value(placed: &PlacedArgument) -> bool {
    matches!(&placed.argument, Argument::Set { .. })
}
