//! The kinds of what is passed over.
use std::fmt;
use std::fmt::{Formatter, Write};

/// A kind of what is passed over. The first five are those that a compiler counts in its notes; the others are likely slips,
/// which change nothing of what is compiled.
#[derive(Clone, Copy)]
pub enum WarningKind {
    /// Names of keysyms that no table has.
    Keysyms,
    /// Names of keys without a keycode.
    Keys,
    /// Groups with ONE_LEVEL in place of another type.
    Types,
    /// Groups that lost levels.
    Levels,
    /// Actions without effect.
    Actions,
    /// Keys that are written again in one map.
    Again,
    /// Groups with a level to which no modifiers lead.
    Unreached,
    /// Keys with groups to which nothing leads, or which X11 doesn't have, and with types for groups that they don't have.
    Groups,
    /// Statements that others of their kind replace.
    Repeated,
    /// Entries of types that can't be met, and modifiers of types without an entry.
    Entries,
    /// Statements that say nothing.
    Idle,
}

/// How many kinds there are.
pub(crate) const KIND_COUNT: usize = 11;

/// The kinds in the order in which they are counted.
pub static KINDS: [WarningKind; KIND_COUNT] = [
    WarningKind::Keysyms,
    WarningKind::Keys,
    WarningKind::Types,
    WarningKind::Levels,
    WarningKind::Actions,
    WarningKind::Again,
    WarningKind::Unreached,
    WarningKind::Groups,
    WarningKind::Repeated,
    WarningKind::Entries,
    WarningKind::Idle,
];

impl WarningKind {
    /// Its place among the kinds.
    pub(crate) fn place(self) -> usize {
        match self {
            WarningKind::Keysyms => 0,
            WarningKind::Keys => 1,
            WarningKind::Types => 2,
            WarningKind::Levels => 3,
            WarningKind::Actions => 4,
            WarningKind::Again => 5,
            WarningKind::Unreached => 6,
            WarningKind::Groups => 7,
            WarningKind::Repeated => 8,
            WarningKind::Entries => 9,
            WarningKind::Idle => 10,
        }
    }

    /// Whether a compiler's notes count it.
    pub(crate) fn is_noted(self) -> bool {
        self.place() <= WarningKind::Actions.place()
    }

    /// What is said of one.
    fn of_one(self) -> &'static str {
        match self {
            WarningKind::Keysyms => "keysym has no name here",
            WarningKind::Keys => "key has no keycode",
            WarningKind::Types => "group has ONE_LEVEL in place of its type",
            WarningKind::Levels => "group has lost levels",
            WarningKind::Actions => "action has no effect",
            WarningKind::Again => "key is written again",
            WarningKind::Unreached => "group has levels to which nothing leads",
            WarningKind::Groups => "key has groups that can't be used",
            WarningKind::Repeated => "statement is replaced by another",
            WarningKind::Entries => "type has entries that can't be met",
            WarningKind::Idle => "statement says nothing",
        }
    }

    /// What is said of several.
    fn of_several(self) -> &'static str {
        match self {
            WarningKind::Keysyms => "keysyms have no name here",
            WarningKind::Keys => "keys have no keycode",
            WarningKind::Types => "groups have ONE_LEVEL in place of their type",
            WarningKind::Levels => "groups have lost levels",
            WarningKind::Actions => "actions have no effect",
            WarningKind::Again => "keys are written again",
            WarningKind::Unreached => "groups have levels to which nothing leads",
            WarningKind::Groups => "keys have groups that can't be used",
            WarningKind::Repeated => "statements are replaced by others",
            WarningKind::Entries => "types have entries that can't be met",
            WarningKind::Idle => "statements say nothing",
        }
    }
}

/// How many there are of a kind, in words.
#[derive(Clone, Copy)]
pub struct Counted {
    pub kind: WarningKind,
    pub count: usize,
    /// Whether others were shown before these.
    pub is_rest: bool,
}

/// Writes a number with a comma between thousands.
fn write_number<W: Write>(f: &mut Formatter<W>, number: usize) -> fmt::Result {
    let millions = number / 1_000_000;
    let thousands = number / 1000 % 1000;
    let ones = number % 1000;
    if millions > 0 {
        write!(f, "{millions},{thousands:03},{ones:03}")
    } else if thousands > 0 {
        write!(f, "{thousands},{ones:03}")
    } else {
        write!(f, "{ones}")
    }
}

impl fmt::Display for Counted {
    fn fmt<W: Write>(&self, f: &mut Formatter<W>) -> fmt::Result {
        write_number(f, self.count)?;
        f.write_str(if self.is_rest { " more " } else { " " })?;
        f.write_str(match self.count {
            1 => self.kind.of_one(),
            _ => self.kind.of_several(),
        })
    }
}
