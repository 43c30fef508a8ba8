//! How often a compiler met what it passes over.
ghost use Rattle.std.specs.Prelude.{◌≡◌};
ghost use Rattle.ks_core.specs.Notes.{counted, added};

/// What is noted: it is no fault, and means less than its writer may think.
#[derive(Clone, Copy, PartialEq, Eq)]
pub enum Note {
    /// An unknown name of a keysym.
    UnknownKeysym,
    /// An unknown name of a key.
    UnknownKey,
    /// A key and group whose type is not the one that was asked for.
    OtherType,
    /// A key and group that lost keysyms or actions beyond the levels of its type.
    LostLevels,
    /// An action without effect.
    IdleAction,
}

/// Counts of notes by kind. Each stops at its greatest value.
#[derive(Clone, Copy, Default, PartialEq, Eq)]
pub struct Notes {
    pub keysyms: u32,
    pub keys: u32,
    pub types: u32,
    pub levels: u32,
    pub actions: u32,
}

impl Notes {
    /// No notes.
    pub fn new() -> Notes
        ensures { result ≡ record { keysyms = 0; keys = 0; types = 0; levels = 0; actions = 0 } }
    {
        Notes {
            keysyms: 0,
            keys: 0,
            types: 0,
            levels: 0,
            actions: 0,
        }
    }

    /// Counts one more note.
    pub fn count(&mut self, note: Note)
        ensures { self.new ≡ counted self.old note }
    {
        match note {
            Note::UnknownKeysym => self.keysyms = self.keysyms.saturating_add(1),
            Note::UnknownKey => self.keys = self.keys.saturating_add(1),
            Note::OtherType => self.types = self.types.saturating_add(1),
            Note::LostLevels => self.levels = self.levels.saturating_add(1),
            Note::IdleAction => self.actions = self.actions.saturating_add(1),
        }
    }

    /// The counts of both.
    #[must_use]
    pub fn saturating_add(self, other: Notes) -> Notes
        ensures { result ≡ added self other }
    {
        Notes {
            keysyms: self.keysyms.saturating_add(other.keysyms),
            keys: self.keys.saturating_add(other.keys),
            types: self.types.saturating_add(other.types),
            levels: self.levels.saturating_add(other.levels),
            actions: self.actions.saturating_add(other.actions),
        }
    }
}
