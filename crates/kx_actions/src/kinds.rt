//! The words of actions and of their arguments.
ghost use Rattle.std.specs.Prelude.{◌≡◌, is_some};
ghost use Rattle.kx_merge.specs.Words.{among};
ghost use Rattle.kx_actions.specs.Words.{argument_words, field_of, has_field, kind_words};

/// The actions whose arguments have a meaning.
#[derive(Clone, Copy, PartialEq, Eq)]
pub(crate) enum ActionKind {
    SetMods,
    LatchMods,
    LockMods,
    SetGroup,
    LatchGroup,
    LockGroup,
    NoAction,
}

/// What arguments of actions set.
#[derive(Clone, Copy, PartialEq, Eq)]
pub(crate) enum ActionField {
    Modifiers,
    Group,
    Affect,
    ClearLocks,
    LatchToLock,
}

pub(crate) fn kind_named(word: &[u8]) -> Option<ActionKind>
    ensures { result ≡ among kind_words word.now }
{
    if word.eq_ignore_ascii_case(b"setMods") {
        Some(ActionKind::SetMods)
    } else if word.eq_ignore_ascii_case(b"latchMods") {
        Some(ActionKind::LatchMods)
    } else if word.eq_ignore_ascii_case(b"lockMods") {
        Some(ActionKind::LockMods)
    } else if word.eq_ignore_ascii_case(b"setGroup") {
        Some(ActionKind::SetGroup)
    } else if word.eq_ignore_ascii_case(b"latchGroup") {
        Some(ActionKind::LatchGroup)
    } else if word.eq_ignore_ascii_case(b"lockGroup") {
        Some(ActionKind::LockGroup)
    } else if word.eq_ignore_ascii_case(b"noAction") {
        Some(ActionKind::NoAction)
    } else {
        None
    }
}

/// Whether a word is the name of one of the seven actions, in capital letters or small. A field of such a word's, as
/// `setMods.clearLocks`, is a default for the action.
pub fn is_action_word(word: &[u8]) -> bool
    ensures { result ≡ is_some (among kind_words word.now) }
{
    kind_named(word).is_some()
}

fn field_named(word: &[u8]) -> Option<ActionField>
    ensures { result ≡ among argument_words word.now }
{
    if word.eq_ignore_ascii_case(b"modifiers") {
        Some(ActionField::Modifiers)
    } else if word.eq_ignore_ascii_case(b"mods") {
        Some(ActionField::Modifiers)
    } else if word.eq_ignore_ascii_case(b"group") {
        Some(ActionField::Group)
    } else if word.eq_ignore_ascii_case(b"affect") {
        Some(ActionField::Affect)
    } else if word.eq_ignore_ascii_case(b"clearLocks") {
        Some(ActionField::ClearLocks)
    } else if word.eq_ignore_ascii_case(b"latchToLock") {
        Some(ActionField::LatchToLock)
    } else {
        None
    }
}

impl ActionKind {
    ghost use Rattle.std.specs.Prelude.{◌≡◌};
    ghost use Rattle.kx_actions.specs.Words.{field_of, has_field};

    fn has(self, field: ActionField) -> bool
        ensures { result ≡ has_field self field }
    {
        match (self, field) {
            (ActionKind::SetMods, ActionField::Modifiers | ActionField::ClearLocks) => true,
            (
                ActionKind::LatchMods,
                ActionField::Modifiers | ActionField::ClearLocks | ActionField::LatchToLock,
            ) => true,
            (ActionKind::LockMods, ActionField::Modifiers | ActionField::Affect) => true,
            (ActionKind::SetGroup, ActionField::Group | ActionField::ClearLocks) => true,
            (
                ActionKind::LatchGroup,
                ActionField::Group | ActionField::ClearLocks | ActionField::LatchToLock,
            ) => true,
            (ActionKind::LockGroup, ActionField::Group) => true,
            _ => false,
        }
    }

    /// The field of this action that a word names.
    pub(crate) fn field_of(self, word: &[u8]) -> Option<ActionField>
        ensures { result ≡ field_of self word.now }
    {
        match field_named(word) {
            Some(field) if self.has(field) => Some(field),
            _ => None,
        }
    }
}
