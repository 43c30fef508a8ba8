//! The rows of tables.
ghost use Rattle.std.specs.Prelude.{◌≡◌, ◌<◌, ◌^◌, ⊤, [], ◌∷◌, codes};

use bitflags::{Flag, Flags, bitflag_items};
use kx_mods::Mods;

/// What becomes of an effective group that a key doesn't have. Groups are counted from 0.
#[derive(Clone, Copy, Debug, PartialEq, Eq)]
pub enum Range {
    /// The group is taken modulo the key's number of groups.
    Wrap,
    /// The nearest group of the key: the first for a negative one, else the last.
    Clamp,
    /// This group, or the first where the key doesn't have it.
    Redirect(u8),
}

/// The group that an action names.
#[derive(Clone, Copy, Debug, PartialEq, Eq)]
pub enum GroupChange {
    /// This group, counted from 0, at most 31.
    Absolute(u8),
    /// So many groups on, from -32 to 32.
    Relative(i8),
}

/// What a level does to the keyboard's state.
#[derive(Clone, Copy, Debug, PartialEq, Eq)]
pub enum Action {
    /// Nothing.
    None,
    /// The modifiers are set while the key is held.
    SetMods {
        mods: Mods,
        clear_locks: bool,
    },
    /// The modifiers are set while the key is held, and then for one more key.
    LatchMods {
        mods: Mods,
        clear_locks: bool,
        latch_to_lock: bool,
    },
    /// The modifiers are set while the key is held; they are locked at the press, and those that were locked before are unlocked at the release.
    LockMods {
        mods: Mods,
        locks: bool,
        unlocks: bool,
    },
    /// The base group is changed while the key is held.
    SetGroup {
        group: GroupChange,
        clear_locks: bool,
    },
    /// The base group is changed while the key is held, and then for one more key.
    LatchGroup {
        group: GroupChange,
        clear_locks: bool,
        latch_to_lock: bool,
    },
    /// The locked group is changed at the press.
    LockGroup {
        group: GroupChange,
    },
}

/// The states that an indicator looks at: bit 0 is base, 1 latched, 2 locked, 3 effective.
#[derive(Clone, Copy, PartialEq, Eq)]
pub struct States(u8);

bitflag_items! {
    impl States: u8 {
        const BASE = 1;
        const LATCHED = 2;
        const LOCKED = 4;
        const EFFECTIVE = 8;
    }
}

impl Flags for States {
    type Bits = u8;

    ghost exact = { ⊤ };

    ghost table = { (codes "BASE", 1) ∷ (codes "LATCHED", 2) ∷ (codes "LOCKED", 4)
        ∷ (codes "EFFECTIVE", 8) ∷ [] };

    ghost set_of = { λ s. s.0 };

    fn flags<'a>() -> &'a [Flag<States>] {
        States::FLAGS
    }

    fn bits(&self) -> u8 {
        self.0
    }

    fn from_bits_retain(bits: u8) -> States {
        States(bits)
    }
}

impl States {
    ghost use Rattle.kx_tables.specs.States.{state_bits};

    /// The set of these bits; a sound table has none above bit 3.
    pub const fn from_mask(bits: u8) -> States
        ensures { state_bits result ≡ bits }
    {
        States(bits)
    }

    /// The set as a number.
    pub const fn mask(self) -> u8
        ensures value { result ≡ state_bits self }
        ensures in_range { state_bits self < 2 ^ 8 }
    {
        self.0
    }
}

/// A key type: which modifiers select a level, and how.
#[derive(Clone, Copy, PartialEq, Eq)]
pub struct TypeRow {
    /// The modifiers that select a level.
    pub mods: Mods,
    /// How many levels there are, 1 to 64.
    pub levels: u8,
    /// How many entries the type has.
    pub entries: u16,
    /// How many bytes its name has.
    pub name_length: u16,
    /// The index of its first entry.
    pub first_entry: u32,
    /// The place of its name's first byte among the names.
    pub first_name: u32,
}

/// An entry of a key type: the modifiers that select a level.
#[derive(Clone, Copy, PartialEq, Eq)]
pub struct EntryRow {
    /// The modifiers that select the level.
    pub mods: Mods,
    /// The level, counted from 1.
    pub level: u8,
    /// Those of the modifiers that aren't consumed.
    pub preserve: Mods,
}

/// A key.
#[derive(Clone, Copy, PartialEq, Eq)]
pub struct KeyRow {
    /// The keycode, at most 4095.
    pub code: u16,
    /// The real modifiers that the key is mapped to.
    pub modmap: Mods,
    /// What becomes of a group that the key doesn't have.
    pub range: Range,
    /// How many groups the key has, at most 32.
    pub groups: u8,
    /// How many bytes its name has.
    pub name_length: u16,
    /// The place of its name's first byte among the names.
    pub first_name: u32,
    /// The index of its first group.
    pub first_group: u32,
}

/// A group of a key.
#[derive(Clone, Copy, PartialEq, Eq)]
pub struct GroupRow {
    /// The index of its key type.
    pub key_type: u16,
    /// The index of its first cell; it has one for each level of its type.
    pub first_cell: u32,
}

/// A level of a group.
#[derive(Clone, Copy, PartialEq, Eq)]
pub struct CellRow {
    /// How many keysyms the level has, at most 8.
    pub keysyms: u8,
    /// What the level does.
    pub action: Action,
    /// The index of its first keysym.
    pub first_keysym: u32,
}

/// An indicator: lit while its modifiers or its groups are among those of the states it looks at.
#[derive(Clone, Copy, PartialEq, Eq)]
pub struct IndicatorRow {
    /// The modifiers that light it.
    pub mods: Mods,
    /// Whose modifiers count.
    pub mod_states: States,
    /// Whose groups count.
    pub group_states: States,
    /// The groups that light it: bit g is group g, counted from 0.
    pub groups: u32,
    /// How many bytes its name has.
    pub name_length: u16,
    /// The place of its name's first byte among the names.
    pub first_name: u32,
}

/// The name of a group.
#[derive(Clone, Copy, PartialEq, Eq)]
pub struct GroupNameRow {
    /// How many bytes it has, 0 for a group without a name.
    pub name_length: u16,
    /// The place of its first byte among the names.
    pub first_name: u32,
}
