//! Which keys give modifiers, and how.
use crate::board::place_of;
use crate::levels::{cell_at, keysym_at, shown_group};
use crate::listing::as_text;
use arrayvec::ArrayString;
use ks_core::{Keysym, NameTable};
use kx_mods::Mods;
use kx_tables::{Action, CellRow, KeyRow, Rows, Tables};
use std::alloc::{AllocError, Global};

/// So many keys are kept of those that give modifiers.
const MOST_HOLDERS: usize = 64;

/// How a key gives modifiers.
#[derive(Clone, Copy, PartialEq, Eq, PartialOrd, Ord)]
enum Way {
    /// While it is held.
    Held,
    /// For the next key, too.
    Latched,
    /// From one press to the next.
    Locked,
}

/// How handy a key is: those that lie on a PC keyboard come first, and of them those that are held.
#[derive(Clone, Copy, PartialEq, Eq, PartialOrd, Ord)]
struct Rank {
    is_elsewhere: bool,
    way: Way,
}

/// A key whose first level gives modifiers.
#[derive(Clone, Copy)]
struct Holder<'a> {
    name: &'a [u8],
    keysym: u32,
    mods: Mods,
    rank: Rank,
}

/// A modifier that is to be given, with all that are, among those that a key type looks at.
#[derive(Clone, Copy)]
struct Wish {
    modifier: Mods,
    all: Mods,
    looked_at: Mods,
}

/// The keys that give modifiers in a group.
#[derive(Drop)]
pub(crate) struct Holders<'a> {
    keys: Vec<Holder<'a>>,
}

/// The modifiers that a level gives, and how.
fn given(cell: CellRow) -> Option<(Mods, Way)> {
    match cell.action {
        Action::SetMods { mods, .. } => Some((mods, Way::Held)),
        Action::LatchMods { mods, .. } => Some((mods, Way::Latched)),
        Action::LockMods {
            mods,
            locks: true,
            ..
        } => Some((mods, Way::Locked)),
        _ => None,
    }
}

/// What is written on a key with a keysym, where people call it otherwise than its name.
fn word_of(holder: &Holder) -> Option<&'static str> {
    let is_right_alt = matches!(holder.name, b"RALT" | b"ALGR");
    match holder.keysym {
        0xffe1 | 0xffe2 => Some("Shift"),
        0xffe3 | 0xffe4 => Some("Ctrl"),
        0xffe5 => Some("Caps Lock"),
        0xffe6 => Some("Shift Lock"),
        0xffe7 | 0xffe8 => Some("Meta"),
        0xffe9 | 0xffea => Some("Alt"),
        0xffeb | 0xffec => Some("Super"),
        0xffed | 0xffee => Some("Hyper"),
        0xff7e => Some("Mode"),
        0xff7f => Some("Num Lock"),
        0xfe03..=0xfe05 if is_right_alt => Some("AltGr"),
        0xfe03..=0xfe05 => Some("Level3"),
        0xfe11..=0xfe13 => Some("Level5"),
        0 => Some("key"),
        _ => None,
    }
}

/// Whether two keys are called alike.
fn are_alike(left: &Holder, right: &Holder) -> bool {
    match (word_of(left), word_of(right)) {
        (Some(left), Some(right)) => left == right,
        (None, None) => left.keysym == right.keysym,
        _ => false,
    }
}

/// Adds what a key is called.
fn write_word(out: &mut String, names: &NameTable, holder: &Holder) -> Result<(), AllocError> {
    if let Some(word) = word_of(holder) {
        return out.push_str(word);
    }
    let mut name = ArrayString::new();
    names.write_name(Keysym(holder.keysym), &mut name);
    out.push_str(name.as_str())
}

impl Holder<'_> {
    /// Whether it gives the modifier and none that isn't wanted.
    fn serves(&self, wish: Wish) -> bool {
        let others = self.mods.meet(wish.looked_at).minus(wish.all);
        !self.mods.meet(wish.modifier).is_none() && others.is_none()
    }
}

/// The key of a row, where its first level in an effective group gives modifiers.
fn holder_of<'a, R: Rows>(rows: &R, row: KeyRow, name: &'a [u8], group: u8) -> Option<Holder<'a>> {
    let cell = cell_at(rows, shown_group(rows, row, group)?, 0)?;
    let (mods, way) = given(cell)?;
    Some(Holder {
        name,
        keysym: keysym_at(rows, cell, 0).unwrap_or(0),
        mods,
        rank: Rank {
            is_elsewhere: place_of(name).is_none(),
            way,
        },
    })
}

impl<'a> Holders<'a> {
    /// The keys of tables that give modifiers in an effective group, counted from 0.
    pub(crate) fn of<T: Tables>(
        alloc: Global,
        tables: &'a T,
        group: u8,
    ) -> Result<Holders<'a>, AllocError> {
        let mut keys = Vec::new(alloc);
        for is_elsewhere in [false, true] {
            for index in 0..tables.key_count() {
                let row = tables.key_row(index);
                if let Some(holder) = holder_of(tables, row, tables.key_name(index), group)
                    && holder.rank.is_elsewhere == is_elsewhere
                    && keys.len() < MOST_HOLDERS
                {
                    keys.push(holder)?;
                }
            }
        }
        Ok(Holders { keys })
    }

    /// The rank of the handiest keys for a modifier.
    fn best(&self, wish: Wish) -> Option<Rank> {
        let mut best = None;
        for holder in self.keys.as_slice() {
            if holder.serves(wish) && best.is_none_or(|rank| holder.rank < rank) {
                best = Some(holder.rank);
            }
        }
        best
    }

    /// Adds the keys that are called as one is, of the same rank.
    fn write_alike(
        &self,
        out: &mut String,
        names: &NameTable,
        wish: Wish,
        first: &Holder,
    ) -> Result<(), AllocError> {
        out.push_str(match first.rank.way {
            Way::Held => "",
            Way::Latched => "press ",
            Way::Locked => "toggle ",
        })?;
        write_word(out, names, first)?;
        let mut before = " (";
        for holder in self.keys.as_slice() {
            if holder.serves(wish) && holder.rank == first.rank && are_alike(holder, first) {
                out.push_str(before)?;
                out.push_str(as_text(holder.name))?;
                before = "/";
            }
        }
        out.push_str(match first.rank.way {
            Way::Latched => ") first",
            _ => ")",
        })
    }

    /// Adds the handiest keys for a modifier, and answers whether there is one.
    fn write_modifier(
        &self,
        out: &mut String,
        names: &NameTable,
        wish: Wish,
    ) -> Result<bool, AllocError> {
        let Some(best) = self.best(wish) else {
            return Ok(false);
        };
        let mut is_first = true;
        for (place, holder) in self.keys.iter().enumerate() {
            let is_wanted = holder.serves(wish) && holder.rank == best;
            let is_told = self.keys.iter().take(place).any(|other| other.serves(wish)
                && other.rank == best
                && are_alike(other, holder));
            if is_wanted && !is_told {
                if !is_first {
                    out.push('/')?;
                }
                self.write_alike(out, names, wish, holder)?;
                is_first = false;
            }
        }
        Ok(true)
    }

    /// Adds the keys that give modifiers together, and answers whether all of them are given; where one isn't, what is added
    /// means nothing.
    pub(crate) fn write_set(
        &self,
        out: &mut String,
        names: &NameTable,
        all: Mods,
        looked_at: Mods,
    ) -> Result<bool, AllocError> {
        let mut is_first = true;
        for bit in 0..8u8 {
            let modifier = Mods::from_mask(1 << bit);
            if modifier.meet(all).is_none() {
                continue;
            }
            if !is_first {
                out.push_str(" + ")?;
            }
            let wish = Wish {
                modifier,
                all,
                looked_at,
            };
            if !self.write_modifier(out, names, wish)? {
                return Ok(false);
            }
            is_first = false;
        }
        Ok(true)
    }
}
