//! The levels of a group.
ghost use Rattle.std.specs.Prelude.{◌≡◌, ◌+◌, ◌≤◌, [], ℕ, is_some, IfOk, OnOk, false, length, max, nat_eq, if◌then◌else◌};
ghost use Rattle.std.specs.List.{list_any};
ghost use Rattle.std.specs.Option.{option_map};
ghost use Rattle.kx_key_lists.specs.Lists.{level_at};
ghost use Rattle.kx_merge.specs.Offers.{is_replace, merged_value};

use kx_merge::merged_value;
use kx_parse::Mode;
use std::alloc::{AllocError, Global};
use std::marker::Model;

/// What a level can have.
pub trait LevelValue: Drop {
    /// One that is the same.
    fn try_clone(&self) -> Result<Self, AllocError>
        ensures { IfOk result (λ copy. copy ≡ self.now) };
}

/// The levels of a group, each with its value, or `None` where nothing gives it any.
#[derive(Drop)]
pub struct Levels<X> {
    levels: Vec<Option<X>>,
}

impl<X> Model for Levels<X> {
    ghost use Rattle.std.specs.Prelude.{List, Option};

    ghost Value = { List (Option X) };

    ghost view = { λ l. l.levels.items };
}

fn try_clone<X: LevelValue>(level: &Option<X>) -> Result<Option<X>, AllocError>
    ensures { IfOk result (λ copy. copy ≡ level.now) }
{
    match level {
        Some(value) => Ok(Some(value.try_clone()?)),
        None => Ok(None),
    }
}

impl<X: LevelValue> Levels<X> {
    /// Levels in order, each with its value or without one.
    pub fn of(levels: Vec<Option<X>>) -> Levels<X>
        ensures { result ≡ levels.items }
    {
        Levels { levels }
    }

    /// How many levels there are.
    pub fn len(&self) -> usize
        ensures { result ≡ length self.now }
    {
        self.levels.len()
    }

    /// The value of a level, counted from 0.
    pub fn get(&self, level: usize) -> Option<&X>
        ensures { option_map (λ x. x.now) result ≡ level_at self.now level }
    {
        match self.levels.get(level) {
            Some(Some(value)) => Some(value),
            _ => None,
        }
    }

    /// Whether a level has a value.
    pub(crate) fn has_value(&self) -> bool
        ensures { result ≡ list_any is_some self.now }
    {
        self.levels.iter().any(|level| level.is_some())
    }

    /// Merges a later level at a place, the next at most.
    fn merge_level(&mut self, place: usize, level: Option<X>, mode: Mode) -> Result<(), AllocError>
        requires { place ≤ length self.old }
        ensures levels { OnOk result ((l : ℕ)
            → level_at self.new l ≡ (if nat_eq l place
            then merged_value mode (level_at self.old place) level else level_at self.old l)) }
        ensures long { OnOk result (length self.new ≡ max (length self.old) (place + 1)) }
    {
        if place < self.levels.len() {
            let old = self.levels[place].take();
            self.levels[place] = merged_value(mode, old, level);
            Ok(())
        } else {
            self.levels.push(level)?;
            Ok(())
        }
    }

    /// No levels, with room for so many.
    ///
    /// # Errors
    /// Where a growth is refused.
    pub(crate) fn with_room(alloc: Global, count: usize) -> Result<Levels<X>, AllocError>
        ensures { IfOk result (λ levels. levels ≡ []) }
    {
        Ok(Levels {
            levels: Vec::with_capacity(alloc, count)?,
        })
    }

    /// Merges later levels under a mode that isn't replace; those stay as they are.
    pub(crate) fn merge_copied(&mut self, other: &Levels<X>, mode: Mode) -> Result<(), AllocError>
        requires { is_replace mode ≡ false }
        ensures levels { OnOk result ((l : ℕ)
            → level_at self.new l ≡ merged_value mode (level_at self.old l)
            (level_at other.now l)) }
        ensures long { OnOk result (length self.new ≡ max (length self.old) (length other.now)) }
    {
        'levels: for place in 0..other.levels.len() {
            let level = try_clone(&other.levels[place])?;
            self.merge_level(place, level, mode)?;
        }
        Ok(())
    }

    /// Merges later levels under a mode that isn't replace.
    pub(crate) fn merge(&mut self, other: Levels<X>, mode: Mode) -> Result<(), AllocError>
        requires { is_replace mode ≡ false }
        ensures levels { OnOk result ((l : ℕ)
            → level_at self.new l ≡ merged_value mode (level_at self.old l) (level_at other l)) }
        ensures long { OnOk result (length self.new ≡ max (length self.old) (length other)) }
    {
        let mut later = other.levels;
        'levels: for place in 0..later.len() {
            let level = later[place].take();
            self.merge_level(place, level, mode)?;
        }
        Ok(())
    }
}
