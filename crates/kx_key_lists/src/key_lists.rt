//! The lists of a key.
ghost use Rattle.std.specs.Prelude.{◌≡◌, ◌≤◌, ℕ, None, IsTrue, OnOk, false, max};
ghost use Rattle.std.specs.List.{list_any};
ghost use Rattle.std.specs.Option.{option_map};
ghost use Rattle.kx_key_lists.specs.Lists.{has_level};
ghost use Rattle.kx_key_lists.specs.Records.{HasValue, list_in_key, moved_in, moved_width_in, value_in, width_in_key};
ghost use Rattle.kx_merge.specs.Offers.{is_replace, merged_value, merged_width};

use crate::levels::{LevelValue, Levels};
use crate::merging::{merge_groups, merge_groups_copied};
use kx_parse::Mode;
use std::alloc::{AllocError, Global};
use std::marker::Model;

/// What the lists of several statements give a key: levels for each of its groups that has a list.
#[derive(Drop)]
pub struct GroupLists<X> {
    /// The group of the first list, counted from 0.
    from: u8,
    lists: Vec<Option<Levels<X>>>,
}

impl<X> Model for GroupLists<X> {
    ghost use Rattle.kx_key_lists.specs.Records.{KeyLists};

    ghost Value = { KeyLists X };

    ghost view = { λ r. record { from = r.from; lists = r.lists.items } };
}

/// Whether a level of some lists has a value.
fn has_level<X: LevelValue>(lists: &[Option<Levels<X>>]) -> bool
    ensures { result ≡ list_any has_level lists.now }
{
    lists.iter().any(|list| match list {
        Some(levels) => levels.has_value(),
        None => false,
    })
}

impl<X: LevelValue> GroupLists<X> {
    /// The lists of a statement, of which the first is that of the first group.
    pub fn of(lists: Vec<Option<Levels<X>>>) -> GroupLists<X>
        ensures { result ≡ record { from = 0; lists = lists.items } }
    {
        GroupLists { from: 0, lists }
    }

    /// How many groups there are to look for: after the last list there is none.
    pub fn group_count(&self) -> usize
        ensures { (group : ℕ) → result ≤ group → width_in_key self.now group ≡ 0 }
    {
        usize::from(self.from) + self.lists.len()
    }

    fn list(&self, group: usize) -> Option<&Levels<X>>
        ensures { option_map (λ levels. levels.now) result ≡ list_in_key self.now group }
    {
        let from = usize::from(self.from);
        if group < from {
            return None;
        }
        match self.lists.get(group - from) {
            Some(Some(levels)) => Some(levels),
            _ => None,
        }
    }

    /// How many levels a group has, counted from 0.
    pub fn width(&self, group: usize) -> usize
        ensures { result ≡ width_in_key self.now group }
    {
        match self.list(group) {
            Some(levels) => levels.len(),
            None => 0,
        }
    }

    /// The value of a group and a level, both counted from 0.
    pub fn get(&self, group: usize, level: usize) -> Option<&X>
        ensures { option_map (λ x. x.now) result ≡ value_in self.now group level }
    {
        self.list(group)?.get(level)
    }

    /// Whether a group and a level have a value.
    pub fn has_value(&self) -> bool
        ensures some { IsTrue result → HasValue self.now }
        ensures none { result ≡ false → (g l : ℕ) → value_in self.now g l ≡ None }
    {
        has_level(self.lists.as_slice())
    }

    /// Begins at the first group.
    fn settle(&mut self) -> Result<(), AllocError>
        ensures from { OnOk result (self.new.from ≡ 0) }
        ensures cells { OnOk result ((g l : ℕ) → value_in self.new g l ≡ value_in self.old g l) }
        ensures widths { OnOk result ((g : ℕ) → width_in_key self.new g ≡ width_in_key self.old g) }
    {
        'groups: while self.from > 0 {
            self.lists.insert(0, None)?;
            self.from -= 1;
        }
        Ok(())
    }

    /// Merges what a later statement or include gives.
    pub fn merge(&mut self, other: GroupLists<X>, mode: Mode) -> Result<(), AllocError>
        ensures cells { OnOk result ((g l : ℕ)
            → value_in self.new g l ≡ merged_value mode (value_in self.old g l)
            (value_in other g l)) }
        ensures widths { OnOk result ((g : ℕ)
            → width_in_key self.new g ≡ merged_width mode (width_in_key self.old g)
            (width_in_key other g)) }
    {
        match mode {
            Mode::Replace => {
                *self = other;
                Ok(())
            }
            Mode::Augment => self.merge_lists(other, mode),
            Mode::Override => self.merge_lists(other, mode),
        }
    }

    /// Merges what a later statement or include gives under a mode that isn't replace.
    fn merge_lists(&mut self, other: GroupLists<X>, mode: Mode) -> Result<(), AllocError>
        requires { is_replace mode ≡ false }
        ensures cells { OnOk result ((g l : ℕ)
            → value_in self.new g l ≡ merged_value mode (value_in self.old g l)
            (value_in other g l)) }
        ensures widths { OnOk result ((g : ℕ)
            → width_in_key self.new g ≡ max (width_in_key self.old g) (width_in_key other g)) }
    {
        self.settle()?;
        merge_groups(&mut self.lists, usize::from(other.from), other.lists, mode)?;
        Ok(())
    }

    /// No lists.
    pub fn none(alloc: Global) -> GroupLists<X>
        ensures cells { (g l : ℕ) → value_in result g l ≡ None }
        ensures widths { (g : ℕ) → width_in_key result g ≡ 0 }
    {
        GroupLists {
            from: 0,
            lists: Vec::new(alloc),
        }
    }

    /// Forgets what was given.
    fn clear(&mut self)
        ensures cells { (g l : ℕ) → value_in self.new g l ≡ None }
        ensures widths { (g : ℕ) → width_in_key self.new g ≡ 0 }
    {
        self.from = 0;
        self.lists.clear();
    }

    /// The lists where the map of the record is moved to a group, counted from 1, and the group of the first of them,
    /// counted from 0: the record's first group becomes that group, and the others go.
    fn placed(&self, group: Option<u8>) -> (u8, &[Option<Levels<X>>])
        ensures cells { (g l : ℕ) → value_in (record { from = result.0; lists = result.1.now }) g l
            ≡ moved_in group self.now g l }
        ensures widths { (g : ℕ) → width_in_key (record { from = result.0; lists = result.1.now }) g
            ≡ moved_width_in group self.now g }
    {
        let Some(group) = group else {
            return (self.from, self.lists.as_slice());
        };
        if group == 0 || self.from > 0 {
            return (0, &[]);
        }
        let count = self.lists.len().min(1);
        (group - 1, &self.lists[..count])
    }

    /// Merges what the lists of an included map give, as they stand where the map is moved to a group, counted from 1;
    /// as they are where it isn't moved.
    pub fn merge_moved(
        &mut self,
        alloc: Global,
        other: &GroupLists<X>,
        group: Option<u8>,
        mode: Mode,
    ) -> Result<(), AllocError>
        ensures cells { OnOk result ((g l : ℕ)
            → value_in self.new g l ≡ merged_value mode (value_in self.old g l)
            (moved_in group other.now g l)) }
        ensures widths { OnOk result ((g : ℕ)
            → width_in_key self.new g ≡ merged_width mode (width_in_key self.old g)
            (moved_width_in group other.now g)) }
    {
        let (from, later) = other.placed(group);
        match mode {
            Mode::Replace => {
                self.clear();
                self.merge_copied(alloc, from, later, Mode::Override)
            }
            Mode::Augment => self.merge_copied(alloc, from, later, mode),
            Mode::Override => self.merge_copied(alloc, from, later, mode),
        }
    }

    /// Merges later lists, of which the first is that of a group, under a mode that isn't replace.
    fn merge_copied(
        &mut self,
        alloc: Global,
        from: u8,
        later: &[Option<Levels<X>>],
        mode: Mode,
    ) -> Result<(), AllocError>
        requires { is_replace mode ≡ false }
        ensures cells { OnOk result ((g l : ℕ)
            → value_in self.new g l ≡ merged_value mode (value_in self.old g l)
            (value_in (record { from = from; lists = later.now }) g l)) }
        ensures widths { OnOk result ((g : ℕ)
            → width_in_key self.new g ≡ max (width_in_key self.old g)
            (width_in_key (record { from = from; lists = later.now }) g)) }
    {
        self.settle()?;
        merge_groups_copied(alloc, &mut self.lists, usize::from(from), later, mode)?;
        Ok(())
    }
}
