//! What a type last gave, kept for the next event.
ghost use Rattle.std.specs.Prelude.{◌≡◌, ◌+◌, ◌^◌, ◌<◌, ◌≤◌, length, IfOk};
ghost use Rattle.kx_mods.specs.Mods.{mask};
ghost use Rattle.kx_run.specs.Lookup.{Gives, IsChoice, NamesLevels, TellsChoices};

use crate::lookup::{consumed, find_entry, level};
use kx_mods::Mods;
use kx_tables::{Tables, TypeRow};
use std::alloc::{AllocError, Global};
use std::marker::Model;

/// What a type gives under some modifiers.
#[derive(Clone, Copy)]
pub struct Choice {
    /// The type's modifiers.
    pub type_mods: Mods,
    /// Those of them that are set.
    pub mods: Mods,
    /// The level, counted from 0.
    pub level: u8,
    /// The modifiers that are used up.
    pub consumed: Mods,
}

/// What a type gives under some modifiers.
pub fn choice_of<T: Tables>(tables: &T, row: TypeRow, mods: Mods) -> Choice
    requires within { row.first_entry + row.entries ≤ length (T.content tables.now).entries }
    requires fits { length (T.content tables.now).entries < 2 ^ 32 }
    requires names { NamesLevels (T.content tables.now) row }
    requires levels { 1 ≤ row.levels }
    ensures choice { IsChoice (T.content tables.now) row result }
    ensures mods { result.mods ≡ mods }
{
    let entry = find_entry(tables, row, mods);
    Choice {
        type_mods: row.mods,
        mods,
        level: level(entry),
        consumed: consumed(row, entry),
    }
}

/// What each type gave last, since most events find the modifiers as the last one left them.
#[derive(Drop)]
pub struct Choices {
    choices: Vec<Choice>,
}

impl Model for Choices {
    ghost use Rattle.std.specs.Prelude.{List};
    ghost use Rattle.kx_run.specs.declared.choices.Choice.{Choice};

    ghost Value = { List Choice };

    ghost view = { λ c. c.choices.items };
}

impl Choices {
    /// What each type gives where no modifier is set.
    pub fn new<T: Tables>(alloc: Global, tables: &T) -> Result<Choices, AllocError>
        ensures { IfOk result (λ choices. TellsChoices choices (T.content tables.now)) }
    {
        let _sound = tables.key_count();
        let count = tables.counts().types;
        let mut choices = Vec::with_capacity(alloc, usize::from(count))?;
        for index in 0..count {
            choices.push_reserved(choice_of(tables, tables.type_row(index), Mods::NONE));
        }
        Ok(Choices { choices })
    }

    /// What a type gives under effective modifiers. Its row is read only where others of its modifiers are set than
    /// the last time.
    pub fn choose<T: Tables>(&mut self, tables: &T, index: u16, mods: Mods) -> Choice
        requires index { index < length (T.content tables.now).types }
        requires choices { TellsChoices self.old (T.content tables.now) }
        ensures chosen { Gives (T.content tables.now) index (mask mods) result }
        ensures choices { TellsChoices self.new (T.content tables.now) }
    {
        let _sound = tables.key_count();
        let place = usize::from(index);
        let last = self.choices[place];
        let met = mods.meet(last.type_mods);
        if last.mods.mask() == met.mask() {
            return last;
        }
        let choice = choice_of(tables, tables.type_row(index), met);
        self.choices[place] = choice;
        choice
    }
}
