//! The expanded body of a section kind as a value, in which each map stands once, however often it is included.
ghost use Rattle.std.specs.Prelude.{◌≡◌, []};
ghost use Rattle.kx_tree.specs.declared.tree.Kind.{Kind};

use crate::place::Place;
use kx_parse::{Mode, Stated};
use std::alloc::Global;

/// A part of an include's text.
#[derive(Clone, Copy)]
pub struct Link {
    /// How it joins what the parts before it bring.
    pub mode: Mode,
    /// The group, counted from 1, that the map's first group becomes, where the map is moved to one.
    pub group: Option<u8>,
    /// Which of the expansion's maps it names, counted from 0.
    pub map: usize,
}

/// An item of a section.
#[derive(Drop)]
pub enum Entry<'l> {
    /// A statement.
    Own(&'l Stated),
    /// An include, with the parts of its text in order.
    Include { mode: Mode, links: Vec<Link> },
}

/// A section's items in order.
#[derive(Drop)]
pub struct Map<'l> {
    /// Where the section stands.
    pub place: Place,
    pub entries: Vec<Entry<'l>>,
    /// How many includes deep it is at the most: 0 where it includes nothing.
    pub(crate) depth: u8,
    /// How many parts of includes are expanded in it.
    pub(crate) parts: u32,
}

/// The expanded body of a section kind.
#[derive(Drop)]
pub struct Expansion<'l> {
    /// The maps that includes name, in an order in which each stands after those that it includes.
    pub maps: Vec<Map<'l>>,
    /// The source's own sections of the kind, in order.
    pub sections: Vec<Map<'l>>,
}

impl<'l> Expansion<'l> {
    /// Of no sections.
    fn new(alloc: Global) -> Expansion<'l>
        ensures maps { result.maps.items ≡ [] }
        ensures sections { result.sections.items ≡ [] }
    {
        Expansion {
            maps: Vec::new(alloc),
            sections: Vec::new(alloc),
        }
    }
}

/// The expanded bodies of a source, a kind each.
#[derive(Drop)]
pub struct Bodies<'l> {
    pub keycodes: Expansion<'l>,
    pub types: Expansion<'l>,
    pub compat: Expansion<'l>,
    pub symbols: Expansion<'l>,
    pub geometry: Expansion<'l>,
}

impl<'l> Bodies<'l> {
    ghost use Rattle.std.specs.Prelude.{◌≡◌, []};
    ghost use Rattle.kx_include.specs.Bodies.{expansion_of};

    /// Of a source with no sections.
    pub(crate) fn new(alloc: Global) -> Bodies<'l>
        ensures maps { (kind : Kind) → (expansion_of kind result).maps.items ≡ [] }
        ensures sections { (kind : Kind) → (expansion_of kind result).sections.items ≡ [] }
    {
        Bodies {
            keycodes: Expansion::new(alloc),
            types: Expansion::new(alloc),
            compat: Expansion::new(alloc),
            symbols: Expansion::new(alloc),
            geometry: Expansion::new(alloc),
        }
    }
}
