//! The index of a text's maps.
ghost use Rattle.std.specs.Prelude.{◌≡◌, ◌&&◌, ◌++◌, ◌∷◌, [], IfOk, List, OnOk, Some, ℕ, length};
ghost use Rattle.std.specs.List.{list_any};
ghost use Rattle.std.specs.Option.{option_map};
ghost use Rattle.kx_include.specs.Library.{has_name, is_default_flag, is_of};
ghost use Rattle.kx_include.specs.MapIndex.{IsIndex, found, number_in, or_here, with_flagged};
ghost use Rattle.kx_tree.specs.declared.tree.Kind.{Kind};
ghost use Rattle.kx_tree.specs.declared.tree.Section.{Section};

use crate::kind_maps::KindMaps;
use kx_ordered::{NameKey, OwnedName};
use kx_parse::{Flag, Kind, Section};
use std::alloc::{AllocError, Global};
use std::collections::BTreeMap;
use std::marker::Model;

fn is_default(section: &Section) -> bool
    ensures { result ≡ list_any is_default_flag section.now.flags }
{
    section
        .flags
        .as_slice()
        .iter()
        .any(|flag| matches!(*flag, Flag::Default))
}

/// The first sections flagged default, with one more section.
fn with_flagged(flagged: KindMaps, section: &Section, number: usize) -> KindMaps
    ensures { result ≡ with_flagged flagged section.now number }
{
    if is_default(section) {
        flagged.with(section.kind, number)
    } else {
        flagged
    }
}

/// Where the maps of a text stand, by kind and name, so that an include finds its map by one look-up, in the
/// logarithm of how many names there are. Of several that fit, the first is found.
pub struct MapIndex {
    named: BTreeMap<OwnedName, KindMaps>,
    flagged: KindMaps,
    first: KindMaps,
}

impl Drop for MapIndex {
    fn drop(self) {
        let MapIndex {
            named: _,
            flagged: _,
            first: _,
        } = self;
    }
}

impl Model for MapIndex {
    ghost use Rattle.kx_include.specs.MapIndex.{MapIndex};

    ghost Value = { MapIndex };

    ghost view = { λ i. record { named = i.named.entries; flagged = i.flagged; first = i.first } };
}

impl MapIndex {
    fn new(alloc: Global) -> MapIndex
        ensures { IsIndex result [] }
    {
        MapIndex {
            named: BTreeMap::new(alloc),
            flagged: KindMaps::new(),
            first: KindMaps::new(),
        }
    }

    /// The sections of a name.
    fn of_name(&self, name: &[u8]) -> KindMaps
        ensures { (kind : Kind) → number_in kind result ≡ found self.now kind (Some name.now) }
    {
        match self.named.get(&NameKey::of(name)) {
            None => KindMaps::new(),
            Some(maps) => *maps,
        }
    }

    /// Adds a section to those of its name.
    fn add_named(
        &mut self,
        alloc: Global,
        section: &Section,
        number: usize,
    ) -> Result<(), AllocError>
        ensures named { OnOk result ((kind : Kind) (name : List ℕ)
            → found self.new kind (Some name)
            ≡ or_here (found self.old kind (Some name))
            (is_of kind section.now && has_name name section.now.name) number) }
        ensures flagged { OnOk result (self.new.flagged ≡ self.old.flagged) }
        ensures first { OnOk result (self.new.first ≡ self.old.first) }
    {
        let Some(name) = &section.name else {
            return Ok(());
        };
        let name = name.bytes.as_slice();
        let maps = self.of_name(name).with(section.kind, number);
        self.named.insert(OwnedName::of(alloc, name)?, maps)?;
        Ok(())
    }

    /// Adds the section after those that were added; its number is how many those are.
    fn add(&mut self, alloc: Global, section: &Section, number: usize) -> Result<(), AllocError>
        ensures { OnOk result ((seen : List Section) → length seen ≡ number → IsIndex self.old seen
            → IsIndex self.new (seen ++ section.now ∷ [])) }
    {
        self.add_named(alloc, section, number)?;
        self.flagged = with_flagged(self.flagged, section, number);
        self.first = self.first.with(section.kind, number);
        Ok(())
    }

    /// The index of some sections.
    ///
    /// # Errors
    /// Where a growth is refused.
    pub fn of(alloc: Global, sections: &[Section]) -> Result<MapIndex, AllocError>
        ensures { IfOk result (λ index. IsIndex index sections.now) }
    {
        let mut index = MapIndex::new(alloc);
        'sections: for (number, section) in sections.iter().enumerate() {
            index.add(alloc, section, number)?;
        }
        Ok(index)
    }

    /// The number of the map of a kind that has a name, or without one of the default map.
    pub fn number(&self, kind: Kind, name: Option<&[u8]>) -> Option<usize>
        ensures { result ≡ found self.now kind (option_map (λ n. n.now) name.entry) }
    {
        match name {
            Some(name) => self.of_name(name).number(kind),
            None => self.flagged.number(kind).or(self.first.number(kind)),
        }
    }
}
