//! Includes that stand more than once in a map, and parts that stand more than once in the text of one.
ghost use Rattle.std.specs.Prelude.{◌≡◌, IfErr, IfSome, IsTrue, Some, slice_get};
ghost use Rattle.kx_lex.specs.declared.fault.Fault.TheVariants.{Memory};
ghost use Rattle.kx_merge.specs.Gatherings.{PartStandsSince, StandsBetween, StoodAt, included_at};
ghost use Rattle.kx_merge.specs.Joins.{include_of};

use crate::gathering::{Included, are_same_links, included_by, is_same_link};
use kx_include::{Entry, Link};
use kx_lex::Fault;
use kx_parse::Mode;
use std::alloc::Global;
use std::collections::BTreeMap;

/// Spreads numbers over 64 bits.
const FACTOR: u64 = 0x9e37_79b9_7f4a_7c15;

/// Where the first and the last of some includes stand, and the last one that was gone over.
#[derive(Clone, Copy, Drop)]
struct Places {
    first: usize,
    last: usize,
    seen: Option<usize>,
}

/// Where the includes of a map stand, by a number that equal ones share. Others may share it too, so what stands at a place
/// is compared.
#[derive(Drop)]
pub(crate) struct Repeats {
    places: BTreeMap<u64, Places>,
}

/// Where the parts under augment of an include's text stand that were gone over, by what tells them apart.
#[derive(Drop)]
pub(crate) struct PartRepeats {
    places: BTreeMap<(usize, Option<u8>), usize>,
}

fn mode_number(mode: Mode) -> u64 {
    match mode {
        Mode::Augment => 1,
        Mode::Override => 2,
        Mode::Replace => 3,
    }
}

fn mixed(number: u64, part: u64) -> u64 {
    (number ^ part).wrapping_mul(FACTOR)
}

fn link_number(number: u64, link: Link) -> u64 {
    let group = match link.group {
        None => 0,
        Some(group) => u64::from(group) + 1,
    };
    mixed(
        mixed(mixed(number, mode_number(link.mode)), group),
        link.map as u64,
    )
}

fn number_of(included: Included) -> u64 {
    let mut number = mode_number(included.mode);
    for link in included.links {
        number = link_number(number, *link);
    }
    number
}

fn add_place(
    places: &mut BTreeMap<u64, Places>,
    included: Included,
    place: usize,
) -> Result<(), Fault>
    ensures { IfErr result (λ e. e ≡ Memory) }
{
    if included.links.is_empty() {
        return Ok(());
    }
    let number = number_of(included);
    if let Some(found) = places.get_mut(&number) {
        found.last = place;
        return Ok(());
    }
    places.insert(
        number,
        Places {
            first: place,
            last: place,
            seen: None,
        },
    )?;
    Ok(())
}

/// Whether this include stands at a place.
fn stands_at(entries: &[Entry], place: usize, included: Included) -> bool
    ensures { IsTrue result
        → included_at entries.now place ≡ Some (include_of included.entry) }
{
    match entries.get(place) {
        None => false,
        Some(entry) => {
            let other = included_by(entry);
            other.mode == included.mode && are_same_links(other.links, included.links)
        }
    }
}

impl Repeats {
    pub(crate) fn of(alloc: Global, entries: &[Entry]) -> Result<Repeats, Fault>
        ensures { IfErr result (λ e. e ≡ Memory) }
    {
        let mut places = BTreeMap::new(alloc);
        for place in 0..entries.len() {
            add_place(&mut places, included_by(&entries[place]), place)?;
        }
        Ok(Repeats { places })
    }

    /// Whether an include that isn't under augment also stands before a place and after it. Inlined, it is told of a
    /// statement without a call.
    #[inline(always)]
    pub(crate) fn stands_between(&self, entries: &[Entry], place: usize, included: Included) -> bool
        ensures { IsTrue result → StandsBetween entries.now place (include_of included.entry) }
    {
        if included.mode == Mode::Augment {
            return false;
        }
        match self.places.get(&number_of(included)) {
            None => false,
            Some(places) => {
                places.first < place
                    && place < places.last
                    && stands_at(entries, places.first, included)
                    && stands_at(entries, places.last, included)
            }
        }
    }

    /// Where an include under augment also stands before a place, and not before another. Notes that it stands there.
    /// Inlined, it is told of a statement without a call.
    #[inline(always)]
    pub(crate) fn stood_since(
        &mut self,
        entries: &[Entry],
        since: usize,
        place: usize,
        included: Included,
    ) -> Option<usize>
        ensures { IfSome result (λ before.
            StoodAt entries.now since place before (include_of included.entry)) }
    {
        if included.mode != Mode::Augment || included.links.is_empty() {
            return None;
        }
        let before = self.seen(place, included)?;
        if since <= before && before < place && stands_at(entries, before, included) {
            Some(before)
        } else {
            None
        }
    }

    /// Where an include was gone over last. Notes that it stands at a place.
    fn seen(&mut self, place: usize, included: Included) -> Option<usize> {
        match self.places.get_mut(&number_of(included)) {
            None => None,
            Some(places) => places.seen.replace(place),
        }
    }
}

fn part_stands_at(links: &[Link], place: usize, link: Link) -> bool
    ensures { IsTrue result → slice_get links.now place ≡ Some link }
{
    match links.get(place) {
        None => false,
        Some(other) => is_same_link(*other, link),
    }
}

impl PartRepeats {
    pub(crate) fn new(alloc: Global) -> PartRepeats {
        PartRepeats {
            places: BTreeMap::new(alloc),
        }
    }

    /// Whether a part under augment also stands before a place, and not before another.
    pub(crate) fn stands_since(
        &self,
        links: &[Link],
        since: usize,
        place: usize,
        link: Link,
    ) -> bool
        ensures { IsTrue result → PartStandsSince links.now since place link }
    {
        if link.mode != Mode::Augment {
            return false;
        }
        match self.places.get(&(link.map, link.group)) {
            None => false,
            Some(before) => {
                since <= *before && *before < place && part_stands_at(links, *before, link)
            }
        }
    }

    /// Notes that a part stands at a place.
    pub(crate) fn add(&mut self, place: usize, link: Link) -> Result<(), Fault>
        ensures { IfErr result (λ e. e ≡ Memory) }
    {
        if link.mode == Mode::Augment {
            self.places.insert((link.map, link.group), place)?;
        }
        Ok(())
    }
}
