//! The bodies of a keymap, with what its includes name.
ghost use Rattle.std.specs.Prelude.{◌≡◌, ◌+◌, ◌≤◌, ◌∷◌, [], ◌⊎◌, IfOk, IfErr, IfSome, OnOk, Some};
ghost use Rattle.std.specs.Option.{option_map};
ghost use Rattle.kx_include.specs.Bodies.{AreBodies, expansion_of};
ghost use Rattle.kx_include.specs.Complete.{LeavesNothingOut};
ghost use Rattle.kx_include.specs.Held.{StandsFor};
ghost use Rattle.kx_include.specs.IncludeFaults.{all_of, in_depth, in_file, in_include, in_item, in_map, in_part, HasIncludeFault, IsWhole};
ghost use Rattle.kx_parse.specs.IncludeText.{parts_of};
ghost use Rattle.kx_include.specs.Library.{Library as LibraryValue, items_in, place_in};
ghost use Rattle.kx_include.specs.Limits.{most_depth, most_parts};
ghost use Rattle.kx_include.specs.Sharing.{AddsSection, AreEntriesOf, AreKnown, AreLinksOf, Blames, Expands, IsFound, IsKnownMap, IsLinkOf, IsMapOf, IsNumberOf, IsTextOf};
ghost use Rattle.kx_lex.specs.declared.fault.Fault.TheVariants.{Memory};
ghost use Rattle.kx_tree.specs.declared.tree.Kind.{Kind};

use crate::expansion::{Bodies, Entry, Expansion, Link, Map};
use crate::place::Place;
use crate::sources::Library;
use kx_lex::{At, Fault};
use kx_parse::{Item, Kind, Part, include_parts};
use std::alloc::Global;

/// At most this many parts of includes are expanded.
pub const MOST_PARTS: u32 = 4096;

/// Includes in the source are nested at most this deep.
pub const MOST_DEPTH: u8 = 16;

/// How far the includes in something that was expanded go.
#[derive(Clone, Copy)]
struct Reach {
    /// How deep they are nested.
    depth: u8,
    /// How many parts were expanded up to its end.
    count: u32,
}

/// The number of a map that stands at a place and that can be included with so much room left, and its reach.
fn known_map(maps: &[Map], place: Place, depth: u8, seen: u32) -> Option<(usize, Reach)>
    requires { seen ≤ most_parts }
    ensures { IfSome result (λ r. IsKnownMap maps.now place depth seen r.0 r.1) }
{
    let room = MOST_PARTS - seen;
    'maps: for (number, map) in maps.iter().enumerate() {
        if map.place == place && map.depth <= depth && map.parts <= room {
            let reach = Reach {
                depth: map.depth,
                count: seen + map.parts,
            };
            return Some((number, reach));
        }
    }
    None
}

impl<'a> Library<'a> {
    /// The expanded bodies of the source. A map stands in one once, however often it is included. Includes are nested at
    /// most 16 deep, and at most 4,096 of their parts are expanded.
    ///
    /// # Errors
    /// `BadInclude`, `FileMissing`, `MapMissing` and `DepthOver16` at the include's text; what its file has no tree for,
    /// in that file; `TooMany` at the word and the text of the include that passes the limit; `Memory`.
    pub fn expand(&self, alloc: Global) -> Result<Bodies<'_>, Fault>
        ensures whole { OnOk result ((whole : LibraryValue) → StandsFor self.now whole
            → IsWhole whole) }
        ensures bodies { IfOk result (λ bodies. (whole : LibraryValue) → StandsFor self.now whole
            → AreBodies whole bodies) }
        ensures complete { (library : LibraryValue) → IsWhole library → LeavesNothingOut library }
        ensures fault { IfErr result (λ e. (whole : LibraryValue) → StandsFor self.now whole
            → (e ≡ Memory) ⊎ HasIncludeFault whole e) }
    {
        self.expand_held(alloc)
    }

    /// The same of what the library holds.
    fn expand_held(&self, alloc: Global) -> Result<Bodies<'_>, Fault>
        ensures whole { OnOk result (IsWhole self.now) }
        ensures bodies { IfOk result (λ bodies. AreBodies self.now bodies) }
        ensures fault { IfErr result (λ e. (e ≡ Memory) ⊎ HasIncludeFault self.now e) }
    {
        let mut bodies = Bodies::new(alloc);
        let mut seen = 0;
        'sections: for section in 0..self.section_count(0) {
            let place = Place { file: 0, section };
            let Some(found) = self.section_at(place) else {
                unreachable!()
            };
            seen = self.expand_section(alloc, found.kind, place, seen, &mut bodies)?;
        }
        Ok(bodies)
    }

    /// Adds a section of the source to the body of its kind; answers the count of parts with its own.
    fn expand_section<'l>(
        &'l self,
        alloc: Global,
        kind: Kind,
        place: Place,
        seen: u32,
        bodies: &mut Bodies<'l>,
    ) -> Result<u32, Fault>
        requires few { seen ≤ most_parts }
        requires known { (k : Kind) → AreKnown self.now k (expansion_of k bodies.old).maps.items }
        ensures added { IfOk result (λ count.
            AddsSection self.now kind place seen (expansion_of kind bodies.old)
            (expansion_of kind bodies.new) count) }
        ensures others { OnOk result ((other : Kind)
            → (other ≡ kind) ⊎ (expansion_of other bodies.new ≡ expansion_of other bodies.old)) }
        ensures fault { IfErr result (λ e. Blames seen (in_map most_depth self.now kind place) e) }
    {
        match kind {
            Kind::Keycodes => self.add_section(alloc, kind, place, seen, &mut bodies.keycodes),
            Kind::Types => self.add_section(alloc, kind, place, seen, &mut bodies.types),
            Kind::Compat => self.add_section(alloc, kind, place, seen, &mut bodies.compat),
            Kind::Symbols => self.add_section(alloc, kind, place, seen, &mut bodies.symbols),
            Kind::Geometry => self.add_section(alloc, kind, place, seen, &mut bodies.geometry),
        }
    }

    /// Adds a section of the source to a body.
    fn add_section<'l>(
        &'l self,
        alloc: Global,
        kind: Kind,
        place: Place,
        seen: u32,
        expansion: &mut Expansion<'l>,
    ) -> Result<u32, Fault>
        requires few { seen ≤ most_parts }
        requires known { AreKnown self.now kind expansion.old.maps.items }
        ensures added { IfOk result (λ count.
            AddsSection self.now kind place seen expansion.old expansion.new count) }
        ensures fault { IfErr result (λ e. Blames seen (in_map most_depth self.now kind place) e) }
    {
        let map = self.expand_map(alloc, kind, MOST_DEPTH, place, seen, &mut expansion.maps)?;
        let count = seen + map.parts;
        expansion.sections.push(map)?;
        Ok(count)
    }

    /// The section at a place, in which more can be nested as deep as `depth`, where `seen` parts were expanded before.
    /// The maps that it includes are among `maps` then.
    #[cycle(includes)]
    fn expand_map<'l>(
        &'l self,
        alloc: Global,
        kind: Kind,
        depth: u8,
        place: Place,
        seen: u32,
        maps: &mut Vec<Map<'l>>,
    ) -> Result<Map<'l>, Fault>
        requires few { seen ≤ most_parts }
        requires known { AreKnown self.now kind maps.old.items }
        ensures made { IfOk result (λ r.
            Expands self.now kind depth seen maps.old.items maps.new.items (λ d.
            in_map d self.now kind place) (IsMapOf self.now kind place r) r.depth
            (seen + r.parts)) }
        ensures place { IfOk result (λ r. r.place ≡ place) }
        ensures fault { IfErr result (λ e. Blames seen (in_map depth self.now kind place) e) }
    {
        let (entries, reach) = self.expand_items(alloc, kind, depth, place, seen, maps)?;
        Ok(Map {
            place,
            entries,
            depth: reach.depth,
            parts: reach.count - seen,
        })
    }

    /// The items of the section at a place.
    #[cycle(includes)]
    fn expand_items<'l>(
        &'l self,
        alloc: Global,
        kind: Kind,
        depth: u8,
        place: Place,
        seen: u32,
        maps: &mut Vec<Map<'l>>,
    ) -> Result<(Vec<Entry<'l>>, Reach), Fault>
        requires few { seen ≤ most_parts }
        requires known { AreKnown self.now kind maps.old.items }
        ensures made { IfOk result (λ r.
            Expands self.now kind depth seen maps.old.items maps.new.items (λ d.
            in_map d self.now kind place) (AreEntriesOf self.now kind place
            (items_in self.now place) r.0.items) r.1.depth r.1.count) }
        ensures fault { IfErr result (λ e. Blames seen (in_map depth self.now kind place) e) }
    {
        let mut left = self.items_in(place);
        let mut entries = Vec::with_capacity(alloc, left.len())?;
        let mut deepest = 0;
        let mut count = seen;
        'items: while let Some((item, rest)) = left.split_first() {
            let (entry, reach) = self.expand_item(alloc, kind, depth, place, item, count, maps)?;
            entries.push(entry)?;
            deepest = reach.depth.max(deepest);
            count = reach.count;
            left = rest;
        }
        let reach = Reach {
            depth: deepest,
            count,
        };
        Ok((entries, reach))
    }

    /// An item of the section at a place.
    #[cycle(includes)]
    fn expand_item<'l>(
        &'l self,
        alloc: Global,
        kind: Kind,
        depth: u8,
        place: Place,
        item: &'l Item,
        seen: u32,
        maps: &mut Vec<Map<'l>>,
    ) -> Result<(Entry<'l>, Reach), Fault>
        requires few { seen ≤ most_parts }
        requires known { AreKnown self.now kind maps.old.items }
        ensures made { IfOk result (λ r.
            Expands self.now kind depth seen maps.old.items maps.new.items (λ d.
            in_item (in_depth d self.now kind) place.file item.now)
            (AreEntriesOf self.now kind place (item.now ∷ []) (r.0 ∷ [])) r.1.depth r.1.count) }
        ensures fault { IfErr result (λ e.
            Blames seen (in_item (in_depth depth self.now kind) place.file item.now) e) }
    {
        match item {
            Item::Statement(stated) => Ok((
                Entry::Own(stated),
                Reach {
                    depth: 0,
                    count: seen,
                },
            )),
            Item::Include { mode, text, span } => {
                let file = place.file;
                let bytes = text.bytes.as_slice();
                let whole = At { file, span: *span };
                let text = At {
                    file,
                    span: text.span,
                };
                let (links, reach) = self.expand_text(
                    alloc, kind, depth, text, whole, bytes, seen, maps,
                )?;
                Ok((Entry::Include { mode: *mode, links }, reach))
            }
        }
    }

    /// What an include's text names; `whole` is the word and the text.
    #[cycle(includes)]
    fn expand_text<'l>(
        &'l self,
        alloc: Global,
        kind: Kind,
        depth: u8,
        text: At,
        whole: At,
        bytes: &[u8],
        seen: u32,
        maps: &mut Vec<Map<'l>>,
    ) -> Result<(Vec<Link>, Reach), Fault>
        requires few { seen ≤ most_parts }
        requires known { AreKnown self.now kind maps.old.items }
        ensures made { IfOk result (λ r.
            Expands self.now kind depth seen maps.old.items maps.new.items (λ d.
            in_include (in_depth d self.now kind text) text whole (parts_of bytes.now))
            (IsTextOf self.now kind (parts_of bytes.now) r.0.items) r.1.depth r.1.count) }
        ensures fault { IfErr result (λ e.
            Blames seen (in_include (in_depth depth self.now kind text) text whole
            (parts_of bytes.now)) e) }
    {
        match include_parts(alloc, bytes)? {
            None => Err(Fault::BadInclude(text)),
            Some(parts) => {
                let parts = parts.as_slice();
                self.expand_parts(alloc, kind, depth, text, whole, parts, seen, maps)
            }
        }
    }

    /// What the parts of an include's text name.
    #[cycle(includes)]
    fn expand_parts<'l>(
        &'l self,
        alloc: Global,
        kind: Kind,
        depth: u8,
        text: At,
        whole: At,
        parts: &[Part],
        seen: u32,
        maps: &mut Vec<Map<'l>>,
    ) -> Result<(Vec<Link>, Reach), Fault>
        requires few { seen ≤ most_parts }
        requires known { AreKnown self.now kind maps.old.items }
        ensures made { IfOk result (λ r.
            Expands self.now kind depth seen maps.old.items maps.new.items (λ d.
            all_of (in_part (in_depth d self.now kind text) whole) parts.now)
            (AreLinksOf self.now kind parts.now r.0.items) r.1.depth r.1.count) }
        ensures fault { IfErr result (λ e.
            Blames seen (all_of (in_part (in_depth depth self.now kind text) whole) parts.now) e) }
    {
        let mut links = Vec::new(alloc);
        let mut deepest = 0;
        let mut count = seen;
        'parts: for part in parts {
            let (link, reach) = self.expand_part(
                alloc, kind, depth, text, whole, part, count, maps,
            )?;
            links.push(link)?;
            deepest = reach.depth.max(deepest);
            count = reach.count;
        }
        let reach = Reach {
            depth: deepest,
            count,
        };
        Ok((links, reach))
    }

    /// What a part of an include's text names.
    #[cycle(includes)]
    fn expand_part<'l>(
        &'l self,
        alloc: Global,
        kind: Kind,
        depth: u8,
        text: At,
        whole: At,
        part: &Part,
        seen: u32,
        maps: &mut Vec<Map<'l>>,
    ) -> Result<(Link, Reach), Fault>
        requires few { seen ≤ most_parts }
        requires known { AreKnown self.now kind maps.old.items }
        ensures made { IfOk result (λ r.
            Expands self.now kind depth seen maps.old.items maps.new.items (λ d.
            in_part (in_depth d self.now kind text) whole part.now)
            (IsLinkOf self.now kind part.now r.0) r.1.depth r.1.count) }
        ensures fault { IfErr result (λ e.
            Blames seen (in_part (in_depth depth self.now kind text) whole part.now) e) }
    {
        if seen == MOST_PARTS {
            return Err(Fault::TooMany(whole));
        }
        if depth == 0 {
            return Err(Fault::DepthOver16(text));
        }
        let Some(file) = self.file_of(alloc, kind, part.file())? else {
            return Err(Fault::FileMissing(text));
        };
        let (map, reach) = self.expand_file(
            alloc,
            kind,
            depth - 1,
            text,
            part.map(),
            file,
            seen + 1,
            maps,
        )?;
        let link = Link {
            mode: part.mode(),
            group: part.group(),
            map,
        };
        let reach = Reach {
            depth: reach.depth + 1,
            count: reach.count,
        };
        Ok((link, reach))
    }

    /// The number of the map of a file that is named, or of its default one.
    #[cycle(includes)]
    fn expand_file<'l>(
        &'l self,
        alloc: Global,
        kind: Kind,
        depth: u8,
        text: At,
        map: Option<&[u8]>,
        file: u32,
        seen: u32,
        maps: &mut Vec<Map<'l>>,
    ) -> Result<(usize, Reach), Fault>
        requires few { seen ≤ most_parts }
        requires known { AreKnown self.now kind maps.old.items }
        ensures made { IfOk result (λ r.
            Expands self.now kind depth seen maps.old.items maps.new.items (λ d.
            in_file (in_map d self.now kind) self.now kind (option_map (λ m. m.now) map.entry) text
            (Some file)) (IsFound self.now kind
            (place_in self.now kind (option_map (λ m. m.now) map.entry) file) r.0) r.1.depth
            r.1.count) }
        ensures fault { IfErr result (λ e.
            Blames seen (in_file (in_map depth self.now kind) self.now kind
            (option_map (λ m. m.now) map.entry) text (Some file)) e) }
    {
        if let Some(fault) = self.fault_of(file) {
            return Err(fault);
        }
        match self.place_in(kind, map, file) {
            None => Err(Fault::MapMissing(text)),
            Some(place) => self.map_number(alloc, kind, depth, place, seen, maps),
        }
    }

    /// The number of the map at a place, which is expanded where it isn't known.
    #[cycle(includes)]
    fn map_number<'l>(
        &'l self,
        alloc: Global,
        kind: Kind,
        depth: u8,
        place: Place,
        seen: u32,
        maps: &mut Vec<Map<'l>>,
    ) -> Result<(usize, Reach), Fault>
        requires few { seen ≤ most_parts }
        requires known { AreKnown self.now kind maps.old.items }
        ensures made { IfOk result (λ r.
            Expands self.now kind depth seen maps.old.items maps.new.items (λ d.
            in_map d self.now kind place) (IsNumberOf self.now kind place r.0) r.1.depth
            r.1.count) }
        ensures fault { IfErr result (λ e. Blames seen (in_map depth self.now kind place) e) }
    {
        if let Some(known) = known_map(maps.as_slice(), place, depth, seen) {
            return Ok(known);
        }
        let map = self.expand_map(alloc, kind, depth, place, seen, maps)?;
        let reach = Reach {
            depth: map.depth,
            count: seen + map.parts,
        };
        let number = maps.len();
        maps.push(map)?;
        Ok((number, reach))
    }
}
