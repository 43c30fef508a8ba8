//! The walk over sections of keycodes and their includes.
ghost use Rattle.std.specs.Prelude.{◌≡◌, ◌∷◌, [], ℕ, IfErr, List, None, OnOk};
ghost use Rattle.kx_include.specs.Expansion.{Body, End, Inc};
ghost use Rattle.kx_include.specs.Shared.{entries_body, expanded_body, links_body, shared_body, shared_sections};
ghost use Rattle.kx_codes.specs.Gathering.{AreGathered, Blames, IsGathered, Took};
ghost use Rattle.kx_codes.specs.Numbers.{Grows, IsOnce};

use crate::numbers::Names;
use crate::pairs::Pairs;
use crate::statements::take_said;
use kx_include::{Entry, Expansion, Link, Map, Place};
use kx_lex::Fault;
use kx_parse::Mode;
use std::alloc::Global;

/// What the keycodes of a source leave, by the numbers that their names are given.
pub(crate) fn gather<'l>(
    alloc: Global,
    names: &mut Names<'l>,
    expansion: &Expansion<'l>,
) -> Result<Pairs, Fault>
    ensures gathered { IsOnce names.old
        → IsGathered names.new (expanded_body expansion.now) result }
    ensures grows { IsOnce names.old → Grows names.old names.new }
{
    // A fault in a map is one of the source only where the map is included, and is answered there.
    let mut done = Vec::new(alloc);
    'maps: for map in expansion.maps.as_slice() {
        let gathered = gather_map(alloc, done.as_slice(), names, map);
        done.push(gathered)?;
    }
    gather_sections(alloc, done.as_slice(), names, expansion.sections.as_slice())
}

/// What the source's sections leave together, where `done` is what each map leaves.
fn gather_sections<'l>(
    alloc: Global,
    done: &[Result<Pairs, Fault>],
    names: &mut Names<'l>,
    sections: &[Map<'l>],
) -> Result<Pairs, Fault>
    ensures gathered { (bodies : List Body) → AreGathered names.old done.now bodies
        → IsGathered names.new (shared_sections bodies sections.now) result }
    ensures grows { IsOnce names.old → Grows names.old names.new }
{
    let count = sections.first().map_or(0, |section| section.entries.len());
    let mut gathered = Pairs::with_room(alloc, count)?;
    'sections: for section in sections {
        gather_section(alloc, done, names, section, &mut gathered)?;
    }
    Ok(gathered)
}

/// What a map leaves.
fn gather_map<'l>(
    alloc: Global,
    done: &[Result<Pairs, Fault>],
    names: &mut Names<'l>,
    map: &Map<'l>,
) -> Result<Pairs, Fault>
    ensures gathered { (bodies : List Body) → AreGathered names.old done.now bodies
        → IsGathered names.new (shared_body bodies map.now End) result }
    ensures grows { IsOnce names.old → Grows names.old names.new }
{
    let mut gathered = Pairs::with_room(alloc, map.entries.len())?;
    gather_section(alloc, done, names, map, &mut gathered)?;
    Ok(gathered)
}

/// Takes what the items of a section say.
fn gather_section<'l>(
    alloc: Global,
    done: &[Result<Pairs, Fault>],
    names: &mut Names<'l>,
    section: &Map<'l>,
    gathered: &mut Pairs,
) -> Result<(), Fault>
    ensures took { OnOk result ((bodies : List Body) → AreGathered names.old done.now bodies
        → Took names.old names.new gathered.old gathered.new (shared_body bodies section.now End)) }
    ensures fault { IfErr result (λ e. (bodies : List Body) → AreGathered names.old done.now bodies
        → Blames (shared_body bodies section.now End) e) }
    ensures grows { IsOnce names.old → Grows names.old names.new }
{
    'entries: for entry in section.entries.as_slice() {
        gather_entry(alloc, done, names, section.place, entry, gathered)?;
    }
    Ok(())
}

/// Takes what an item says.
fn gather_entry<'l>(
    alloc: Global,
    done: &[Result<Pairs, Fault>],
    names: &mut Names<'l>,
    place: Place,
    entry: &Entry<'l>,
    gathered: &mut Pairs,
) -> Result<(), Fault>
    ensures took { OnOk result ((bodies : List Body) → AreGathered names.old done.now bodies
        → Took names.old names.new gathered.old gathered.new
        (entries_body bodies place (entry.now ∷ []) End)) }
    ensures fault { IfErr result (λ e. (bodies : List Body) → AreGathered names.old done.now bodies
        → Blames (entries_body bodies place (entry.now ∷ []) End) e) }
    ensures grows { IsOnce names.old → Grows names.old names.new }
{
    match entry {
        Entry::Own(stated) => take_said(names, gathered, place.file, stated),
        Entry::Include { mode, links } => {
            gather_include(alloc, done, *mode, links.as_slice(), gathered)
        }
    }
}

/// Takes what the parts of an include's text bring together, under the include's mode.
fn gather_include(
    alloc: Global,
    done: &[Result<Pairs, Fault>],
    mode: Mode,
    links: &[Link],
    gathered: &mut Pairs,
) -> Result<(), Fault>
    ensures took { OnOk result ((names : List (List ℕ)) (bodies : List Body)
        → AreGathered names done.now bodies
        → Took names names gathered.old gathered.new
        (Inc mode None (links_body bodies links.now) End)) }
    ensures fault { IfErr result (λ e. (names : List (List ℕ)) (bodies : List Body)
        → AreGathered names done.now bodies
        → Blames (Inc mode None (links_body bodies links.now) End) e) }
{
    // What a map leaves names nothing twice, so that a single part need not be joined first.
    if let [link] = links {
        let whole = Link { mode, ..*link };
        gather_link(done, whole, gathered)?;
        return Ok(());
    }
    let joined = gather_links(alloc, done, links)?;
    gathered.take_joined(mode, joined)?;
    Ok(())
}

/// How many pairs the first part of an include's text leaves.
fn first_count(done: &[Result<Pairs, Fault>], links: &[Link]) -> usize {
    match links.first().and_then(|link| done.get(link.map)) {
        Some(Ok(brought)) => brought.len(),
        _ => 0,
    }
}

/// What the parts of an include's text leave together.
fn gather_links(
    alloc: Global,
    done: &[Result<Pairs, Fault>],
    links: &[Link],
) -> Result<Pairs, Fault>
    ensures { (names : List (List ℕ)) (bodies : List Body) → AreGathered names done.now bodies
        → IsGathered names (links_body bodies links.now) result }
{
    let mut joined = Pairs::with_room(alloc, first_count(done, links))?;
    'links: for link in links {
        gather_link(done, *link, &mut joined)?;
    }
    Ok(joined)
}

/// Takes what a part of an include's text brings; nothing where there is no such map.
fn gather_link(done: &[Result<Pairs, Fault>], link: Link, gathered: &mut Pairs) -> Result<(), Fault>
    ensures took { OnOk result ((names : List (List ℕ)) (bodies : List Body)
        → AreGathered names done.now bodies
        → Took names names gathered.old gathered.new (links_body bodies (link ∷ []))) }
    ensures fault { IfErr result (λ e. (names : List (List ℕ)) (bodies : List Body)
        → AreGathered names done.now bodies → Blames (links_body bodies (link ∷ [])) e) }
{
    match done.get(link.map) {
        None => Ok(()),
        Some(Ok(brought)) => gathered.take_all(link.mode, brought),
        Some(Err(fault)) => Err(*fault),
    }
}
