//! The walk over a body and its includes.
ghost use Rattle.std.specs.Prelude.{◌≡◌, ◌+◌, ◌<◌, ◌^◌, [], List, IfOk, OnOk, IfErr, IsTrue, Some, ℕ, false, true, if◌then◌else◌};
ghost use Rattle.kx_include.specs.Expansion.{Body, End};
ghost use Rattle.kx_include.specs.Shared.{bodies_behind, expanded_body, shared_body};
ghost use Rattle.kx_lex.specs.declared.fault.Fault.TheVariants.{Memory};
ghost use Rattle.kx_tree.specs.declared.tree.Mode.TheVariants.{Augment};
ghost use Rattle.kx_merge.specs.Bodies.{gathered, faults_of, offers_of};
ghost use Rattle.kx_merge.specs.Gatherings.{AreGathered, IsGathered, included_by};
ghost use Rattle.kx_merge.specs.Joins.{GivesAgain, Joins, JoinsBehind, MergesBody, TakesUpBody, include_of, linked, map_of, parts};
ghost use Rattle.kx_merge.specs.Renewals.{keys_since};
ghost use Rattle.kx_merge.specs.Offers.{is_replace};
ghost use Rattle.kx_merge.specs.Records.{TableShows};
ghost use Rattle.kx_merge.specs.Reports.{ReportsOrRunsOut};

use crate::fields::Fields;
use crate::merging::{add_again, add_included, add_joined, are_kept, merge_own};
use crate::placed::Placed;
use crate::repeats::{PartRepeats, Repeats};
use crate::replaced::Replaced;
use ks_core::Notes;
use kx_include::{Entry, Expansion, Link, Map};
use kx_lex::Fault;
use kx_ordered::{Ordered, TableKey};
use kx_parse::Mode;
use std::alloc::Global;

/// Records, and what is noted of the statements that they were read from.
#[derive(Drop)]
pub struct Merged<K: Ord + TableKey + Drop, R> {
    /// By what tells them apart, in the order in which they were first named.
    pub records: Ordered<K, R>,
    pub notes: Notes,
}

/// What going over the items of a map made so far.
#[derive(Drop)]
pub(crate) struct Walk<K: Ord + TableKey + Drop, R> {
    pub(crate) merged: Merged<K, R>,
    pub(crate) replaced: Replaced<K>,
    /// How many items the map has.
    pub(crate) items: usize,
}

/// No records, of which nothing is noted.
fn nothing_merged<K: Ord + TableKey + Drop, R: Drop>(alloc: Global) -> Merged<K, R>
    ensures { result.records.entries ≡ [] }
{
    Merged {
        records: Ordered::new(alloc),
        notes: Notes::new(),
    }
}

/// A walk that is at no item yet.
fn new_walk<K: Ord + TableKey + Drop, R: Drop>(alloc: Global) -> Walk<K, R>
    ensures { result.merged.records.entries ≡ [] }
{
    Walk {
        merged: nothing_merged(alloc),
        replaced: Replaced::new(alloc),
        items: 0,
    }
}

/// The records of a section kind in the order in which the items of its expanded body name them: each cell has its value
/// by precedence, and each group its width. What is noted of a statement, hidden or not, counts for each place where it
/// stands. Each map's statements are read once, however often it is included.
///
/// # Errors
/// A fault of a statement of the body; `Memory`.
pub fn merge<C, R: Fields<C>>(
    alloc: Global,
    context: &C,
    expansion: &Expansion,
) -> Result<Merged<R::Key, R>, Fault>
    ensures shows { IfOk result (λ m. TableShows R.form R.Key.eq m.records
        (offers_of R.Key.eq (R.rules context.now) R.moves (expanded_body expansion.now))) }
    ensures faults { ReportsOrRunsOut result
        (faults_of R.Key.eq (R.rules context.now) R.moves (expanded_body expansion.now)) }
{
    let done = gather_maps::<C, R>(alloc, context, expansion.maps.as_slice())?;
    let mut walk = new_walk(alloc);
    'sections: for section in &expansion.sections {
        merge_map::<C, R>(alloc, context, done.as_slice(), section, &mut walk)?;
    }
    Ok(walk.merged)
}

/// The records of each map, of which each may include those before it; in their place a map's fault, which is one of the
/// body only where the map is included.
fn gather_maps<C, R: Fields<C>>(
    alloc: Global,
    context: &C,
    maps: &[Map],
) -> Result<Vec<Result<Merged<R::Key, R>, Fault>>, Fault>
    ensures gathered { IfOk result (λ done. AreGathered R.form R.Key.eq
        (R.rules context.now) R.moves done.items (bodies_behind [] maps.now)) }
    ensures err { IfErr result (λ e. e ≡ Memory) }
{
    let mut done = Vec::new(alloc);
    'maps: for map in maps {
        let one = gather_map::<C, R>(alloc, context, done.as_slice(), map);
        done.push(one)?;
    }
    Ok(done)
}

/// The records of a map that includes some of those that are done.
fn gather_map<C, R: Fields<C>>(
    alloc: Global,
    context: &C,
    done: &[Result<Merged<R::Key, R>, Fault>],
    map: &Map,
) -> Result<Merged<R::Key, R>, Fault>
    ensures { (bodies : List Body)
        → AreGathered R.form R.Key.eq (R.rules context.now) R.moves done.now bodies
        → IsGathered R.form R.Key.eq (R.rules context.now) R.moves result
        (shared_body bodies map.now End) }
{
    let mut walk = new_walk(alloc);
    merge_map::<C, R>(alloc, context, done, map, &mut walk)?;
    Ok(walk.merged)
}

/// What the items of a map make of records. An include that isn't under augment is passed over where the same stands before
/// it and after it: the one after it gives the values, and the one before it the order. Of one under augment where the same
/// stands before it, only the records are gone over whose values were taken back between.
fn merge_map<C, R: Fields<C>>(
    alloc: Global,
    context: &C,
    done: &[Result<Merged<R::Key, R>, Fault>],
    map: &Map,
    walk: &mut Walk<R::Key, R>,
) -> Result<(), Fault>
    ensures { MergesBody R.form R.Key.eq (R.rules context.now) R.moves done.now
        walk.old.merged result walk.new.merged (λ bodies. shared_body bodies map.now End) }
{
    let entries = map.entries.as_slice();
    let mut repeats = Repeats::of(alloc, entries)?;
    let mut defaults = R::start(alloc, context);
    let mut last = Included {
        mode: Mode::Augment,
        links: &[],
    };
    let mut since = 0;
    walk.replaced = Replaced::new(alloc);
    walk.items = entries.len();
    'entries: for place in 0..entries.len() {
        let entry = &entries[place];
        let included = included_by(entry);
        let stood = repeats.stood_since(entries, since, place, included);
        if repeats.stands_between(entries, place, included) {
            note_links::<C, R>(done, included.links, &mut walk.merged.notes);
        } else if merge_again::<C, R>(alloc, done, included.links, stood, walk)? {
            note_links::<C, R>(done, included.links, &mut walk.merged.notes);
            last = included;
        } else {
            match entry {
                Entry::Own(stated) => {
                    let placed = Placed {
                        place: map.place,
                        stated,
                    };
                    defaults = merge_own::<C, R>(alloc, context, defaults, &placed, walk)?;
                }
                Entry::Include { .. } => {
                    merge_after::<C, R>(alloc, done, last, included, &mut walk.merged)?;
                }
            }
            last = included;
        }
        walk.replaced.pass()?;
        since = since_after(since, place, included.mode);
    }
    Ok(())
}

/// The parts of an include, under its mode.
#[derive(Clone, Copy)]
pub(crate) struct Included<'l> {
    pub(crate) mode: Mode,
    pub(crate) links: &'l [Link],
}

/// What an entry includes; no parts where it is a statement.
pub(crate) fn included_by<'m>(entry: &'m Entry) -> Included<'m>
    ensures { include_of result ≡ included_by entry.now }
{
    match entry {
        Entry::Own(_) => Included {
            mode: Mode::Augment,
            links: &[],
        },
        Entry::Include { mode, links } => Included {
            mode: *mode,
            links: links.as_slice(),
        },
    }
}

/// From which place on no include takes a value back, once one that stands at a place has this mode.
fn since_after(since: usize, place: usize, mode: Mode) -> usize
    requires { place < 2 ^ 63 }
    ensures { result ≡ (if is_replace mode then place + 1 else since) }
{
    match mode {
        Mode::Augment => since,
        Mode::Override => since,
        Mode::Replace => place + 1,
    }
}

pub(crate) fn is_same_link(one: Link, other: Link) -> bool
    ensures { IsTrue result → one ≡ other }
{
    one.mode == other.mode && one.group == other.group && one.map == other.map
}

pub(crate) fn are_same_links(some: &[Link], others: &[Link]) -> bool
    ensures { IsTrue result → some.now ≡ others.now }
{
    if some.len() != others.len() {
        return false;
    }
    'links: for place in 0..some.len() {
        if !is_same_link(some[place], others[place]) {
            return false;
        }
    }
    true
}

/// A part of an include under another mode.
fn link_under(mode: Mode, link: Link) -> Link
    ensures { result ≡ record link { mode = mode } }
{
    Link {
        mode,
        group: link.group,
        map: link.map,
    }
}

/// Adds what is noted with the map of a part.
fn note_link<C, R: Fields<C>>(
    done: &[Result<Merged<R::Key, R>, Fault>],
    link: Link,
    notes: &mut Notes,
) {
    if let Some(Ok(found)) = done.get(link.map) {
        *notes = notes.saturating_add(found.notes);
    }
}

/// Adds what is noted with the maps of some parts.
fn note_links<C, R: Fields<C>>(
    done: &[Result<Merged<R::Key, R>, Fault>],
    links: &[Link],
    notes: &mut Notes,
) {
    for link in links {
        note_link::<C, R>(done, *link, notes);
    }
}

/// What an include makes of records right after another, which changes nothing where both are the same.
fn merge_after<C, R: Fields<C>>(
    alloc: Global,
    done: &[Result<Merged<R::Key, R>, Fault>],
    last: Included,
    included: Included,
    merged: &mut Merged<R::Key, R>,
) -> Result<(), Fault>
    ensures { JoinsBehind R.Defaults R.form R.Key.eq R.moves done.now
        merged.old result merged.new (include_of last.entry) (include_of included.entry) }
{
    if included.mode == last.mode && are_same_links(included.links, last.links) {
        note_links::<C, R>(done, included.links, &mut merged.notes);
        return Ok(());
    }
    merge_include::<C, R>(alloc, done, included, merged)
}

/// What an include under augment makes of records where the same stood before: only the records are gone over that were
/// given anew since. `false` where it has to be gone over whole.
fn merge_again<C, R: Fields<C>>(
    alloc: Global,
    done: &[Result<Merged<R::Key, R>, Fault>],
    links: &[Link],
    stood: Option<usize>,
    walk: &mut Walk<R::Key, R>,
) -> Result<bool, Fault>
    ensures again { IfOk result (λ again. again ≡ true → (before : ℕ) × (stood ≡ Some before)
        × TakesUpBody R.Defaults R.form R.Key.eq R.moves done.now
        (keys_since walk.old.replaced.marks.items walk.old.replaced.keys.items before)
        walk.old.merged.records walk.new.merged.records (gathered R.Key.eq Augment)
        (parts links.now)) }
    ensures whole { IfOk result (λ again. again ≡ false
        → walk.new.merged.records ≡ walk.old.merged.records) }
    ensures replaced { walk.new.replaced ≡ walk.old.replaced }
    ensures err { IfErr result (λ e. e ≡ Memory) }
{
    match stood {
        None => Ok(false),
        Some(before) => {
            let renewed = walk.replaced.since(before);
            merge_keys::<C, R>(alloc, done, links, renewed, &mut walk.merged.records)
        }
    }
}

/// What the records of some keys get of an include under augment. `false` where it has to be gone over whole, as where
/// it has so few records that looking up the keys in each of its parts takes longer.
fn merge_keys<C, R: Fields<C>>(
    alloc: Global,
    done: &[Result<Merged<R::Key, R>, Fault>],
    links: &[Link],
    renewed: &[R::Key],
    records: &mut Ordered<R::Key, R>,
) -> Result<bool, Fault>
    ensures again { GivesAgain R.Defaults R.form R.Key.eq R.moves done.now renewed.now
        records.old result records.new (gathered R.Key.eq Augment) (parts links.now) }
    ensures whole { IfOk result (λ again. again ≡ false → records.new ≡ records.old) }
    ensures err { IfErr result (λ e. e ≡ Memory) }
{
    if renewed.is_empty() {
        return Ok(true);
    }
    let lookups = renewed.len().saturating_mul(links.len());
    if count_records::<C, R>(alloc, done, links)? < lookups {
        return Ok(false);
    }
    match links {
        [link] => {
            let link = link_under(Mode::Augment, *link);
            merge_link_keys::<C, R>(alloc, done, link, renewed, records)
        }
        _ => merge_joined_keys::<C, R>(alloc, done, links, renewed, records),
    }
}

/// How many records are gone over for the parts of an include. Those of a part that is passed over don't count.
fn count_records<C, R: Fields<C>>(
    alloc: Global,
    done: &[Result<Merged<R::Key, R>, Fault>],
    links: &[Link],
) -> Result<usize, Fault>
    ensures { IfErr result (λ e. e ≡ Memory) }
{
    let mut repeats = PartRepeats::new(alloc);
    let mut since = 0;
    let mut count: usize = 0;
    'links: for place in 0..links.len() {
        let link = links[place];
        if !repeats.stands_since(links, since, place, link) {
            if let Some(Ok(found)) = done.get(link.map) {
                count = count.saturating_add(found.records.len());
            }
            repeats.add(place, link)?;
        }
        since = since_after(since, place, link.mode);
    }
    Ok(count)
}

/// What the records of some keys get of the parts of an include, joined, under augment. `false` where the include has
/// to be gone over whole.
fn merge_joined_keys<C, R: Fields<C>>(
    alloc: Global,
    done: &[Result<Merged<R::Key, R>, Fault>],
    links: &[Link],
    renewed: &[R::Key],
    records: &mut Ordered<R::Key, R>,
) -> Result<bool, Fault>
    ensures again { GivesAgain R.Defaults R.form R.Key.eq R.moves done.now renewed.now
        records.old result records.new (gathered R.Key.eq Augment) (parts links.now) }
    ensures whole { IfOk result (λ again. again ≡ false → records.new ≡ records.old) }
    ensures err { IfErr result (λ e. e ≡ Memory) }
{
    let mut joined = Ordered::new(alloc);
    if !merge_links_keys::<C, R>(alloc, done, links, renewed, &mut joined)? {
        return Ok(false);
    }
    add_joined::<C, R>(alloc, records, Mode::Augment, joined)?;
    Ok(true)
}

/// What the records of some keys get of the parts of an include, each under its own mode. `false` where a part has to
/// be gone over whole.
fn merge_links_keys<C, R: Fields<C>>(
    alloc: Global,
    done: &[Result<Merged<R::Key, R>, Fault>],
    links: &[Link],
    renewed: &[R::Key],
    records: &mut Ordered<R::Key, R>,
) -> Result<bool, Fault>
    ensures again { GivesAgain R.Defaults R.form R.Key.eq R.moves done.now renewed.now
        records.old result records.new (λ offers. offers) (parts links.now) }
    ensures err { IfErr result (λ e. e ≡ Memory) }
{
    'links: for link in links {
        if !merge_link_keys::<C, R>(alloc, done, *link, renewed, records)? {
            return Ok(false);
        }
    }
    Ok(true)
}

/// What the records of some keys get of a part. `false` where the part has to be gone over whole: where records become
/// others as its map is moved.
fn merge_link_keys<C, R: Fields<C>>(
    alloc: Global,
    done: &[Result<Merged<R::Key, R>, Fault>],
    link: Link,
    renewed: &[R::Key],
    records: &mut Ordered<R::Key, R>,
) -> Result<bool, Fault>
    ensures again { GivesAgain R.Defaults R.form R.Key.eq R.moves done.now renewed.now
        records.old result records.new (linked R.Key.eq R.moves link) (map_of link) }
    ensures whole { IfOk result (λ again. again ≡ false → records.new ≡ records.old) }
    ensures err { IfErr result (λ e. e ≡ Memory) }
{
    let Some(Ok(found)) = done.get(link.map) else {
        return Ok(false);
    };
    if !are_kept::<C, R>(renewed, link.group) {
        return Ok(false);
    }
    add_again::<C, R>(alloc, records, link, &found.records, renewed)?;
    Ok(true)
}

/// What an include makes of records under its mode. What a single part brings needs no joining.
fn merge_include<C, R: Fields<C>>(
    alloc: Global,
    done: &[Result<Merged<R::Key, R>, Fault>],
    included: Included,
    merged: &mut Merged<R::Key, R>,
) -> Result<(), Fault>
    ensures { Joins R.Defaults R.form R.Key.eq R.moves done.now merged.old result merged.new
        (gathered R.Key.eq included.entry.mode) (parts included.entry.links.now) }
{
    match included.links {
        [link] => { merge_link::<C, R>(alloc, done, link_under(included.mode, *link), merged) }
        _ => merge_joined::<C, R>(alloc, done, included, merged),
    }
}

/// What the parts of an include, joined, make of records under its mode.
fn merge_joined<C, R: Fields<C>>(
    alloc: Global,
    done: &[Result<Merged<R::Key, R>, Fault>],
    included: Included,
    merged: &mut Merged<R::Key, R>,
) -> Result<(), Fault>
    ensures { Joins R.Defaults R.form R.Key.eq R.moves done.now merged.old result merged.new
        (gathered R.Key.eq included.entry.mode) (parts included.entry.links.now) }
{
    let mut joined = nothing_merged(alloc);
    merge_links::<C, R>(alloc, done, included.links, &mut joined)?;
    merged.notes = merged.notes.saturating_add(joined.notes);
    add_joined::<C, R>(alloc, &mut merged.records, included.mode, joined.records)
}

/// What the parts of an include make of records, each under its own mode. One under augment is passed over where the same
/// stands before it, and nothing between takes a value back.
fn merge_links<C, R: Fields<C>>(
    alloc: Global,
    done: &[Result<Merged<R::Key, R>, Fault>],
    links: &[Link],
    merged: &mut Merged<R::Key, R>,
) -> Result<(), Fault>
    ensures { Joins R.Defaults R.form R.Key.eq R.moves done.now merged.old result merged.new
        (λ offers. offers) (parts links.now) }
{
    let mut repeats = PartRepeats::new(alloc);
    let mut since = 0;
    'links: for place in 0..links.len() {
        let link = links[place];
        if repeats.stands_since(links, since, place, link) {
            note_link::<C, R>(done, link, &mut merged.notes);
        } else {
            merge_link::<C, R>(alloc, done, link, merged)?;
            repeats.add(place, link)?;
        }
        since = since_after(since, place, link.mode);
    }
    Ok(())
}

/// What a part of an include makes of records.
fn merge_link<C, R: Fields<C>>(
    alloc: Global,
    done: &[Result<Merged<R::Key, R>, Fault>],
    link: Link,
    merged: &mut Merged<R::Key, R>,
) -> Result<(), Fault>
    ensures { Joins R.Defaults R.form R.Key.eq R.moves done.now merged.old result merged.new
        (linked R.Key.eq R.moves link) (map_of link) }
{
    match done.get(link.map) {
        None => Ok(()),
        Some(Err(fault)) => Err(*fault),
        Some(Ok(found)) => {
            merged.notes = merged.notes.saturating_add(found.notes);
            add_included::<C, R>(alloc, &mut merged.records, link, &found.records)
        }
    }
}
