//! The names that the statements of bodies write.
ghost use Rattle.std.specs.Prelude.{◌≡◌, ◌≤◌, ◌∷◌, [], ℕ, Contains, IfErr, IfOk, List, OnOk, false, length, slice_get, slice_set, take, true, unwrap_or};
ghost use Rattle.kx_include.specs.Shared.{body_at, expanded_body};
ghost use Rattle.kx_tree.specs.declared.tree.Statement.{Statement as StatementValue};
ghost use Rattle.kx_lex.specs.declared.fault.Fault.TheVariants.{Memory};
ghost use Rattle.kx_virtual_mods.specs.Counted.{crossing, names_behind, statements_of, with_names};
ghost use Rattle.kx_virtual_mods.specs.Tallies.{Adds, AreDone, bodies_of, entry_statements, links_statements, map_statements};
ghost use Rattle.kx_merge.specs.Reports.{ReportsOrRunsOut};

use crate::names::Names;
use kx_include::{Entry, Expansion, Link, Map, Place};
use kx_lex::{At, Fault};
use kx_parse::{Stated, Statement};
use std::alloc::Global;

/// A kind of names that statements write.
pub trait Naming {
    ghost names: { StatementValue → List (List ℕ) };

    /// Adds the names of a statement to others.
    fn add(alloc: Global, others: &mut Names, statement: &Statement) -> Result<(), Fault>
        ensures added { OnOk result (others.new ≡ with_names others.old (names statement.now)) }
        ensures err { IfErr result (λ e. e ≡ Memory) };
}

/// Names that were counted so far, and which maps add no more of them.
#[derive(Drop)]
struct Tally {
    names: Names,
    /// By the number of a map, whether its names are there.
    done: Vec<bool>,
}

impl Tally {
    fn is_done(&self, number: usize) -> bool
        ensures { result ≡ unwrap_or (slice_get self.now.done.items number) false }
    {
        match self.done.get(number) {
            None => false,
            Some(done) => *done,
        }
    }

    fn mark(&mut self, number: usize)
        ensures names { self.new.names ≡ self.old.names }
        ensures done { self.new.done.items ≡ slice_set self.old.done.items number true }
    {
        if let Some(done) = self.done.get_mut(number) {
            *done = true;
        }
    }
}

/// Adds the names of a statement, of which there may be no more than a limit then.
fn add_statement<N: Naming>(
    alloc: Global,
    limit: usize,
    place: Place,
    stated: &Stated,
    names: &mut Names,
) -> Result<(), Fault>
    ensures added { OnOk result (names.new ≡ with_names names.old (N.names stated.now.statement)) }
    ensures few { OnOk result (length names.new ≤ limit) }
    ensures fault { IfErr result (λ e.
        Contains (Memory ∷ crossing N.names limit names.old ((place, stated.now) ∷ [])) e) }
{
    N::add(alloc, names, &stated.statement)?;
    if names.len() > limit {
        return Err(Fault::TooMany(At {
            file: place.file,
            span: stated.span,
        }));
    }
    Ok(())
}

/// Goes over a map, whose includes name maps below a number.
#[cycle(statements)]
fn add_map<N: Naming>(
    alloc: Global,
    limit: usize,
    maps: &[Map],
    below: usize,
    map: &Map,
    tally: &mut Tally,
) -> Result<(), Fault>
    requires within { below ≤ length maps.now }
    requires few { length tally.old.names ≤ limit }
    requires done { AreDone N.names maps.now tally.old }
    ensures { Adds N.names limit maps.now tally.old result tally.new
        (map_statements (take below (bodies_of maps.now)) map.now) }
{
    'entries: for entry in &map.entries {
        add_entry::<N>(alloc, limit, maps, below, map.place, entry, tally)?;
    }
    Ok(())
}

/// Goes over an item of a map.
#[cycle(statements)]
fn add_entry<N: Naming>(
    alloc: Global,
    limit: usize,
    maps: &[Map],
    below: usize,
    place: Place,
    entry: &Entry,
    tally: &mut Tally,
) -> Result<(), Fault>
    requires within { below ≤ length maps.now }
    requires few { length tally.old.names ≤ limit }
    requires done { AreDone N.names maps.now tally.old }
    ensures { Adds N.names limit maps.now tally.old result tally.new
        (entry_statements (take below (bodies_of maps.now)) place entry.now) }
{
    match entry {
        Entry::Own(stated) => add_statement::<N>(alloc, limit, place, stated, &mut tally.names),
        Entry::Include { links, .. } => {
            add_links::<N>(alloc, limit, maps, below, links.as_slice(), tally)
        }
    }
}

/// Goes over the parts of an include.
#[cycle(statements)]
fn add_links<N: Naming>(
    alloc: Global,
    limit: usize,
    maps: &[Map],
    below: usize,
    links: &[Link],
    tally: &mut Tally,
) -> Result<(), Fault>
    requires within { below ≤ length maps.now }
    requires few { length tally.old.names ≤ limit }
    requires done { AreDone N.names maps.now tally.old }
    ensures { Adds N.names limit maps.now tally.old result tally.new
        (links_statements (take below (bodies_of maps.now)) links.now) }
{
    'links: for link in links {
        add_included::<N>(alloc, limit, maps, below, link.map, tally)?;
    }
    Ok(())
}

/// Goes over the map of a number, where it is below another and wasn't gone over yet.
#[cycle(statements)]
fn add_included<N: Naming>(
    alloc: Global,
    limit: usize,
    maps: &[Map],
    below: usize,
    number: usize,
    tally: &mut Tally,
) -> Result<(), Fault>
    requires within { below ≤ length maps.now }
    requires few { length tally.old.names ≤ limit }
    requires done { AreDone N.names maps.now tally.old }
    ensures { Adds N.names limit maps.now tally.old result tally.new
        (statements_of (body_at (take below (bodies_of maps.now)) number)) }
{
    if number >= below {
        return Ok(());
    }
    if tally.is_done(number) {
        return Ok(());
    }
    add_map::<N>(alloc, limit, maps, number, &maps[number], tally)?;
    tally.mark(number);
    Ok(())
}

/// Names, and after them those that the statements of a body write for the first time, in the order in which they first
/// appear. A map is gone over once, however often it is included.
///
/// # Errors
/// `TooMany` at the first statement with which there are more names than the limit; `Memory`.
pub fn count_names<N: Naming>(
    alloc: Global,
    limit: usize,
    names: Names,
    expansion: &Expansion,
) -> Result<Names, Fault>
    requires few { length names ≤ limit }
    ensures names { IfOk result (λ new.
        new ≡ names_behind N.names names (statements_of (expanded_body expansion.now))) }
    ensures few { IfOk result (λ new. length new ≤ limit) }
    ensures faults { ReportsOrRunsOut result
        (crossing N.names limit names (statements_of (expanded_body expansion.now))) }
{
    let maps = expansion.maps.as_slice();
    let done = vec![in alloc; false; maps.len()]?;
    let mut tally = Tally { names, done };
    'sections: for section in &expansion.sections {
        add_map::<N>(alloc, limit, maps, maps.len(), section, &mut tally)?;
    }
    Ok(tally.names)
}
