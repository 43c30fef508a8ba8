//! The names of groups by precedence.
ghost use Rattle.std.specs.Prelude.{◌≡◌, ◌≤◌, ◌<◌, ◌-◌, ◌+◌, [], ℕ, IfOk, length, nat_eq, if◌then◌else◌};
ghost use Rattle.kx_basics.specs.declared.limits.TheConstants.{MOST_NAME_BYTES};
ghost use Rattle.kx_include.specs.Shared.{expanded_body};
ghost use Rattle.kx_merge.specs.Bodies.{faults_of};
ghost use Rattle.kx_group_names.specs.Names.{AreCut, AreGroupNames, name_at, name_moves, name_recorded, name_rules};
ghost use Rattle.kx_merge.specs.Reports.{ReportsOrRunsOut};

use crate::text::NameText;
use kx_basics::MOST_GROUPS;
use kx_include::Expansion;
use kx_lex::Fault;
use kx_merge::{Single, merge};
use kx_ordered::Ordered;
use std::alloc::{AllocError, Global};
use std::marker::Model;

/// There are so many groups at most.
const GROUPS: usize = 32;

/// The names of groups, from the first to the last that has a name of a byte or more; seen as the list of their bytes.
pub struct GroupNames {
    names: Vec<NameText>,
}

impl Drop for GroupNames {
    fn drop(self) {
        let GroupNames { names: _ } = self;
    }
}

impl Model for GroupNames {
    ghost use Rattle.std.specs.Prelude.{List, ℕ};
    ghost use Rattle.kx_group_names.specs.Names.{AreCut};

    ghost Value = { List (List ℕ) };

    ghost view = { λ n. n.names.items };

    ghost invariant = { λ n. AreCut n.names.items };
}

impl GroupNames {
    /// How many groups there are up to the last that has a name.
    pub fn len(&self) -> usize
        ensures value { result ≡ length self.now }
        ensures cut { AreCut self.now }
    {
        self.names.len()
    }

    /// Whether no group has a name.
    pub fn is_empty(&self) -> bool
        ensures { result ≡ nat_eq (length self.now) 0 }
    {
        self.names.is_empty()
    }

    /// The name of a group, counted from 0; of no bytes where it has none.
    pub fn name(&self, group: usize) -> &[u8]
        ensures value { result.now ≡ name_at self.now group }
        ensures short { length result.now ≤ MOST_NAME_BYTES }
    {
        match self.names.get(group) {
            None => &[],
            Some(name) => name.as_slice(),
        }
    }
}

/// The name that records have for a group, counted from 1.
fn name_among(
    alloc: Global,
    records: &Ordered<u8, Single<NameText>>,
    group: u8,
) -> Result<NameText, AllocError>
    ensures { IfOk result (λ name. name ≡ name_recorded records.now group) }
{
    match records.get(&group) {
        None => NameText::empty(alloc),
        Some(given) => match &given.value {
            None => NameText::empty(alloc),
            Some(text) => NameText::of(alloc, text.as_slice()),
        },
    }
}

/// The names that records have for all groups.
fn all_names(
    alloc: Global,
    records: &Ordered<u8, Single<NameText>>,
) -> Result<Vec<NameText>, AllocError>
    ensures names { IfOk result (λ names. (group : ℕ) → group < GROUPS
        → name_at names.items group ≡ name_recorded records.now (group + 1)) }
    ensures all { IfOk result (λ names. length names.items ≡ GROUPS) }
{
    let mut names = Vec::new(alloc);
    'groups: for group in 0..GROUPS {
        let name = name_among(alloc, records, group as u8 + 1)?;
        names.push(name)?;
    }
    Ok(names)
}

/// How many names there are up to the last that has a byte, once one more is read.
fn count_with(count: usize, place: usize, name: &[u8]) -> usize
    requires { place < MOST_GROUPS }
    ensures { result ≡ (if nat_eq (length name.now) 0 then count else place + 1) }
{
    if name.is_empty() { count } else { place + 1 }
}

/// How many names there are up to the last that has a byte.
fn named_count(names: &[NameText]) -> usize
    requires { length names.now ≤ MOST_GROUPS }
    ensures within { result ≤ length names.now }
    ensures behind { (group : ℕ) → result ≤ group → name_at names.now group ≡ [] }
    ensures last { name_at names.now (result - 1) ≡ [] → result ≡ 0 }
{
    let mut count = 0;
    'names: for place in 0..names.len() {
        count = count_with(count, place, names[place].as_slice());
    }
    count
}

/// The names without those of no bytes at the end.
fn named(names: Vec<NameText>) -> Vec<NameText>
    requires { length names.items ≤ MOST_GROUPS }
    ensures names { (group : ℕ) → name_at result.items group ≡ name_at names.items group }
    ensures few { length result.items ≤ MOST_GROUPS }
    ensures ends { name_at result.items (length result.items - 1) ≡ [] → result.items ≡ [] }
{
    let mut names = names;
    let count = named_count(names.as_slice());
    names.truncate(count);
    names
}

/// The names that the fields of a keymap's symbols give its groups.
///
/// # Errors
/// The faults of these fields, at their places: `UnknownField` at the word of one without an index; `BadValue` at an index
/// that is no group, at a value that isn't one text, and at a field without a value; `GroupRange` at a group outside of 1 to
/// 32; `TooMany` at a statement whose text has over 255 bytes; `Memory`.
pub fn group_names(alloc: Global, expansion: &Expansion) -> Result<GroupNames, Fault>
    ensures names { IfOk result (λ names. AreGroupNames names (expanded_body expansion.now)) }
    ensures faults { ReportsOrRunsOut result
        (faults_of nat_eq name_rules name_moves (expanded_body expansion.now)) }
{
    let merged = merge::<(), Single<NameText>>(alloc, &(), expansion)?;
    let names = named(all_names(alloc, &merged.records)?);
    Ok(GroupNames { names })
}
