//! The records of a map whose values statements take back.
ghost use Rattle.std.specs.Prelude.{◌≡◌, ◌++◌, ◌∷◌, [], length, IfErr, OnOk};
ghost use Rattle.kx_lex.specs.declared.fault.Fault.TheVariants.{Memory};
ghost use Rattle.kx_merge.specs.Renewals.{keys_since};

use kx_lex::Fault;
use std::alloc::Global;

/// The keys that statements under replace gave, in order, and how many there were once each entry of the map was gone over.
#[derive(Drop)]
pub(crate) struct Replaced<K: Drop> {
    pub(crate) keys: Vec<K>,
    pub(crate) marks: Vec<usize>,
}

impl<K: Drop> Replaced<K> {
    pub(crate) fn new(alloc: Global) -> Replaced<K>
        ensures keys { result.keys.items ≡ [] }
        ensures marks { result.marks.items ≡ [] }
    {
        Replaced {
            keys: Vec::new(alloc),
            marks: Vec::new(alloc),
        }
    }

    /// Notes that one more entry was gone over.
    pub(crate) fn pass(&mut self) -> Result<(), Fault>
        ensures keys { OnOk result (self.new.keys.items ≡ self.old.keys.items) }
        ensures marks { OnOk result
            (self.new.marks.items ≡ self.old.marks.items ++ length self.old.keys.items ∷ []) }
        ensures err { IfErr result (λ e. e ≡ Memory) }
    {
        let count = self.keys.len();
        self.marks.push(count)?;
        Ok(())
    }

    /// The keys that were given after the entry at a place.
    pub(crate) fn since(&self, place: usize) -> &[K]
        ensures { result.now ≡ keys_since self.now.marks.items self.now.keys.items place }
    {
        let mark = self.marks.get(place).copied().unwrap_or(0);
        self.keys.get(mark..).unwrap_or(&[])
    }
}
