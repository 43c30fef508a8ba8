//! Items, each once, in order.
ghost use Rattle.std.specs.Prelude.{◌≡◌, [], OnOk, OnErr, IfErr};
ghost use Rattle.indexmap.specs.IndexSet.{insert_key};

use std::alloc::{AllocError, Global};
use std::collections::BTreeMap;
use std::marker::Model;

/// Items, each once, in the order in which they were first added; seen as their list. An item is found in the logarithm of
/// how many there are, whatever the items are.
#[derive(Drop)]
pub struct OrderedSet<T: Ord + Copy + Drop> {
    items: Vec<T>,
    members: BTreeMap<T, ()>,
}

impl<T: Ord + Copy + Drop> Model for OrderedSet<T> {
    ghost use Rattle.std.specs.Prelude.{List};
    ghost use Rattle.kx_ordered.specs.Members.{AreMembers};

    ghost Value = { List T };

    ghost view = { λ s. s.items.items };

    ghost invariant = { λ s. AreMembers T.cmp s.members s.items.items };
}

impl<T: Ord + Copy + Drop> OrderedSet<T> {
    /// No items.
    pub fn new(alloc: Global) -> OrderedSet<T>
        ensures { result ≡ [] }
    {
        OrderedSet {
            items: Vec::new(alloc),
            members: BTreeMap::new(alloc),
        }
    }

    /// The items in order.
    pub fn as_slice(&self) -> &[T]
        ensures { result.now ≡ self.now }
    {
        self.items.as_slice()
    }

    /// Adds an item after the others, where it isn't among them.
    pub fn add(&mut self, item: T) -> Result<(), AllocError>
        ensures added { OnOk result (self.new ≡ insert_key T.eq self.old item) }
        ensures err { OnErr result (self.new ≡ self.old) }
    {
        if self.members.contains_key(&item) {
            return Ok(());
        }
        self.items.push(item)?;
        match self.members.insert(item, ()) {
            Ok(_) => Ok(()),
            Err(_) => {
                let _ = self.items.pop();
                Err(AllocError)
            }
        }
    }
}
