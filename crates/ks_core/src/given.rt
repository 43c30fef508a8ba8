//! The names that lines gave.
ghost use Rattle.std.specs.Prelude.{◌≡◌, None, Some, true, false, List, [], ◌∷◌, ◌++◌, IfErr, IfSome, OnOk, OnErr, slice_get, ◌⊎◌};
ghost use Rattle.std.specs.List.{IsDistinct};
ghost use Rattle.std.specs.Map.{keys_of};
ghost use Rattle.std.specs.Option.{option_copied, option_map};
ghost use Rattle.std.specs.String.{string_eq};
ghost use Rattle.ks_core.specs.Entry.{keysym_in, name_in};
ghost use Rattle.ks_core.specs.Lines.{known_keysym, is_another, with_entry, fault_of_line, given_after};

use crate::builtin;
use crate::fault::NameFault;
use crate::line::read_line;
use kx_ordered::Ordered;
use std::alloc::{AllocError, Global};
use std::collections::BTreeMap;
use std::marker::Model;

/// Names in the order in which lines first gave them, each with its keysym.
#[derive(Drop)]
pub(crate) struct Given {
    keysyms: Ordered<String, u32>,
    /// Where the first name of each keysym stands.
    first: BTreeMap<u32, usize>,
}

impl Model for Given {
    ghost use Rattle.std.specs.Prelude.{List};
    ghost use Rattle.ks_core.specs.Entry.{Entry};
    ghost use Rattle.ks_core.specs.Given.{entries_in, HasFirstPlaces};

    ghost Value = { List Entry };

    ghost view = { λ g. entries_in g.keysyms.entries };

    ghost invariant = { λ g. HasFirstPlaces g.first g.keysyms.entries };
}

impl Given {
    pub(crate) fn new(alloc: Global) -> Given
        ensures { result ≡ [] }
    {
        Given {
            keysyms: Ordered::new(alloc),
            first: BTreeMap::new(alloc),
        }
    }

    /// The keysym of the name.
    pub(crate) fn keysym_of(&self, name: &str) -> Option<u32>
        ensures { result ≡ keysym_in self.now name.now }
    {
        self.keysyms.value_of_text(name).copied()
    }

    /// The first name of the keysym.
    pub(crate) fn name_of(&self, keysym: u32) -> Option<&str>
        ensures first { option_map (λ name. name.now) result ≡ name_in self.now keysym }
        ensures back { IfSome result (λ name. keysym_in self.now name.now ≡ Some keysym) }
    {
        match self.first.get(&keysym) {
            Some(index) => match pair_at(&self.keysyms, *index) {
                Some((name, _)) => Some(name.as_str()),
                None => None,
            },
            None => None,
        }
    }

    /// The name at a place.
    pub(crate) fn name_at(&self, place: usize) -> Option<&str>
        ensures { option_map (λ name. name.now) result
            ≡ option_map (λ e. e.0) (slice_get self.now place) }
    {
        match pair_at(&self.keysyms, place) {
            Some((name, _)) => Some(name.as_str()),
            None => None,
        }
    }

    /// Reads the line with that number.
    pub(crate) fn read(
        &mut self,
        alloc: Global,
        line: &[u8],
        number: usize,
    ) -> Result<(), NameFault>
        ensures valid { OnOk result (fault_of_line self.old number line.now ≡ None) }
        ensures given { OnOk result (self.new ≡ given_after self.old line.now) }
        ensures fault { IfErr result (λ fault. (fault ≡ NameFault.Memory)
            ⊎ (fault_of_line self.old number line.now ≡ Some fault)) }
    {
        match read_line(line, number) {
            Ok(entry) => match entry {
                Some((name, keysym)) => self.read_entry(alloc, name, keysym, number),
                None => Ok(()),
            },
            Err(fault) => Err(fault),
        }
    }

    /// Takes the name and the keysym of the line with that number.
    #[tactic(auto, unfolding(crate::specs::Lines::with_entry))]
    fn read_entry(
        &mut self,
        alloc: Global,
        name: &str,
        keysym: u32,
        number: usize,
    ) -> Result<(), NameFault>
        ensures valid { OnOk result (is_another (known_keysym self.old name.now) keysym ≡ false) }
        ensures given { OnOk result (self.new ≡ with_entry self.old (name.now, keysym)) }
        ensures fault { IfErr result (λ fault. (fault ≡ NameFault.Memory)
            ⊎ ((is_another (known_keysym self.old name.now) keysym ≡ true)
            × (fault ≡ NameFault.Twice number))) }
    {
        match self.known(name) {
            Some(known) => {
                if known == keysym {
                    Ok(())
                } else {
                    Err(NameFault::Twice(number))
                }
            }
            None => match self.add(alloc, name, keysym) {
                Ok(()) => Ok(()),
                Err(_) => Err(NameFault::Memory),
            },
        }
    }

    /// The keysym of the name, built in or given.
    #[tactic(auto, unfolding(crate::specs::Lines::known_keysym))]
    fn known(&self, name: &str) -> Option<u32>
        ensures { result ≡ known_keysym self.now name.now }
    {
        match builtin::keysym_of(name.as_bytes()) {
            Some(keysym) => Some(keysym),
            None => self.keysym_of(name),
        }
    }

    /// Adds a name that is not there.
    fn add(&mut self, alloc: Global, name: &str, keysym: u32) -> Result<(), AllocError>
        requires { keysym_in self.old name.now ≡ None }
        ensures ok { OnOk result (self.new ≡ self.old ++ (name.now, keysym) ∷ []) }
        ensures err { OnErr result (self.new ≡ self.old) }
    {
        let name = String::from_str(alloc, name)?;
        if self.first.contains_key(&keysym) {
            self.keysyms.push(name, keysym)?;
            return Ok(());
        }
        self.first.insert(keysym, self.keysyms.len())?;
        if let Err(_) = self.keysyms.push(name, keysym) {
            let _ = self.first.remove(&keysym);
            return Err(AllocError);
        }
        Ok(())
    }
}

/// The name and the keysym at a place.
fn pair_at(keysyms: &Ordered<String, u32>, place: usize) -> Option<&(String, u32)>
    ensures pair { option_copied result ≡ slice_get keysyms.now.entries place }
    ensures unique { IsDistinct string_eq (keys_of keysyms.now.entries) }
{
    keysyms.as_slice().get(place)
}
