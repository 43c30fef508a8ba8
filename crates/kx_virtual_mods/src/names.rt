//! Names by number.
ghost use Rattle.std.specs.Prelude.{◌≡◌, ◌<◌, ◌^◌, [], length, position, slice_get, IfErr, IfOk, IfSome, OnOk, Some};
ghost use Rattle.std.specs.Option.{option_map};
ghost use Rattle.std.specs.Str.{bytes_eq};
ghost use Rattle.kx_lex.specs.declared.fault.Fault.TheVariants.{Memory};
ghost use Rattle.kx_merge.specs.Offers.{with_name};

use kx_lex::Fault;
use kx_ordered::{Ordered, OwnedName};
use std::alloc::Global;
use std::marker::Model;

/// Names, each once, numbered from 0 in the order in which they were added; seen as the list of their bytes.
#[derive(Drop)]
pub struct Names {
    numbers: Ordered<OwnedName, ()>,
    /// The number that was asked for last: names often come several times on end.
    last: usize,
}

impl Model for Names {
    ghost use Rattle.std.specs.Prelude.{List, ℕ};
    ghost use Rattle.indexmap.specs.IndexMap.{keys};

    ghost Value = { List (List ℕ) };

    ghost view = { λ n. keys n.numbers };
}

impl Names {
    /// No names.
    pub fn new(alloc: Global) -> Names
        ensures { result ≡ [] }
    {
        Names {
            numbers: Ordered::new(alloc),
            last: 0,
        }
    }

    /// How many there are.
    pub fn len(&self) -> usize
        ensures value { result ≡ length self.now }
    {
        self.numbers.len()
    }

    /// The number of a name, which is read exactly.
    pub fn number_of(&self, name: &[u8]) -> Option<usize>
        ensures value { result ≡ position (bytes_eq name.now) self.now }
        ensures within { IfSome result (λ number. number < length self.now) }
    {
        self.numbers.place_of_owned_name(name)
    }

    /// The name of a number.
    pub fn name(&self, number: usize) -> Option<&[u8]>
        ensures { option_map (λ n. n.now) result ≡ slice_get self.now number }
    {
        match self.numbers.at(number) {
            None => None,
            Some((name, _)) => Some(name.as_slice()),
        }
    }

    /// The number of a name that is the one that was asked for last.
    fn last_number(&self, name: &[u8]) -> Option<usize>
        ensures { IfSome result (λ number. position (bytes_eq name.now) self.now ≡ Some number) }
    {
        match self.numbers.as_slice().get(self.last) {
            Some((last, _)) if last.as_slice() == name => Some(self.last),
            _ => None,
        }
    }

    /// The number of a name, which is added after the others where it isn't among them.
    ///
    /// # Errors
    /// `Memory`.
    #[inline(always)]
    pub fn number(&mut self, alloc: Global, name: &[u8]) -> Result<usize, Fault>
        ensures added { OnOk result (self.new ≡ with_name bytes_eq self.old name.now) }
        ensures number { IfOk result (λ number.
            position (bytes_eq name.now) self.new ≡ Some number) }
        ensures err { IfErr result (λ e. e ≡ Memory) }
    {
        if let Some(number) = self.last_number(name) {
            return Ok(number);
        }
        let number = self.number_by_order(alloc, name)?;
        self.last = number;
        Ok(number)
    }

    /// The number of a name, looked up among all.
    fn number_by_order(&mut self, alloc: Global, name: &[u8]) -> Result<usize, Fault>
        ensures added { OnOk result (self.new ≡ with_name bytes_eq self.old name.now) }
        ensures number { IfOk result (λ number.
            position (bytes_eq name.now) self.new ≡ Some number) }
        ensures err { IfErr result (λ e. e ≡ Memory) }
    {
        match self.numbers.place_of_owned_name(name) {
            Some(number) => Ok(number),
            None => {
                let number = self.numbers.len();
                let name = OwnedName::of(alloc, name)?;
                self.numbers.push(name, ())?;
                Ok(number)
            }
        }
    }

    /// Adds a name after the others, where it isn't among them.
    ///
    /// # Errors
    /// `Memory`.
    pub fn add(&mut self, alloc: Global, name: &[u8]) -> Result<(), Fault>
        ensures added { OnOk result (self.new ≡ with_name bytes_eq self.old name.now) }
        ensures err { IfErr result (λ e. e ≡ Memory) }
    {
        let _ = self.number(alloc, name)?;
        Ok(())
    }
}
