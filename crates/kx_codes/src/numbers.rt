//! Names of keys by number.
ghost use Rattle.std.specs.Prelude.{◌≡◌, [], IfErr, IfOk, IfSome, OnOk, Some, position, slice_get};
ghost use Rattle.std.specs.Option.{option_map};
ghost use Rattle.std.specs.Str.{bytes_eq};
ghost use Rattle.kx_basics.specs.KeyNames.{IsKeyName};
ghost use Rattle.kx_codes.specs.Numbers.{Grows, IsOnce};
ghost use Rattle.kx_lex.specs.declared.fault.Fault.TheVariants.{Memory};

use kx_lex::Fault;
use kx_ordered::{NameKey, Ordered};
use std::alloc::Global;
use std::marker::Model;

/// The names that keycodes statements give codes, each once, numbered from 0 in the order of first appearance. Pairs are
/// taken by these numbers, so that a name's bytes are looked at once for each statement, however often it is included.
#[derive(Drop)]
pub(crate) struct Names<'l> {
    names: Ordered<NameKey<'l>, ()>,
}

impl<'l> Model for Names<'l> {
    ghost use Rattle.std.specs.Prelude.{List, ℕ, All};
    ghost use Rattle.indexmap.specs.IndexMap.{keys};
    ghost use Rattle.kx_basics.specs.KeyNames.{IsKeyName};

    ghost Value = { List (List ℕ) };

    ghost view = { λ n. keys n.names };

    ghost invariant = { λ n. All IsKeyName (keys n.names) };
}

impl<'l> Names<'l> {
    pub(crate) fn new(alloc: Global) -> Names<'l>
        ensures none { result ≡ [] }
    {
        Names {
            names: Ordered::new(alloc),
        }
    }

    /// The number of a name, which is given one if it has none.
    pub(crate) fn number(&mut self, name: &'l [u8]) -> Result<usize, Fault>
        requires { IsKeyName name.now }
        ensures name { IfOk result (λ n. slice_get self.new n ≡ Some name.now) }
        ensures grows { Grows self.old self.new }
        ensures err { IfErr result (λ e. e ≡ Memory) }
    {
        let count = self.names.len();
        match self.names.push_new(NameKey::of(name), ())? {
            Some((number, _)) => Ok(number),
            None => Ok(count),
        }
    }

    /// The number of a name.
    #[inline(always)]
    pub(crate) fn place(&self, name: &[u8]) -> Option<usize>
        ensures { result ≡ position (bytes_eq name.now) self.now }
    {
        self.names.place_of_lent_name(name)
    }

    /// The name of a number.
    pub(crate) fn name(&self, number: usize) -> Option<&'l [u8]>
        ensures value { option_map (λ n. n.now) result ≡ slice_get self.now number }
        ensures valid { IfSome result (λ name. IsKeyName name.now) }
    {
        match self.names.at(number) {
            None => None,
            Some((key, _)) => Some(key.as_slice()),
        }
    }
}
