//! The pairs that are left, by keycode.
ghost use Rattle.std.specs.Prelude.{◌≡◌, [], ◌∷◌, ◌++◌, ◌≤◌, ◌<◌, ◌+◌, ℕ, slice_get, IfErr, IfOk, IfSome, IsSome, OnOk, List, Some, false};
ghost use Rattle.std.specs.List.{list_any};
ghost use Rattle.std.specs.Option.{option_map};
ghost use Rattle.kx_lex.specs.declared.fault.Fault.TheVariants.{Memory};
ghost use Rattle.kx_basics.specs.KeyNames.{IsKeyName};
ghost use Rattle.kx_basics.specs.declared.limits.TheConstants.{CODES};
ghost use Rattle.kx_codes.specs.Codes.{IsEnd};
ghost use Rattle.kx_codes.specs.Indexed.{Stands, both};
ghost use Rattle.kx_codes.specs.Numbers.{IsOnce, StandsIn, number};
ghost use Rattle.kx_codes.specs.Pairs.{Agree, Pair as PairValue, shares, code_in, name_in};

use crate::name::LentName;
use crate::numbers::Names;
use crate::pairs::Pairs;
use kx_basics::CODES;
use kx_lex::Fault;
use kx_ordered::Ordered;
use std::alloc::Global;
use std::marker::Model;

/// The names of keycodes, by keycode; seen as pairs.
#[derive(Drop)]
struct NamesByCode<'l> {
    names: Ordered<u16, LentName<'l>>,
}

impl<'l> Model for NamesByCode<'l> {
    ghost use Rattle.std.specs.Prelude.{List};
    ghost use Rattle.kx_codes.specs.Codes.{coded};
    ghost use Rattle.kx_codes.specs.Pairs.{Pair};

    ghost Value = { List Pair };

    ghost view = { λ n. coded n.names.entries };
}

impl<'l> NamesByCode<'l> {
    fn new(alloc: Global) -> NamesByCode<'l>
        ensures { Stands (both result) [] }
    {
        NamesByCode {
            names: Ordered::new(alloc),
        }
    }

    /// Puts a pair that shares nothing with those that are there.
    fn put(&mut self, name: &'l [u8], code: u16) -> Result<(), Fault>
        requires { IsKeyName name.now }
        ensures put { OnOk result ((ps : List PairValue) → Stands (both self.old) ps
            → list_any (shares (record { name = name.now; code = code })) ps ≡ false
            → Stands (both self.new) (ps ++ record { name = name.now; code = code } ∷ [])) }
        ensures err { IfErr result (λ e. e ≡ Memory) }
    {
        self.names.insert(code, LentName::of(name))?;
        Ok(())
    }

    /// Puts the pair that stands for the one at a place of those of numbers, which shares nothing with those that are there.
    fn put_at(&mut self, names: &Names<'l>, pairs: &Pairs, place: usize) -> Result<(), Fault>
        ensures put { OnOk result ((n code : ℕ) (name : List ℕ) (ps : List PairValue)
            → slice_get pairs.now.by_code place ≡ Some (record { name = number n; code = code })
            → slice_get names.now n ≡ Some name → Stands (both self.old) ps
            → list_any (shares (record { name = name; code = code })) ps ≡ false
            → Stands (both self.new) (ps ++ record { name = name; code = code } ∷ [])) }
        ensures err { IfErr result (λ e. e ≡ Memory) }
    {
        let Some((code, number)) = pairs.at(place) else {
            return Ok(());
        };
        match names.name(number) {
            None => Ok(()),
            Some(name) => self.put(name, code),
        }
    }

    /// The names of the keycodes of pairs of numbers.
    fn of(alloc: Global, names: &Names<'l>, pairs: &Pairs) -> Result<NamesByCode<'l>, Fault>
        requires once { IsOnce names.now }
        ensures stand { IfOk result (λ by_code. (ps : List PairValue)
            → StandsIn names.now pairs.now ps → Stands (both by_code) ps) }
        ensures err { IfErr result (λ e. e ≡ Memory) }
    {
        let mut by_code = NamesByCode::new(alloc);
        let count = pairs.len();
        'pairs: for place in 0..count {
            by_code.put_at(names, pairs, place)?;
        }
        Ok(by_code)
    }

    fn name(&self, code: u16) -> Option<&[u8]>
        ensures value { option_map (λ n. n.now) result ≡ name_in self.now code }
        ensures valid { IfSome result (λ name. IsKeyName name.now) }
    {
        match self.names.get(&code) {
            Some(name) => Some(name.as_slice()),
            None => None,
        }
    }

    /// One more than the keycode of the pair at a place, where it is a keycode, else 0.
    fn end_at(&self, place: usize) -> u16
        ensures within { result ≤ CODES }
        ensures above { (p : PairValue) → slice_get self.now place ≡ Some p → p.code < CODES
            → p.code < result }
        ensures named { (code : ℕ) → result ≡ code + 1 → IsSome (name_in self.now code) }
    {
        match self.names.at(place) {
            None => 0,
            Some((code, _)) if *code >= CODES => 0,
            Some((code, _)) => *code + 1,
        }
    }

    /// One more than the greatest keycode that has a name, or 0 where none has one.
    fn end(&self) -> u16
        ensures { IsEnd result (name_in self.now) }
    {
        let mut end = 0;
        'places: for place in 0..self.names.len() {
            let behind = self.end_at(place);
            if end < behind {
                end = behind;
            }
        }
        end
    }
}

/// Pairs of a name and a keycode, of which no two share either. A name, which the statements lend, is found by its number, and
/// a keycode's name at once.
#[derive(Drop)]
pub(crate) struct NamedPairs<'l> {
    names: Names<'l>,
    pairs: Pairs,
    by_code: NamesByCode<'l>,
}

impl<'l> Model for NamedPairs<'l> {
    ghost use Rattle.kx_codes.specs.Indexed.{Indexed, both};
    ghost use Rattle.kx_codes.specs.Numbers.{FindsCodes};
    ghost use Rattle.kx_codes.specs.Pairs.{Agree};

    ghost Value = { Indexed };

    ghost view = { λ p. both p.by_code };

    ghost invariant = { λ p. FindsCodes p.names p.pairs.by_name p.by_code
        × Agree p.by_code p.by_code };
}

impl<'l> NamedPairs<'l> {
    /// The pairs that stand for those of numbers.
    pub(crate) fn of(alloc: Global, names: Names<'l>, pairs: Pairs) -> Result<NamedPairs<'l>, Fault>
        requires once { IsOnce names }
        requires stand { (ps : List PairValue) × StandsIn names pairs ps }
        ensures named { IfOk result (λ named. (ps : List PairValue) → StandsIn names.entry pairs ps
            → Stands named ps) }
        ensures agree { IfOk result (λ named. Agree named.by_name named.by_code) }
        ensures err { IfErr result (λ e. e ≡ Memory) }
    {
        let by_code = NamesByCode::of(alloc, &names, &pairs)?;
        Ok(NamedPairs {
            names,
            pairs,
            by_code,
        })
    }

    #[inline(always)]
    pub(crate) fn code_of(&self, name: &[u8]) -> Option<u16>
        ensures { result ≡ code_in self.now.by_name name.now }
    {
        match self.names.place(name) {
            None => None,
            Some(number) => self.pairs.code_of(number),
        }
    }

    pub(crate) fn name_of(&self, code: u16) -> Option<&[u8]>
        ensures value { option_map (λ n. n.now) result ≡ name_in self.now.by_code code }
        ensures valid { IfSome result (λ name. IsKeyName name.now) }
    {
        self.by_code.name(code)
    }

    /// One more than the greatest keycode that has a name, or 0 where none has one.
    pub(crate) fn end(&self) -> u16
        ensures { IsEnd result (name_in self.now.by_code) }
    {
        self.by_code.end()
    }
}
