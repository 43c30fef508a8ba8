//! Pairs of a name and a keycode, by number.
ghost use Rattle.std.specs.Prelude.{◌≡◌, if◌then◌else◌, [], ℕ, nat_eq, slice_get, length, IfErr, IfOk, IfSome, OnOk, List, None, Some};
ghost use Rattle.std.specs.List.{list_any};
ghost use Rattle.std.specs.Option.{option_map};
ghost use Rattle.std.specs.Str.{bytes_eq};
ghost use Rattle.kx_codes.specs.Indexed.{Stands};
ghost use Rattle.kx_codes.specs.Numbers.{number as numbered};
ghost use Rattle.kx_codes.specs.Pairs.{Pair as PairValue, shares, taken, all_taken, code_in, name_in};
ghost use Rattle.kx_lex.specs.declared.fault.Fault.TheVariants.{Memory};
ghost use Rattle.kx_tree.specs.declared.tree.Mode.TheVariants.{Augment, Override};

use indexmap::IndexMap;
use kx_lex::Fault;
use kx_parse::Mode;
use std::alloc::Global;
use std::marker::Model;

/// Pairs of a name and a keycode, of which no two share either. The names stand by their numbers.
#[derive(Drop)]
pub(crate) struct Pairs {
    codes: IndexMap<usize, u16>,
    names: IndexMap<u16, usize>,
}

impl Model for Pairs {
    ghost use Rattle.kx_codes.specs.Codes.{named, coded};
    ghost use Rattle.kx_codes.specs.Indexed.{Indexed};
    ghost use Rattle.kx_codes.specs.Numbers.{number};
    ghost use Rattle.kx_codes.specs.Numbers.{with_numbers};

    ghost Value = { Indexed };

    ghost view = { λ p. record {
      by_name = named number p.codes.entries;
      by_code = coded (with_numbers p.names.entries);
    } };
}

impl Pairs {
    pub(crate) fn new(alloc: Global) -> Pairs
        ensures { Stands result [] }
    {
        Pairs {
            codes: IndexMap::new(alloc),
            names: IndexMap::new(alloc),
        }
    }

    /// The code of a name.
    pub(crate) fn code_of(&self, name: usize) -> Option<u16>
        ensures { result ≡ code_in self.now.by_name (numbered name) }
    {
        self.codes.get(&name).copied()
    }

    /// The same, with room for so many.
    pub(crate) fn with_room(alloc: Global, count: usize) -> Result<Pairs, Fault>
        ensures none { IfOk result (λ pairs. Stands pairs []) }
        ensures err { IfErr result (λ e. e ≡ Memory) }
    {
        Ok(Pairs {
            codes: IndexMap::with_capacity(alloc, count)?,
            names: IndexMap::with_capacity(alloc, count)?,
        })
    }

    /// Whether a pair has the name or the code.
    fn has_sharing(&self, name: usize, code: u16) -> bool
        ensures { (ps : List PairValue) → Stands self.now ps
            → result ≡ list_any (shares (record { name = numbered name; code = code })) ps }
    {
        self.codes.contains_key(&name) || self.names.contains_key(&code)
    }

    /// Gives a name this code; answers its code before.
    #[inline(always)]
    fn put_code(&mut self, name: usize, code: u16) -> Result<Option<u16>, Fault>
        ensures before { IfOk result (λ before. before ≡ code_in self.old.by_name (numbered name)) }
        ensures put { OnOk result ((n : List ℕ)
            → code_in self.new.by_name n ≡ (if bytes_eq (numbered name) n then Some code
            else code_in self.old.by_name n)) }
        ensures names { OnOk result (self.new.by_code ≡ self.old.by_code) }
        ensures err { IfErr result (λ e. e ≡ Memory) }
    {
        Ok(self.codes.insert(name, code)?)
    }

    /// Gives a code this name; answers its name before.
    #[inline(always)]
    fn put_name(&mut self, code: u16, name: usize) -> Result<Option<usize>, Fault>
        ensures before { IfOk result (λ before.
            option_map numbered before ≡ name_in self.old.by_code code) }
        ensures put { OnOk result ((c : ℕ)
            → name_in self.new.by_code c ≡ (if nat_eq code c then Some (numbered name)
            else name_in self.old.by_code c)) }
        ensures codes { OnOk result (self.new.by_name ≡ self.old.by_name) }
        ensures err { IfErr result (λ e. e ≡ Memory) }
    {
        Ok(self.names.insert(code, name)?)
    }

    /// Leaves a name, if there is one, without a code.
    fn drop_code(&mut self, name: Option<usize>)
        ensures dropped { IfSome name (λ m. (n : List ℕ)
            → code_in self.new.by_name n ≡ (if bytes_eq (numbered m) n then None
            else code_in self.old.by_name n)) }
        ensures same { name ≡ None → self.new ≡ self.old }
        ensures names { self.new.by_code ≡ self.old.by_code }
    {
        if let Some(name) = name {
            let _ = self.codes.swap_remove(&name);
        }
    }

    /// Leaves a code, if there is one, without a name.
    fn drop_name(&mut self, code: Option<u16>)
        ensures dropped { IfSome code (λ d. (c : ℕ)
            → name_in self.new.by_code c ≡ (if nat_eq d c then None
            else name_in self.old.by_code c)) }
        ensures same { code ≡ None → self.new ≡ self.old }
        ensures codes { self.new.by_name ≡ self.old.by_name }
    {
        if let Some(code) = code {
            let _ = self.names.swap_remove(&code);
        }
    }

    /// Takes a pair under augment: it is dropped where one shares its name or its code.
    fn take_under(&mut self, name: usize, code: u16) -> Result<(), Fault>
        ensures took { OnOk result ((ps : List PairValue) → Stands self.old ps
            → Stands self.new (taken Augment ps (record { name = numbered name; code = code }))) }
        ensures err { IfErr result (λ e. e ≡ Memory) }
    {
        if self.has_sharing(name, code) {
            return Ok(());
        }
        let _ = self.put_code(name, code)?;
        let _ = self.put_name(code, name)?;
        Ok(())
    }

    /// Takes a pair under override or replace: those that share its name or its code are removed.
    fn take_over(&mut self, name: usize, code: u16) -> Result<(), Fault>
        ensures took { OnOk result ((ps : List PairValue) → Stands self.old ps
            → Stands self.new (taken Override ps (record { name = numbered name; code = code }))) }
        ensures err { IfErr result (λ e. e ≡ Memory) }
    {
        let before = self.put_code(name, code)?;
        if before == Some(code) {
            return Ok(());
        }
        self.drop_name(before);
        let other = self.put_name(code, name)?;
        self.drop_code(other);
        Ok(())
    }

    /// Takes a pair. Under override and replace it removes every pair that shares its name or its code; under augment
    /// it is dropped where there is such a pair.
    #[inline(always)]
    pub(crate) fn take(&mut self, mode: Mode, name: usize, code: u16) -> Result<(), Fault>
        ensures took { OnOk result ((ps : List PairValue) → Stands self.old ps
            → Stands self.new (taken mode ps (record { name = numbered name; code = code }))) }
        ensures err { IfErr result (λ e. e ≡ Memory) }
    {
        match mode {
            Mode::Augment => self.take_under(name, code),
            Mode::Override | Mode::Replace => self.take_over(name, code),
        }
    }

    /// Takes the pair at a place of others.
    fn take_at(&mut self, mode: Mode, given: &Pairs, place: usize) -> Result<(), Fault>
        ensures took { OnOk result ((ps : List PairValue) (p : PairValue) → Stands self.old ps
            → slice_get given.now.by_code place ≡ Some p → Stands self.new (taken mode ps p)) }
        ensures err { IfErr result (λ e. e ≡ Memory) }
    {
        match given.names.get_index(place) {
            None => Ok(()),
            Some((code, name)) => {
                self.take(mode, *name, *code)?;
                Ok(())
            }
        }
    }

    /// Takes others.
    pub(crate) fn take_all(&mut self, mode: Mode, given: &Pairs) -> Result<(), Fault>
        ensures took { OnOk result ((ps qs : List PairValue) → Stands self.old ps
            → Stands given.now qs → Stands self.new (all_taken mode ps qs)) }
        ensures err { IfErr result (λ e. e ≡ Memory) }
    {
        let count = given.names.len();
        'given: for place in 0..count {
            self.take_at(mode, given, place)?;
        }
        Ok(())
    }

    /// Takes others, which are handed over: where there are none yet, they are these.
    pub(crate) fn take_joined(&mut self, mode: Mode, given: Pairs) -> Result<(), Fault>
        ensures took { OnOk result ((ps qs : List PairValue) → Stands self.old ps
            → Stands given qs → Stands self.new (all_taken mode ps qs)) }
        ensures err { IfErr result (λ e. e ≡ Memory) }
    {
        if self.len() == 0 {
            *self = given;
            return Ok(());
        }
        self.take_all(mode, &given)
    }

    /// How many pairs there are.
    pub(crate) fn len(&self) -> usize
        ensures len { result ≡ length self.now.by_code }
        ensures own { (ps : List PairValue) → Stands self.now ps
            → Stands self.now self.now.by_code }
    {
        self.names.len()
    }

    /// The code and the number of the name of the pair at a place.
    pub(crate) fn at(&self, place: usize) -> Option<(u16, usize)>
        ensures { option_map (λ found. record { name = numbered found.1; code = found.0 }) result
            ≡ slice_get self.now.by_code place }
    {
        let (code, name) = self.names.get_index(place)?;
        Some((*code, *name))
    }
}
