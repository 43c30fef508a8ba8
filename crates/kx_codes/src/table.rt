//! Codes by name, and names by code.
ghost use Rattle.std.specs.Prelude.{◌≡◌, map, IfSome};
ghost use Rattle.std.specs.Option.{option_map};
ghost use Rattle.kx_codes.specs.Aliases.{target_in};
ghost use Rattle.kx_codes.specs.Codes.{IsEnd, code_of, name_of};
ghost use Rattle.kx_basics.specs.KeyNames.{IsKeyName};
ghost use Rattle.kx_codes.specs.Pairs.{Agree};
ghost use Rattle.kx_codes.specs.Records.{shown_alias};

use crate::name::AliasTarget;
use crate::named::NamedPairs;
use kx_merge::Single;
use kx_ordered::{Ordered, ShortName};
use std::marker::Model;

/// The pairs that keycodes leave at the end, by name and by code, which agree, and the aliases. The names of pairs are
/// lent by the trees of the source.
pub struct Codes<'l> {
    pairs: NamedPairs<'l>,
    aliases: Ordered<ShortName, Single<AliasTarget>>,
}

impl Drop for Codes<'_> {
    fn drop(self) {
        let Codes {
            pairs: _,
            aliases: _,
        } = self;
    }
}

impl<'l> Model for Codes<'l> {
    ghost use Rattle.std.specs.Prelude.{map};
    ghost use Rattle.kx_codes.specs.Codes.{Codes};
    ghost use Rattle.kx_codes.specs.Pairs.{Agree};
    ghost use Rattle.kx_codes.specs.Records.{shown_alias};

    ghost Value = { Codes };

    ghost view = { λ c. record {
      by_name = c.pairs.by_name;
      by_code = c.pairs.by_code;
      aliases = map shown_alias c.aliases.entries;
    } };

    ghost invariant = { λ c. Agree c.pairs.by_name c.pairs.by_code };
}

impl<'l> Codes<'l> {
    pub(crate) fn of(
        pairs: NamedPairs<'l>,
        aliases: Ordered<ShortName, Single<AliasTarget>>,
    ) -> Codes<'l>
        requires { Agree pairs.by_name pairs.by_code }
        ensures { result ≡ record {
          by_name = pairs.entry.by_name;
          by_code = pairs.entry.by_code;
          aliases = map shown_alias aliases.entries;
        } }
    {
        Codes { pairs, aliases }
    }

    /// The name that a name stands for.
    fn target(&self, name: &[u8]) -> Option<&[u8]>
        ensures { option_map (λ t. t.now) result ≡ target_in self.now.aliases name.now }
    {
        match self.aliases.value_of_short_name(name) {
            None => None,
            Some(alias) => match &alias.value {
                None => None,
                Some(target) => Some(target.as_slice()),
            },
        }
    }

    /// The keycode of a name, exactly as it is written: that of its pair, else that of the pair of the name that it
    /// stands for.
    #[inline(always)]
    pub fn code_of(&self, name: &[u8]) -> Option<u16>
        ensures { result ≡ code_of self.now name.now }
    {
        match self.pairs.code_of(name) {
            Some(code) => Some(code),
            None => self.pairs.code_of(self.target(name)?),
        }
    }

    /// The name of a keycode, whose pair has the keycode.
    pub fn name_of(&self, code: u16) -> Option<&[u8]>
        ensures value { option_map (λ n. n.now) result ≡ name_of self.now code }
        ensures valid { IfSome result (λ name. IsKeyName name.now) }
        ensures agree { Agree self.now.by_name self.now.by_code }
    {
        self.pairs.name_of(code)
    }

    /// One more than the greatest keycode that has a name, or 0 where none has one.
    pub fn end(&self) -> u16
        ensures { IsEnd result (name_of self.now) }
    {
        self.pairs.end()
    }
}
