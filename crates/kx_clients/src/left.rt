//! What an image leaves out.
use crate::alias::Alias;
use crate::declared_types::DeclaredType;
use crate::indicators::IndicatorName;
use crate::virtual_modifier::VirtualModifier;
use std::marker::Model;

/// What a keymap's source says that its image leaves out.
#[derive(Drop)]
pub struct LeftOut {
    aliases: Vec<Alias>,
    indicators: Vec<IndicatorName>,
    modifiers: Vec<VirtualModifier>,
    types: Vec<DeclaredType>,
    repeating: Vec<bool>,
}

impl Model for LeftOut {
    ghost use Rattle.kx_clients.specs.LeftOut.{LeftOut};

    ghost Value = { LeftOut };

    ghost view = { λ l. record {
      aliases = l.aliases.items;
      indicators = l.indicators.items;
      modifiers = l.modifiers.items;
      types = l.types.items;
      repeating = l.repeating.items;
    } };

    ghost use Rattle.std.specs.Prelude.{◌≡◌, length};
    ghost use Rattle.kx_clients.specs.declared.indicators.TheConstants.{INDICATORS};

    ghost invariant = { λ l. length l.indicators.items ≡ INDICATORS };
}

impl LeftOut {
    ghost use Rattle.std.specs.Prelude.{◌≡◌, length};
    ghost use Rattle.kx_clients.specs.LeftOut.{repeats};
    ghost use Rattle.kx_clients.specs.declared.indicators.TheConstants.{INDICATORS};

    pub(crate) fn of(
        aliases: Vec<Alias>,
        indicators: Vec<IndicatorName>,
        modifiers: Vec<VirtualModifier>,
        types: Vec<DeclaredType>,
        repeating: Vec<bool>,
    ) -> LeftOut
        requires { length indicators.items ≡ INDICATORS }
        ensures { result ≡ record {
          aliases = aliases.items;
          indicators = indicators.items;
          modifiers = modifiers.items;
          types = types.items;
          repeating = repeating.items;
        } }
    {
        LeftOut {
            aliases,
            indicators,
            modifiers,
            types,
            repeating,
        }
    }

    /// The aliases by which keys are known, in the order in which the source first names them.
    pub fn aliases(&self) -> &[Alias]
        ensures { result.now ≡ self.now.aliases }
    {
        self.aliases.as_slice()
    }

    /// The names that keycodes sections give indicators, by their numbers, of which the first is 1; of no bytes where they give
    /// none.
    pub fn indicators(&self) -> &[IndicatorName]
        ensures names { result.now ≡ self.now.indicators }
        ensures all { length result.now ≡ INDICATORS }
    {
        self.indicators.as_slice()
    }

    /// The key types that the source declares, by first appearance.
    pub fn types(&self) -> &[DeclaredType]
        ensures { result.now ≡ self.now.types }
    {
        self.types.as_slice()
    }

    /// The virtual modifiers, by their numbers.
    pub fn modifiers(&self) -> &[VirtualModifier]
        ensures { result.now ≡ self.now.modifiers }
    {
        self.modifiers.as_slice()
    }

    /// Whether the key of a keycode repeats; one without a name doesn't.
    pub fn repeats(&self, code: u16) -> bool
        ensures { result ≡ repeats self.now code }
    {
        match self.repeating.get(usize::from(code)) {
            Some(repeats) => *repeats,
            None => false,
        }
    }
}
