//! Indicators by number.
ghost use Rattle.std.specs.Prelude.{◌≡◌, length, slice_get};
ghost use Rattle.std.specs.Option.{option_map};

use crate::indicator_map::IndicatorMap;
use kx_virtual_mods::Names;
use std::marker::Model;

/// The indicators of a keymap, numbered from 0 in the order in which they are first named.
pub struct Indicators {
    names: Names,
    indicator_maps: Vec<IndicatorMap>,
}

impl Drop for Indicators {
    fn drop(self) {
        let Indicators {
            names: _,
            indicator_maps: _,
        } = self;
    }
}

impl Model for Indicators {
    ghost use Rattle.kx_indicators.specs.Bounds.{AreValid};
    ghost use Rattle.kx_indicators.specs.Meaning.{Indicators};

    ghost Value = { Indicators };

    ghost view = { λ i. record { names = i.names; indicator_maps = i.indicator_maps.items } };

    ghost invariant = { λ i. AreValid
        (record { names = i.names; indicator_maps = i.indicator_maps.items }) };
}

impl Indicators {
    ghost use Rattle.std.specs.Prelude.{◌≡◌, length, slice_get};
    ghost use Rattle.std.specs.Option.{option_map};
    ghost use Rattle.kx_indicators.specs.Bounds.{AreValid, NamesAreValid};

    /// The indicators with these names.
    pub(crate) fn of(names: Names, indicator_maps: Vec<IndicatorMap>) -> Indicators
        requires names { NamesAreValid names }
        requires as_many { length indicator_maps.items ≡ length names }
        ensures { result ≡ record { names = names; indicator_maps = indicator_maps.items } }
    {
        Indicators {
            names,
            indicator_maps,
        }
    }

    /// How many there are.
    pub fn len(&self) -> usize
        ensures value { result ≡ length self.now.names }
        ensures valid { AreValid self.now }
    {
        self.names.len()
    }

    /// The name of an indicator by its number.
    pub fn name(&self, number: usize) -> Option<&[u8]>
        ensures { option_map (λ n. n.now) result ≡ slice_get self.now.names number }
    {
        self.names.name(number)
    }

    /// What lights an indicator, by its number.
    pub fn indicator_map(&self, number: usize) -> Option<&IndicatorMap>
        ensures { option_map (λ l. l.now) result ≡ slice_get self.now.indicator_maps number }
    {
        self.indicator_maps.get(number)
    }
}
