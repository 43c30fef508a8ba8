//! The records of indicators.
ghost use Rattle.std.specs.Prelude.{◌≡◌, None};
ghost use Rattle.std.proofs.Common.{eqb-true};
ghost use Rattle.kx_merge.specs.Offers.{MergesCells};
ghost use Rattle.kx_indicators.specs.Giving.{values_cell};
ghost use Rattle.kx_indicators.specs.Meaning.{indicator_map_rules};

use crate::blocks::{Context, read_statement};
use crate::values::{IndicatorMapField, IndicatorMapValue, IndicatorMapValues};
use ks_core::Notes;
use kx_lex::Fault;
use kx_merge::{Placed, Plain, PlainRecord};
use kx_parse::Mode;
use std::alloc::Global;

impl<'a> PlainRecord<Context<'a>> for IndicatorMapValues {
    type Key = usize;

    type Cell = IndicatorMapField;

    type Value = IndicatorMapValue;

    type Defaults = IndicatorMapValues;

    ghost rules = { λ context. indicator_map_rules context.indicators.now
        context.modifiers.now.names };

    ghost cell = { values_cell };

    fn start(_context: &Context<'a>) -> IndicatorMapValues {
        IndicatorMapValues::none()
    }

    fn read(
        alloc: Global,
        context: &Context<'a>,
        defaults: IndicatorMapValues,
        placed: &Placed,
        _notes: &mut Notes,
    ) -> Result<(Vec<(usize, Plain<IndicatorMapValues>)>, IndicatorMapValues), Fault> {
        read_statement(alloc, context, defaults, placed)
    }

    fn none() -> IndicatorMapValues
        ensures { (c : IndicatorMapField) → values_cell result c ≡ None }
    {
        IndicatorMapValues::none()
    }

    fn merged_with(self, other: IndicatorMapValues, mode: Mode) -> IndicatorMapValues
        ensures { MergesCells mode (values_cell self) (values_cell other) (values_cell result) }
    {
        IndicatorMapValues::merged_with(self, other, mode)
    }

    ghost same = { λ j k e. eqb-true j k e };
}
