//! The records of interpretations.
ghost use Rattle.std.specs.Prelude.{◌≡◌, None};
ghost use Rattle.std.proofs.Common.{rules};
ghost use Rattle.kx_merge.specs.Offers.{MergesCells};
ghost use Rattle.kx_compat.specs.Meaning.{compat_rules};
ghost use Rattle.kx_compat.specs.Giving.{values_cell};

use crate::defaults::CompatDefaults;
use crate::interpretation_match::InterpretationMatch;
use crate::statements::{Context, read_statement};
use crate::values::{Cell, FieldValue, FieldValues};
use ks_core::Notes;
use kx_lex::Fault;
use kx_merge::{Placed, Plain, PlainRecord};
use kx_parse::Mode;
use std::alloc::Global;

impl<'a> PlainRecord<Context<'a>> for FieldValues {
    type Key = InterpretationMatch;

    type Cell = Cell;

    type Value = FieldValue;

    type Defaults = CompatDefaults;

    ghost rules = { λ context. compat_rules context.keysyms.now context.modifiers.now.names };

    ghost cell = { values_cell };

    fn start(_context: &Context<'a>) -> CompatDefaults {
        CompatDefaults::none()
    }

    fn read(
        alloc: Global,
        context: &Context<'a>,
        defaults: CompatDefaults,
        placed: &Placed,
        notes: &mut Notes,
    ) -> Result<
        (
            Vec<(InterpretationMatch, Plain<FieldValues>)>,
            CompatDefaults,
        ),
        Fault,
    > {
        read_statement(alloc, context, defaults, placed, notes)
    }

    fn none() -> FieldValues
        ensures { (c : Cell) → values_cell result c ≡ None }
    {
        FieldValues::none()
    }

    fn merged_with(self, other: FieldValues, mode: Mode) -> FieldValues
        ensures { MergesCells mode (values_cell self) (values_cell other) (values_cell result) }
    {
        FieldValues::merged_with(self, other, mode)
    }

    ghost same = { λ j k e. Prim.search rules };
}
