//! The names that statements of indicators write.
ghost use Rattle.std.specs.Prelude.{◌≡◌, IfErr, OnOk, option_to_list};
ghost use Rattle.std.specs.Option.{option_map};
ghost use Rattle.kx_indicators.specs.Blocks.{indicator_in, indicator_map_names};
ghost use Rattle.kx_lex.specs.declared.fault.Fault.TheVariants.{Memory};
ghost use Rattle.kx_virtual_mods.specs.Counted.{with_names};

use kx_lex::{Fault, Name};
use kx_parse::{Field, Statement};
use kx_virtual_mods::{Names, Naming};
use std::alloc::Global;

/// What a statement declares of an indicator.
#[derive(Clone, Copy)]
pub(crate) struct DeclaredIndicator<'s> {
    pub(crate) name: &'s Name,
    pub(crate) fields: &'s [Field],
}

pub(crate) fn indicator_in<'s>(statement: &'s Statement) -> Option<DeclaredIndicator<'s>>
    ensures { option_map (λ i. (i.name.now, i.fields.now)) result ≡ indicator_in statement.now }
{
    match statement {
        Statement::Indicator { name, fields } => Some(DeclaredIndicator {
            name,
            fields: fields.as_slice(),
        }),
        _ => None,
    }
}

/// The name of the indicator that a statement is about.
fn written_name(statement: &Statement) -> Option<&[u8]>
    ensures { option_to_list (option_map (λ n. n.now) result) ≡ indicator_map_names statement.now }
{
    match indicator_in(statement) {
        None => None,
        Some(declared) => Some(declared.name.bytes.as_slice()),
    }
}

/// The names of indicators.
pub struct IndicatorMapNaming;

impl Naming for IndicatorMapNaming {
    ghost names = { indicator_map_names };

    fn add(alloc: Global, others: &mut Names, statement: &Statement) -> Result<(), Fault>
        ensures added { OnOk result (others.new
            ≡ with_names others.old (indicator_map_names statement.now)) }
        ensures err { IfErr result (λ e. e ≡ Memory) }
    {
        match written_name(statement) {
            None => Ok(()),
            Some(name) => others.add(alloc, name),
        }
    }
}
