//! The names that type statements write.
ghost use Rattle.std.specs.Prelude.{◌≡◌, IfErr, OnOk, option_to_list};
ghost use Rattle.std.specs.Option.{option_map};
ghost use Rattle.kx_lex.specs.declared.fault.Fault.TheVariants.{Memory};
ghost use Rattle.kx_types.specs.Types.{type_names};
ghost use Rattle.kx_virtual_mods.specs.Counted.{with_names};

use crate::declared::type_in;
use kx_lex::Fault;
use kx_parse::Statement;
use kx_virtual_mods::{Names, Naming};
use std::alloc::Global;

/// The names of types.
pub(crate) struct TypeNaming;

impl Naming for TypeNaming {
    ghost names = { type_names };

    fn add(alloc: Global, others: &mut Names, statement: &Statement) -> Result<(), Fault>
        ensures added { OnOk result
            (others.new ≡ with_names others.old (type_names statement.now)) }
        ensures err { IfErr result (λ e. e ≡ Memory) }
    {
        match written_name(statement) {
            None => Ok(()),
            Some(name) => others.add(alloc, name),
        }
    }
}

/// The name of the type that a statement declares.
fn written_name(statement: &Statement) -> Option<&[u8]>
    ensures { option_to_list (option_map (λ n. n.now) result) ≡ type_names statement.now }
{
    match type_in(statement) {
        None => None,
        Some((name, _)) => Some(name.bytes.as_slice()),
    }
}
