//! Printed text means the tables that were printed.
ghost use Rattle.std.specs.Prelude.{◌≡◌, List, []};
ghost use Rattle.ks_core.specs.Table.{KeysymTable};
ghost use Rattle.kx_lex.specs.declared.fault.Fault.{Fault};
ghost use Rattle.kx_print.specs.Printed.{printed};
ghost use Rattle.kx_roundtrip.specs.Again.{AreNames, CanBePrinted};
ghost use Rattle.kx_source.specs.Source.{HasFault, Means};
ghost use Rattle.kx_tables.specs.Content.{Content};

use kx_lex::one_reading;
use kx_parse::{one_stop, one_tree};

/// The printed text of tables has no fault, and means these tables and no others, whatever names of keysyms a table gives.
pub fn printed_means_itself()
    ensures faultless { (c : Content) (names : KeysymTable) (e : Fault) → CanBePrinted c
        → AreNames names → HasFault (printed c) [] names e → ⊥ }
    ensures content { (c : Content) (d : Content) (names : KeysymTable) → CanBePrinted c
        → AreNames names → Means (printed c) [] names d → d ≡ c }
{
    one_reading();
    one_tree();
    one_stop();
}
