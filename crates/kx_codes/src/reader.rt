//! What the keycodes of a source leave: the public call.
ghost use Rattle.std.specs.Prelude.{◌≡◌, ◌↔◌, ℕ, List, IfOk, Some};
ghost use Rattle.kx_include.specs.Shared.{expanded_body};
ghost use Rattle.kx_codes.specs.CodeFaults.{faults_of};
ghost use Rattle.kx_codes.specs.Codes.{CodesShow, name_of, paired};
ghost use Rattle.kx_merge.specs.Reports.{ReportsOrRunsOut};

use crate::name::AliasTarget;
use crate::named::NamedPairs;
use crate::numbers::Names;
use crate::table::Codes;
use crate::walking::gather;
use kx_include::Expansion;
use kx_lex::Fault;
use kx_merge::{Single, merge};
use std::alloc::Global;

/// The pairs and the aliases that a source's keycodes leave at their end. No two pairs share a name or a code.
///
/// # Errors
/// `CodeRange` at a code above 4,095, `TooMany` at a statement with a name of over 255 bytes, `UnknownField` at a
/// statement that keycodes don't have; `Memory`.
pub fn codes<'l>(alloc: Global, expansion: &Expansion<'l>) -> Result<Codes<'l>, Fault>
    ensures shows { IfOk result (λ c. CodesShow c (expanded_body expansion.now)) }
    ensures joined { IfOk result (λ c. (code : ℕ) (name : List ℕ)
        → (name_of c code ≡ Some name) ↔ (paired c name ≡ Some code)) }
    ensures faults { ReportsOrRunsOut result (faults_of (expanded_body expansion.now)) }
{
    let mut names = Names::new(alloc);
    let gathered = gather(alloc, &mut names, expansion)?;
    let pairs = NamedPairs::of(alloc, names, gathered)?;
    let merged = merge::<(), Single<AliasTarget>>(alloc, &(), expansion)?;
    Ok(Codes::of(pairs, merged.records))
}
