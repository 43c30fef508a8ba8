//! The records that a statement gives.
ghost use Rattle.std.specs.Prelude.{◌≡◌, ◌∷◌, [], IfErr, IfOk};
ghost use Rattle.std.specs.Option.{option_map_or};
ghost use Rattle.kx_lex.specs.declared.fault.Fault.TheVariants.{Memory};

use kx_lex::Fault;
use std::alloc::Global;

/// One record, where what tells it apart is known; else none.
///
/// # Errors
/// `Memory`.
pub fn records_for<K: Drop, R: Drop>(
    alloc: Global,
    key: Option<K>,
    given: R,
) -> Result<Vec<(K, R)>, Fault>
    ensures records { IfOk result (λ records.
        records.items ≡ option_map_or (λ k. (k, given) ∷ []) key []) }
    ensures err { IfErr result (λ e. e ≡ Memory) }
{
    let Some(key) = key else {
        return Ok(Vec::new(alloc));
    };
    let mut records = Vec::with_capacity(alloc, 1)?;
    records.push((key, given))?;
    Ok(records)
}
