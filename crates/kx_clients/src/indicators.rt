//! The names that keycodes sections give indicators.
ghost use Rattle.std.specs.Prelude.{◌≡◌, ◌≤◌, ◌<◌, ◌+◌, ◌∷◌, [], ℕ, IfErr, IfOk, Some, length, nat_eq, unwrap_or};
ghost use Rattle.std.specs.Option.{option_map};
ghost use Rattle.std.proofs.Common.{◌∙◌, ap, eqb-true, sym};
ghost use Rattle.kx_include.specs.Shared.{expanded_body};
ghost use Rattle.kx_lex.specs.declared.fault.Fault.TheVariants.{Memory};
ghost use Rattle.kx_merge.specs.Moved.{moved_key};
ghost use Rattle.kx_merge.specs.Records.{AreOffered};
ghost use Rattle.kx_merge.specs.Reports.{ReportsOrRunsOut};
ghost use Rattle.kx_merge.specs.Single.{single_form, single_moves};
ghost use Rattle.kx_tree.specs.declared.tree.Mode.{Mode as ModeValue};
ghost use Rattle.kx_clients.specs.IndicatorNames.{AreIndicatorNames, kept_number, name_at, name_recorded, name_offer, named_indicator, named_offers};

use kx_basics::MOST_NAME_BYTES;
use kx_include::Expansion;
use kx_lex::{Bytes, Fault};
use kx_merge::{Placed, Single, SingleValue, merge, none_given, one_given};
use kx_ordered::Ordered;
use kx_parse::Statement;
use std::alloc::{AllocError, Global};
use std::marker::Model;

/// There are so many indicators, of which the first has the number 1.
pub const INDICATORS: usize = 32;

/// The name of an indicator; seen as its bytes.
#[derive(Drop)]
pub struct IndicatorName {
    bytes: Bytes,
}

impl Model for IndicatorName {
    ghost use Rattle.std.specs.Prelude.{List, ℕ};

    ghost Value = { List ℕ };

    ghost view = { λ n. n.bytes };
}

impl IndicatorName {
    ghost use Rattle.std.specs.Prelude.{◌≡◌, [], IfOk};

    fn of(alloc: Global, bytes: &[u8]) -> Result<IndicatorName, AllocError>
        ensures { IfOk result (λ name. name ≡ bytes.now) }
    {
        Ok(IndicatorName {
            bytes: Bytes::of(alloc, bytes)?,
        })
    }

    /// Its bytes; none where the indicator has no name.
    pub fn as_slice(&self) -> &[u8]
        ensures { result.now ≡ self.now }
    {
        self.bytes.as_slice()
    }
}

// ---- What statements give

/// The number, from 1, and the name that a statement gives an indicator.
fn named_indicator(statement: &Statement) -> Option<(u8, &[u8])>
    ensures { option_map (λ named. (named.0, named.1.now)) result
        ≡ named_indicator statement.now }
{
    let Statement::IndicatorName { number, name } = statement else {
        return None;
    };
    let name = name.bytes.as_slice();
    let value = number.value;
    if 1 <= value && value <= INDICATORS as u32 && name.len() <= MOST_NAME_BYTES {
        Some((value as u8, name))
    } else {
        None
    }
}

fn one_record(
    alloc: Global,
    number: u8,
    name: &[u8],
) -> Result<Vec<(u8, Single<IndicatorName>)>, Fault>
    ensures records { (mode : ModeValue) → IfOk result (λ records. AreOffered mode single_form
        records.items (name_offer mode number name.now ∷ [])) }
    ensures err { IfErr result (λ e. e ≡ Memory) }
{
    let name = IndicatorName::of(alloc, name)?;
    one_given(alloc, number, name)
}

/// The name that a statement gives an indicator.
fn read_statement(
    alloc: Global,
    statement: &Statement,
) -> Result<Vec<(u8, Single<IndicatorName>)>, Fault>
    ensures records { (mode : ModeValue) → IfOk result (λ records. AreOffered mode single_form
        records.items (named_offers mode (named_indicator statement.now))) }
    ensures err { IfErr result (λ e. e ≡ Memory) }
{
    match named_indicator(statement) {
        None => Ok(none_given(alloc)),
        Some((number, name)) => one_record(alloc, number, name),
    }
}

impl SingleValue<()> for IndicatorName {
    type Key = u8;

    ghost offers = { λ context place stated.
        named_offers stated.mode (named_indicator stated.statement) };

    ghost faults = { λ context place stated. [] };

    ghost moved = { kept_number };

    fn read(
        alloc: Global,
        _context: &(),
        placed: &Placed,
    ) -> Result<Vec<(u8, Single<IndicatorName>)>, Fault> {
        read_statement(alloc, &placed.stated.statement)
    }

    fn try_clone(&self, alloc: Global) -> Result<IndicatorName, Fault> {
        Ok(IndicatorName::of(alloc, self.as_slice())?)
    }

    fn key_in(key: &u8, _group: Option<u8>) -> Option<u8>
        ensures { result ≡ moved_key (single_moves kept_number) _group key.now }
    {
        Some(*key)
    }

    ghost apart = { λ n j k to one two. ap (λ key. unwrap_or key 0) (one ∙ sym two) };

    ghost same = { λ j k e. eqb-true j k e };
}

// ---- Their names by number

/// The name that records have for the indicator of a number; of no bytes where they have none.
fn name_among(
    alloc: Global,
    records: &Ordered<u8, Single<IndicatorName>>,
    number: u8,
) -> Result<IndicatorName, AllocError>
    ensures { IfOk result (λ name. name ≡ name_recorded records.now number) }
{
    match records.get(&number) {
        None => IndicatorName::of(alloc, &[]),
        Some(given) => match &given.value {
            None => IndicatorName::of(alloc, &[]),
            Some(name) => IndicatorName::of(alloc, name.as_slice()),
        },
    }
}

/// The names that records have for all indicators.
fn all_names(
    alloc: Global,
    records: &Ordered<u8, Single<IndicatorName>>,
) -> Result<Vec<IndicatorName>, AllocError>
    ensures names { IfOk result (λ names. (place : ℕ) → place < INDICATORS
        → name_at names.items place ≡ name_recorded records.now (place + 1)) }
    ensures all { IfOk result (λ names. length names.items ≡ INDICATORS) }
{
    let mut names = Vec::new(alloc);
    'indicators: for place in 0..INDICATORS {
        let name = name_among(alloc, records, place as u8 + 1)?;
        names.push(name)?;
    }
    Ok(names)
}

/// The names that the keycodes sections of an expanded body give indicators, by number; of no bytes where they give none.
///
/// # Errors
/// `Memory`.
pub(crate) fn indicator_names(
    alloc: Global,
    expansion: &Expansion,
) -> Result<Vec<IndicatorName>, Fault>
    ensures names { IfOk result (λ names.
        AreIndicatorNames names.items (expanded_body expansion.now)) }
    ensures err { IfErr result (λ e. e ≡ Memory) }
{
    let merged = merge::<(), Single<IndicatorName>>(alloc, &(), expansion)?;
    Ok(all_names(alloc, &merged.records)?)
}
