//! What a single keycodes statement says.
ghost use Rattle.std.specs.Prelude.{List, OnOk};
ghost use Rattle.kx_codes.specs.CodeFaults.{said_faults};
ghost use Rattle.kx_codes.specs.Numbers.{Grows, IsOnce, StandsIn};
ghost use Rattle.kx_codes.specs.Pairs.{Pair, said_pairs};
ghost use Rattle.kx_merge.specs.Reports.{ReportsOrRunsOut};

use crate::checks::{check_code, check_name, is_limit};
use crate::numbers::Names;
use crate::pairs::Pairs;
use kx_lex::{At, Fault};
use kx_parse::{Stated, Statement};

/// Takes what a statement says.
pub(crate) fn take_said<'l>(
    names: &mut Names<'l>,
    pairs: &mut Pairs,
    file: u32,
    stated: &'l Stated,
) -> Result<(), Fault>
    ensures took { OnOk result ((ps : List Pair) → StandsIn names.old pairs.old ps
        → StandsIn names.new pairs.new (said_pairs stated.now.mode stated.now.statement ps)) }
    ensures grows { IsOnce names.old → Grows names.old names.new }
    ensures faults { ReportsOrRunsOut result
        (said_faults file stated.now.statement stated.now.first stated.now.span) }
{
    let whole = stated.span;
    match &stated.statement {
        Statement::Keycode { name, code } => {
            let name = check_name(file, whole, name)?;
            let code = check_code(file, *code)?;
            let number = names.number(name)?;
            pairs.take(stated.mode, number, code)
        }
        Statement::Alias { name, target } => {
            check_name(file, whole, name)?;
            check_name(file, whole, target)?;
            Ok(())
        }
        Statement::IndicatorName { .. } => Ok(()),
        Statement::Field(field) => {
            let field = field.get();
            if is_limit(&field.place) {
                return Ok(());
            }
            Err(Fault::UnknownField(At {
                file,
                span: field.place.word.span,
            }))
        }
        Statement::VirtualModifiers(_)
        | Statement::KeyType { .. }
        | Statement::Interpretation { .. }
        | Statement::Indicator { .. }
        | Statement::Group { .. }
        | Statement::Key { .. }
        | Statement::ModifierMap { .. } => Err(Fault::UnknownField(At {
            file,
            span: stated.first,
        })),
    }
}
