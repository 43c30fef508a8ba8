//! Truth values.
ghost use Rattle.std.specs.Prelude.{◌≡◌};
ghost use Rattle.std.specs.Result.{result_ok};
ghost use Rattle.kx_key_fields.specs.AttributeFields.{flag_faults, truth_faults, truth_in};
ghost use Rattle.kx_merge.specs.Words.{meaning_among, truth_words};
ghost use Rattle.kx_merge.specs.Reports.{Reports};

use kx_lex::Fault;
use kx_merge::{bad_value, expression_of, lone_word, truth_named};
use kx_parse::{Expression, Field, Setting};

fn truth_of(file: u32, value: &Expression) -> Result<bool, Fault>
    ensures value { result_ok result ≡ meaning_among truth_words value.now }
    ensures faults { Reports result (truth_faults file value.now) }
{
    let word = lone_word(value).ok_or(bad_value(file, value.span))?;
    truth_named(word.bytes.as_slice()).ok_or(bad_value(file, value.span))
}

/// The truth value that a field is set to: without a value it is true, with `!` false.
pub(crate) fn read_flag(file: u32, field: &Field) -> Result<bool, Fault>
    ensures value { result_ok result ≡ truth_in field.now.setting }
    ensures faults { Reports result (flag_faults file field.now.span field.now.setting) }
{
    match &field.setting {
        Setting::Off => Ok(false),
        Setting::On => Ok(true),
        Setting::To(_) => truth_of(file, expression_of(file, field.span, &field.setting)?),
    }
}
