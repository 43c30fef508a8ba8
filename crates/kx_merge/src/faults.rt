//! The faults of values of another kind.
ghost use Rattle.std.specs.Prelude.{◌≡◌};
ghost use Rattle.std.specs.Option.{option_map};
ghost use Rattle.std.specs.Result.{result_ok};
ghost use Rattle.kx_include.specs.IncludeFaults.{at};
ghost use Rattle.kx_lex.specs.declared.fault.Fault.TheVariants.{BadValue, UnknownField};
ghost use Rattle.kx_merge.specs.Faults.{expression_in, other_faults};
ghost use Rattle.kx_merge.specs.Reports.{Reports};

use kx_lex::{At, Fault, Name, Span};
use kx_parse::{Expression, Setting, Value};

/// The fault of a value in a file.
pub fn bad_value(file: u32, span: Span) -> Fault
    ensures { result ≡ BadValue (at file span) }
{
    Fault::BadValue(At { file, span })
}

/// The fault of a field in a file that no statement of its kind has.
pub fn unknown_field(file: u32, word: &Name) -> Fault
    ensures { result ≡ UnknownField (at file word.now.span) }
{
    Fault::UnknownField(At {
        file,
        span: word.span,
    })
}

/// The expression that a field of a file is set to, where `whole` is the field.
///
/// # Errors
/// `BadValue` at a value of another kind; at the field where it has none.
pub fn expression_of(file: u32, whole: Span, setting: &Setting) -> Result<&Expression, Fault>
    ensures value { option_map (λ e. e.now) (result_ok result) ≡ expression_in setting.now }
    ensures faults { Reports result (other_faults file whole setting.now) }
{
    match setting {
        Setting::To(Value::Expression(expression)) => Ok(expression),
        Setting::To(Value::List(list)) => Err(bad_value(file, list.span)),
        Setting::To(Value::Call(call)) => Err(bad_value(file, call.span)),
        Setting::Off | Setting::On => Err(bad_value(file, whole)),
    }
}
