//! The faults of keycodes statements.
ghost use Rattle.std.specs.Prelude.{◌≡◌, IfOk};
ghost use Rattle.kx_codes.specs.CodeFaults.{code_faults, is_limit};
ghost use Rattle.kx_merge.specs.Faults.{name_faults};
ghost use Rattle.kx_basics.specs.KeyNames.{IsKeyName};
ghost use Rattle.kx_merge.specs.Reports.{ReportsOrRunsOut};

use kx_basics::{GREATEST_CODE, MOST_NAME_BYTES};
use kx_lex::{At, Fault, Span};
use kx_parse::{FieldPlace, KeyName, Number};

/// The bytes of a name; `whole` is the statement in which it stands.
pub(crate) fn check_name(file: u32, whole: Span, name: &KeyName) -> Result<&[u8], Fault>
    ensures value { IfOk result (λ bytes. bytes.now ≡ name.now.bytes) }
    ensures valid { IfOk result (λ bytes. IsKeyName bytes.now) }
    ensures faults { ReportsOrRunsOut result (name_faults file whole name.now) }
{
    let bytes = name.as_slice();
    if bytes.len() > MOST_NAME_BYTES {
        return Err(Fault::TooMany(At { file, span: whole }));
    }
    Ok(bytes)
}

pub(crate) fn check_code(file: u32, code: Number) -> Result<u16, Fault>
    ensures value { IfOk result (λ c. c ≡ code.value) }
    ensures faults { ReportsOrRunsOut result (code_faults file code) }
{
    if code.value > u32::from(GREATEST_CODE) {
        return Err(Fault::CodeRange(At {
            file,
            span: code.span,
        }));
    }
    Ok(code.value as u16)
}

/// Whether a field is one that is read and not used.
pub(crate) fn is_limit(place: &FieldPlace) -> bool
    ensures { result ≡ is_limit place.now }
{
    if place.member.is_some() {
        return false;
    }
    let word = place.word.bytes.as_slice();
    word.eq_ignore_ascii_case(b"minimum") || word.eq_ignore_ascii_case(b"maximum")
}
