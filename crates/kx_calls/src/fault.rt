//! Why a source is refused, as C has it.
ghost use Rattle.std.specs.Prelude.{◌≡◌, ◌≢◌, ◌⊎◌, MatchOption};
ghost use Rattle.kx_lex.specs.declared.fault.Fault.TheVariants.{Memory};
ghost use Rattle.kx_calls.specs.FaultInC.{fault_in_c};
ghost use Rattle.kx_calls.specs.declared.status.TheConstants.{MEMORY, SOURCE};

use crate::status::{MEMORY, SOURCE};
use kx_lex::{At, Fault};

/// Why a source is refused: the number n of its fault Fn, the text in which it stands (0 is the source, n the n-th
/// file handed in), and its first byte and the one after its last.
#[repr(C)]
#[derive(Clone, Copy)]
pub struct XkcFault {
    pub number: u32,
    pub file: u32,
    pub start: u32,
    pub stop: u32,
}

/// A fault of a number at a place.
const fn at(number: u32, place: At) -> XkcFault
    ensures { result ≡ record {
      number = number;
      file = place.file;
      start = place.span.start;
      stop = place.span.stop;
    } }
{
    XkcFault {
        number,
        file: place.file,
        start: place.span.start,
        stop: place.span.stop,
    }
}

impl XkcFault {
    /// What a fault of a source says; lack of memory is none.
    pub fn of(fault: Fault) -> Option<XkcFault>
        ensures { MatchOption result (fault ≡ Memory) (λ told. (told ≡ fault_in_c fault)
            × (fault ≢ Memory)) }
    {
        let told = match fault {
            Fault::Memory => return None,
            Fault::TooLong(place) => at(2, place),
            Fault::BadByte(place) => at(3, place),
            Fault::OpenString(place) => at(4, place),
            Fault::OpenKeyName(place) => at(5, place),
            Fault::Syntax(place) => at(6, place),
            Fault::NumberTooBig(place) => at(7, place),
            Fault::BadInclude(place) => at(8, place),
            Fault::FileMissing(place) => at(9, place),
            Fault::MapMissing(place) => at(10, place),
            Fault::DepthOver16(place) => at(11, place),
            Fault::UnknownModifier(place) => at(12, place),
            Fault::TooMany(place) => at(13, place),
            Fault::UnknownField(place) => at(14, place),
            Fault::BadValue(place) => at(15, place),
            Fault::GroupRange(place) => at(16, place),
            Fault::LevelRange(place) => at(17, place),
            Fault::CodeRange(place) => at(18, place),
        };
        Some(told)
    }
}

/// The status of a fault.
pub fn refusal(fault: Fault) -> u32
    ensures { ((result ≡ MEMORY) × (fault ≡ Memory)) ⊎ ((result ≡ SOURCE) × (fault ≢ Memory)) }
{
    match XkcFault::of(fault) {
        None => MEMORY,
        Some(_) => SOURCE,
    }
}
