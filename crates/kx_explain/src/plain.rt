//! What is said of a fault without its text.
use kx_lex::{At, Fault};

/// Where a fault stands; lack of memory stands nowhere.
pub fn place_of(fault: Fault) -> Option<At> {
    match fault {
        Fault::Memory => None,
        Fault::TooLong(at)
        | Fault::BadByte(at)
        | Fault::OpenString(at)
        | Fault::OpenKeyName(at)
        | Fault::Syntax(at)
        | Fault::NumberTooBig(at)
        | Fault::BadInclude(at)
        | Fault::FileMissing(at)
        | Fault::MapMissing(at)
        | Fault::DepthOver16(at)
        | Fault::UnknownModifier(at)
        | Fault::TooMany(at)
        | Fault::UnknownField(at)
        | Fault::BadValue(at)
        | Fault::GroupRange(at)
        | Fault::LevelRange(at)
        | Fault::CodeRange(at) => Some(at),
    }
}

/// What a fault of a kind means.
pub fn plain_message(fault: Fault) -> &'static str {
    match fault {
        Fault::Memory => "no memory is left",
        Fault::TooLong(_) => "the text has more than 1,048,576 bytes",
        Fault::BadByte(_) => "no keymap has this byte here",
        Fault::OpenString(_) => "text that is not closed on its line",
        Fault::OpenKeyName(_) => "a key name that is not closed",
        Fault::Syntax(_) => "a keymap does not go on like this",
        Fault::NumberTooBig(_) => "a number above 4,294,967,295",
        Fault::BadInclude(_) => "an include that names no files",
        Fault::FileMissing(_) => "no file of this name is handed in",
        Fault::MapMissing(_) => "the file has no such map",
        Fault::DepthOver16(_) => "includes more than 16 deep",
        Fault::UnknownModifier(_) => "a modifier that is neither real nor declared",
        Fault::TooMany(_) => "one more than a limit allows",
        Fault::UnknownField(_) => "nothing that is read here",
        Fault::BadValue(_) => "a value of the wrong kind or range",
        Fault::GroupRange(_) => "a group outside its range",
        Fault::LevelRange(_) => "a level outside 1 to 64",
        Fault::CodeRange(_) => "a keycode above 4,095",
    }
}
