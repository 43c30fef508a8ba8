//! Names of keysyms.
use crate::case::Case;
use crate::trouble::Trouble;
use arrayvec::ArrayString;
use ks_core::Keysym;
use std::alloc::{AllocError, Global};

/// The keysym that a name stands for, in hexadecimal.
pub fn keysym_of(alloc: Global, case: &Case) -> Result<String, Trouble> {
    let name = str::from_utf8(case.source.as_slice()).unwrap_or("");
    match case.names.by_name(name) {
        None => Ok(String::from_str(alloc, "none")?),
        Some(keysym) => Ok(format!(in alloc; "{:x}", keysym.0)?),
    }
}

/// The name of a keysym, whose number is the source.
pub fn name_of(alloc: Global, case: &Case) -> Result<String, AllocError> {
    let digits = str::from_utf8(case.source.as_slice()).unwrap_or("");
    let mut name = ArrayString::new();
    let number = digits.parse::<u32>().unwrap_or(0);
    case.names.write_name(Keysym(number), &mut name);
    String::from_str(alloc, name.as_str())
}

/// How the last lines of names were refused, or `ok`.
pub fn names_shown(alloc: Global, case: &Case) -> Result<String, Trouble> {
    match case.refused {
        None => Ok(String::from_str(alloc, "ok")?),
        Some(fault) => Ok(format!(in alloc; "{fault}")?),
    }
}
