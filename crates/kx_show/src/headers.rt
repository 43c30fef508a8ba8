//! The names of keysyms in C headers.
use ks_core::{NameFault, NameTable};
use std::alloc::{AllocError, Global};
use std::collections::BTreeSet;

/// The keysyms of the kernel's codes begin here; headers write them by `_EVDEVK`.
const KERNEL_KEYSYMS: u32 = 0x1008_1000;

/// The number that a value of a definition is: in hexadecimal, or by `_EVDEVK`.
fn number_of(value: &str) -> Option<u32> {
    let (first, number) = match value.strip_prefix("_EVDEVK(") {
        Some(rest) => (KERNEL_KEYSYMS, rest.strip_suffix(")")?),
        None => (0, value),
    };
    let digits = number.strip_prefix("0x")?;
    u32::from_str_radix(digits, 16).ok()?.checked_add(first)
}

/// The name that a macro stands for, in two pieces: `XKB_KEY_name`, `XK_name`, or `PREFIXXK_name` for `PREFIXname`.
fn name_of(word: &str) -> Option<(&str, &str)> {
    match word.strip_prefix("XKB_KEY_") {
        Some(name) => Some(("", name)),
        None => word.split_once("XK_"),
    }
}

/// The line that a definition of a header gives.
fn line_of(alloc: Global, line: &str) -> Result<Option<String>, AllocError> {
    let mut words = line.split_ascii_whitespace();
    let (Some("#define"), Some(word), Some(value)) = (words.next(), words.next(), words.next())
    else {
        return Ok(None);
    };
    let (Some((front, name)), Some(number)) = (name_of(word), number_of(value)) else {
        return Ok(None);
    };
    Ok(Some(format!(in alloc; "{front}{name} 0x{number:x}")?))
}

/// Whether a line of names is taken by itself.
fn is_taken(alloc: Global, line: &str) -> Result<bool, AllocError> {
    match NameTable::with_lines(alloc, line.as_bytes()) {
        Ok(_) => Ok(true),
        Err(NameFault::Memory) => Err(AllocError),
        Err(_) => Ok(false),
    }
}

/// Adds the lines of names that C headers define, in order, each name once. What lines of names can't have is left out: a
/// name that begins with a digit or is of the U form, a number that is no keysym, a name that stands for another already.
///
/// # Errors
/// Where a growth is refused.
pub fn write_names(alloc: Global, headers: &[Vec<u8>], out: &mut String) -> Result<(), AllocError> {
    let mut given: BTreeSet<String> = BTreeSet::new(alloc);
    for header in headers {
        for line in header.as_slice().split(|byte| *byte == b'\n') {
            let Ok(line) = str::from_utf8(line) else {
                continue;
            };
            let Some(line) = line_of(alloc, line)? else {
                continue;
            };
            let Some((name, _)) = line.as_str().split_once(' ') else {
                continue;
            };
            if given.contains(name) || !is_taken(alloc, line.as_str())? {
                continue;
            }
            given.insert(String::from_str(alloc, name)?)?;
            out.push_str(line.as_str())?;
            out.push('\n')?;
        }
    }
    Ok(())
}
