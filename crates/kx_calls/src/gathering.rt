//! Sources whose files C reads: a step says which path is looked for, and C tells what is there.
ghost use Rattle.std.specs.Prelude.{◌≡◌, ◌≢◌, ◌⊎◌, IfOk, IfSome, None, Some};
ghost use Rattle.kx_calls.specs.declared.status.TheConstants.{FILE, MEMORY};

use crate::files::XkcFile;
use crate::folders::{PassedFault, XkcAsked, XkcFolder, paths_of, text_of};
use crate::status::{FILE, MEMORY};
use crate::words::boxed;
use kx_sources::{Gathering, HeldSource, Named, Start, Stop, Unread, Words, WordsHandle};
use kx_told::{Told, Variables};
use std::alloc::Global;

/// What C has found at a path: nothing or what can't be read, by the system's number of why; a folder; or a file with its bytes.
#[repr(C)]
pub struct XkcFound<'a> {
    pub path: &'a [u8],
    pub whole: &'a [u8],
    pub bytes: &'a [u8],
    pub number: u32,
    pub kind: u32,
}

/// Why a step makes no source, with what is said of it on the heap.
#[derive(Drop)]
pub enum Halt {
    Memory,
    /// A path is looked for.
    Asks(String),
    /// A file or folder is there and can't be read.
    File(Box<Words>),
    /// There are no rules of that name, or they are refused.
    Rules(Box<Words>),
}

impl Halt {
    fn of_unread(alloc: Global, unread: Unread) -> Halt {
        let (words, is_file) = match unread {
            Unread::Memory => return Halt::Memory,
            Unread::File(words) => (words, true),
            Unread::Rules(words) => (words, false),
        };
        match boxed(alloc, words) {
            Err(_) => Halt::Memory,
            Ok(words) if is_file => Halt::File(words),
            Ok(words) => Halt::Rules(words),
        }
    }

    fn of(alloc: Global, stop: Stop) -> Halt {
        match stop {
            Stop::Asks(path) => Halt::Asks(path),
            Stop::Unread(unread) => Halt::of_unread(alloc, unread),
        }
    }
}

/// Says that what is passed isn't taken, and answers the status.
pub fn passed(alloc: Global, fault: PassedFault, words: &mut WordsHandle) -> u32
    ensures words { result ≢ FILE → words.new ≡ words.old }
    ensures statuses { (result ≡ MEMORY) ⊎ (result ≡ FILE) }
{
    if fault == PassedFault::Memory {
        return MEMORY;
    }
    match Halt::of_unread(alloc, Unread::no_text(alloc)) {
        Halt::File(said) => {
            words.put(said);
            FILE
        }
        _ => MEMORY,
    }
}

fn boxed_gathering(alloc: Global, gathering: Gathering) -> Result<Box<Gathering>, PassedFault>
    ensures { IfOk result (λ b. b.value ≡ gathering) }
{
    match Box::new(alloc, gathering) {
        Ok(boxed) => Ok(boxed),
        Err(_) => Err(PassedFault::Memory),
    }
}

/// A source that begins by its text, on the heap.
///
/// # Errors
/// Where a path is no text, or no memory is left.
pub fn begun_text(
    alloc: Global,
    text: &[u8],
    folders: &[XkcFolder<'_>],
) -> Result<Box<Gathering>, PassedFault>
    ensures { IfOk result (λ b. b.value ≡ Some text.now) }
{
    let paths = paths_of(alloc, folders)?;
    let told = Told::new(alloc, Variables::new(alloc));
    let start = Start::Text(Vec::from_slice(alloc, text)?);
    boxed_gathering(alloc, Gathering::of(alloc, told, start, paths))
}

/// The variables that C has read.
fn variables_of(alloc: Global, given: &[XkcFile<'_>]) -> Result<Variables, PassedFault> {
    let mut variables = Variables::new(alloc);
    for variable in given {
        if let Ok(value) = str::from_utf8(variable.text) {
            variables.tell(alloc, text_of(variable.name)?, value)?;
        }
    }
    Ok(variables)
}

/// A source that begins by names, on the heap.
///
/// # Errors
/// Where a path or a name is no text, or no memory is left.
pub fn begun_names(
    alloc: Global,
    asked: &XkcAsked<'_>,
    variables: &[XkcFile<'_>],
    folders: &[XkcFolder<'_>],
) -> Result<Box<Gathering>, PassedFault>
    ensures { IfOk result (λ b. b.value ≡ None) }
{
    let paths = paths_of(alloc, folders)?;
    let told = Told::new(alloc, variables_of(alloc, variables)?);
    let start = Start::Names(asked.names(alloc)?);
    boxed_gathering(alloc, Gathering::of(alloc, told, start, paths))
}

/// What a step makes, on the heap.
///
/// # Errors
/// Why it makes no source.
pub fn stepped(alloc: Global, held: &mut Gathering) -> Result<(Box<HeldSource>, Box<Words>), Halt>
    ensures same { held.new ≡ held.old }
    ensures text { IfOk result (λ made. IfSome held.old (λ text. made.0.value.text ≡ text)) }
{
    let Named { source, words } = match held.step() {
        Ok(named) => named,
        Err(stop) => return Err(Halt::of(alloc, stop)),
    };
    let Ok(words) = boxed(alloc, words) else {
        return Err(Halt::Memory);
    };
    match Box::new(alloc, source) {
        Ok(source) => Ok((source, words)),
        Err(_) => Err(Halt::Memory),
    }
}

/// Tells what is at a path. One that is no text can't have been looked for, and nothing is told.
///
/// # Errors
/// Where a path is no text, or no memory is left.
pub fn tell(alloc: Global, held: &mut Gathering, found: &XkcFound<'_>) -> Result<(), PassedFault>
    ensures { held.new ≡ held.old }
{
    let path = text_of(found.path)?;
    let Ok(whole) = str::from_utf8(found.whole) else {
        return Ok(held.tell_refused(path, 36)?);
    };
    Ok(match found.kind {
        0 => held.tell_refused(path, found.number.cast_signed())?,
        1 => held.tell_folder(path, whole)?,
        _ => held.tell_file(path, whole, Vec::from_slice(alloc, found.bytes)?)?,
    })
}
