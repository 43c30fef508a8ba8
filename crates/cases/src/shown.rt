//! What a whole source gives, as text.
ghost use Rattle.std.specs.Prelude.{◌≤◌, IfOk, IsTrue, length};
ghost use Rattle.kx_lex.specs.declared.scan.TheConstants.{MOST_TEXT_BYTES};
ghost use Rattle.kx_print.specs.Printed.{printed};
ghost use Rattle.kx_types.specs.declared.limits.TheConstants.{MOST_TYPES};

use crate::case::Case;
use crate::trouble::Trouble;
use ks_core::{Lent, MemFeed, Notes};
use kx_image::View;
use kx_lex::{Fault, MOST_TEXT_BYTES};
use kx_print::print;
use kx_tables::Tables;
use kx_tool::{SessionFault, compile, compile_printed, session};
use kx_types::MOST_TYPES;
use std::alloc::{AllocError, Global};

/// What a line's word asks of a whole keymap; nothing where it is no word of one.
pub fn of_keymap(
    alloc: Global,
    case: &Case,
    word: &str,
    wanted: &str,
) -> Result<Option<String>, Trouble> {
    let found = match word {
        "answers" => shortened_lines(alloc, session_of(alloc, case)?.0.as_str())?,
        "lines" => session_of(alloc, case)?.0,
        "ends" => end_shown(alloc, session_of(alloc, case)?.1)?,
        "refused" => refusal(alloc, case)?,
        "length" => image_of(alloc, case)?.len().to_string(alloc)?,
        "image" => hex::encode(alloc, image_of(alloc, case)?.as_slice())?,
        "bytes" => bytes_from(alloc, case, wanted)?,
        "changed" => opened_changed(alloc, case, wanted)?,
        "notes" => notes_of(alloc, case)?,
        "prints" => printed(alloc, image_of(alloc, case)?.as_slice())?,
        "again" => again(alloc, case)?,
        _ => return Ok(None),
    };
    Ok(Some(found))
}

/// What an answer leaves out here.
const USUAL: [&str; 5] = [
    "consumed=none",
    "base=none",
    "latched=none",
    "locked=none",
    "group=1",
];

/// The words of an answer after its code and direction, without the usual ones.
fn shortened(alloc: Global, answer: &str) -> Result<String, AllocError> {
    let mut short = String::new(alloc);
    for word in answer.split(' ').skip(2) {
        if !USUAL.contains(&word) {
            if !short.is_empty() {
                short.push_str(" ")?;
            }
            short.push_str(word)?;
        }
    }
    Ok(short)
}

/// The answers of these lines, shortened and parted by semicolons.
fn shortened_lines(alloc: Global, answers: &str) -> Result<String, AllocError> {
    let mut all = String::new(alloc);
    for answer in answers.lines() {
        if !all.is_empty() {
            all.push_str("; ")?;
        }
        all.push_str(shortened(alloc, answer)?.as_str())?;
    }
    Ok(all)
}

/// The lines that a session writes, and how it ends.
fn session_of(
    alloc: Global,
    case: &Case,
) -> Result<(String, Result<(), SessionFault>), AllocError> {
    let events = case.events.as_bytes();
    let input = [case.source.as_slice(), b"\n%%\n", events].concat(alloc)?;
    let mut feed = MemFeed::new(input.as_slice());
    let mut out = Lent::new(Vec::new(alloc));
    let ended = session(alloc, &mut feed, &case.files, &case.names, &mut out);
    let text = str::from_utf8(out.device.as_slice()).unwrap_or("");
    Ok((String::from_str(alloc, text)?, ended))
}

/// How a session ends.
fn end_shown(alloc: Global, ended: Result<(), SessionFault>) -> Result<String, Trouble> {
    match ended {
        Ok(()) => Ok(String::from_str(alloc, "well")?),
        Err(fault) => Ok(format!(in alloc; "{fault}")?),
    }
}

/// The image of the source, and what is noted.
fn compiled(alloc: Global, case: &Case) -> Result<(Vec<u8>, Notes), Fault> {
    compile(alloc, case.source.as_slice(), &case.files, &case.names)
}

/// `taken`, where the source isn't refused.
fn refusal(alloc: Global, case: &Case) -> Result<String, Trouble> {
    compiled(alloc, case)?;
    Ok(String::from_str(alloc, "taken")?)
}

/// The image of the source.
fn image_of(alloc: Global, case: &Case) -> Result<Vec<u8>, Fault> {
    let (image, _notes) = compiled(alloc, case)?;
    Ok(image)
}

/// The bytes of the image from a place on, as many as stand after the colon.
fn bytes_from(alloc: Global, case: &Case, wanted: &str) -> Result<String, Trouble> {
    let (place, bytes) = wanted.split_once(":").unwrap_or(("0", wanted));
    let place = place.parse::<usize>().unwrap_or(0);
    let count = bytes.len() / 2;
    let image = image_of(alloc, case)?;
    let behind = image.as_slice().get(place..).unwrap_or(&[]);
    let shown = behind.get(..count).unwrap_or(behind);
    let digits = hex::encode(alloc, shown)?;
    let place = place.to_string(alloc)?;
    Ok([place.as_str(), ":", digits.as_str()].concat(alloc)?)
}

/// How the image is opened once the bytes from a place on are these, which stand after the place and a colon: the fault, or
/// `taken`.
fn opened_changed(alloc: Global, case: &Case, wanted: &str) -> Result<String, Trouble> {
    let (change, _) = wanted.split_once(" ").unwrap_or((wanted, ""));
    let (place, digits) = change.split_once(":").unwrap_or(("0", change));
    let Ok(bytes) = hex::decode(alloc, digits) else {
        return Ok(String::from_str(alloc, "no bytes")?);
    };
    let place = place.parse::<usize>().unwrap_or(0);
    let mut image = image_of(alloc, case)?;
    for (old, new) in image
        .as_mut_slice()
        .iter_mut()
        .skip(place)
        .zip(bytes.iter())
    {
        *old = *new;
    }
    Ok(match View::open(image.as_slice()) {
        Ok(_) => format!(in alloc; "{change} taken")?,
        Err(fault) => format!(in alloc; "{change} {fault}")?,
    })
}

/// What is noted, by its counts.
fn notes_of(alloc: Global, case: &Case) -> Result<String, Trouble> {
    let (_image, notes) = compiled(alloc, case)?;
    let Notes {
        keysyms,
        keys,
        types,
        levels,
        actions,
    } = notes;
    Ok(format!(in alloc; "{keysyms} {keys} {types} {levels} {actions}")?)
}

/// The text that an image is printed as.
fn printed(alloc: Global, image: &[u8]) -> Result<String, Trouble> {
    let Ok(view) = View::open(image) else {
        return Ok(String::from_str(alloc, "no image")?);
    };
    let mut out = Lent::new(Vec::new(alloc));
    if print(&view, &mut out).is_err() {
        return Err(Trouble::Memory);
    }
    let text = str::from_utf8(out.device.as_slice()).unwrap_or("");
    Ok(String::from_str(alloc, text)?)
}

/// Whether the printed text of tables has no more types and no more bytes than a source may have.
fn can_be_compiled<T: Tables>(alloc: Global, tables: &T) -> Result<bool, Trouble>
    ensures few_types { IfOk result (λ can. IsTrue can
        → length (T.content tables.now).types ≤ MOST_TYPES) }
    ensures short { IfOk result (λ can. IsTrue can
        → length (printed (T.content tables.now)) ≤ MOST_TEXT_BYTES) }
{
    let mut text = Lent::new(Vec::new(alloc));
    if print(tables, &mut text).is_err() {
        return Err(Trouble::Memory);
    }
    Ok(usize::from(tables.counts().types) <= MOST_TYPES && text.device.len() <= MOST_TEXT_BYTES)
}

/// Whether the printed text of the source's image compiles to that image, without files: `the same`, or `another`.
fn again(alloc: Global, case: &Case) -> Result<String, Trouble> {
    let image = image_of(alloc, case)?;
    let Ok(view) = View::open(image.as_slice()) else {
        return Ok(String::from_str(alloc, "no image")?);
    };
    if !can_be_compiled(alloc, &view)? {
        return Ok(String::from_str(alloc, "too long")?);
    }
    let second = compile_printed(alloc, &view, &case.names)?;
    let is_same = second.as_slice() == image.as_slice();
    let found = if is_same { "the same" } else { "another" };
    Ok(String::from_str(alloc, found)?)
}
