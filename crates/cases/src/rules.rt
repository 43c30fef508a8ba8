//! What rules give, as text. A line wants what a model, layouts, variants and options give: these with slashes between them, an
//! arrow, and what is given. Files are called by their numbers in includes.
use crate::case::Case;
use crate::trouble::Trouble;
use kx_rules::{
    Answer, Fault, Names, Passed, Reason, SourceFault, Texts, components_of, source_of,
};
use std::alloc::{AllocError, Global};
use std::fmt::Write;

/// The files of a case by their numbers, counted from 1.
fn texts_of(alloc: Global, case: &Case) -> Result<Texts, Trouble> {
    let mut texts = Texts::new(alloc);
    for place in 0..case.files.len() {
        let number = place.saturating_add(1).to_string(alloc)?;
        let name = Vec::from_slice(alloc, number.as_bytes())?;
        let text = Vec::from_slice(alloc, case.files.bytes_at(place))?;
        texts.insert(name, text)?;
    }
    Ok(texts)
}

fn answer_of(alloc: Global, case: &Case, asked: &str) -> Result<Result<Answer, Fault>, Trouble> {
    let texts = texts_of(alloc, case)?;
    let mut parts = asked.split("/");
    let model = parts.next().unwrap_or("").trim();
    let layouts = parts.next().unwrap_or("");
    let variants = parts.next().unwrap_or("");
    let options = parts.next().unwrap_or("");
    let names = Names::of(
        alloc,
        model.as_bytes(),
        layouts.as_bytes(),
        variants.as_bytes(),
        options.as_bytes(),
    )?;
    let text = case.source.as_slice();
    Ok(components_of(alloc, text, &texts, &names))
}

/// A fault in one word, with its line.
fn fault_shown(alloc: Global, fault: Fault) -> Result<String, AllocError> {
    match fault {
        Fault::Memory => String::from_str(alloc, "Memory"),
        Fault::LongName => String::from_str(alloc, "LongName"),
        Fault::TooMuch => String::from_str(alloc, "TooMuch"),
        Fault::Unexpected(line) => format!(in alloc; "Unexpected {line}"),
        Fault::NoComponents => String::from_str(alloc, "NoComponents"),
    }
}

fn push_bytes(all: &mut String, bytes: &[u8]) -> Result<(), Trouble> {
    let text = str::from_utf8(bytes).unwrap_or("?");
    write!(all, " {text}")?;
    Ok(())
}

/// The components, keycodes first.
fn components_shown(alloc: Global, answer: &Answer) -> Result<String, Trouble> {
    let mut all = String::new(alloc);
    push_bytes(&mut all, answer.components.keycodes.as_slice())?;
    push_bytes(&mut all, answer.components.types.as_slice())?;
    push_bytes(&mut all, answer.components.compat.as_slice())?;
    push_bytes(&mut all, answer.components.symbols.as_slice())?;
    Ok(all)
}

fn push_places(all: &mut String, word: &str, places: &[usize]) -> Result<(), Trouble> {
    for place in places {
        let number = place.saturating_add(1);
        write!(all, " {word} {number}")?;
    }
    Ok(())
}

fn reason_word(reason: Reason) -> &'static str {
    match reason {
        Reason::Mapping => "mapping",
        Reason::Rule => "rule",
        Reason::Value => "value",
    }
}

/// What was passed over: names by their places from 1, options themselves, and lines, `2:` before a line of the second text
/// that was included.
fn passed_shown(alloc: Global, passed: &Passed) -> Result<String, Trouble> {
    let mut all = String::new(alloc);
    if passed.model {
        write!(all, " model")?;
    }
    push_places(&mut all, "layout", passed.layouts.as_slice())?;
    push_places(&mut all, "variant", passed.variants.as_slice())?;
    for option in passed.options.as_slice() {
        write!(all, " option")?;
        push_bytes(&mut all, option.as_slice())?;
    }
    for line in passed.lines.as_slice() {
        let reason = reason_word(line.reason);
        let text = line.text;
        let number = line.line;
        write!(all, " {reason} {text}:{number}")?;
    }
    Ok(all)
}

/// The source that is made of the components, with a slash for each line end.
fn source_shown(alloc: Global, answer: &Answer) -> Result<String, Trouble> {
    match source_of(alloc, &answer.components) {
        Ok(source) => {
            let text = str::from_utf8(source.as_slice()).unwrap_or("?");
            let text = text.replace(alloc, "\n", "/")?;
            Ok(format!(in alloc; " {text}")?)
        }
        Err(SourceFault::Memory) => Err(Trouble::Memory),
        Err(SourceFault::Unwritable) => Ok(String::from_str(alloc, " Unwritable")?),
    }
}

/// What a line wants with what is given in the place of what stands behind its arrow; nothing where no line of rules has this
/// word.
pub fn shown(
    alloc: Global,
    case: &Case,
    word: &str,
    wanted: &str,
) -> Result<Option<String>, Trouble> {
    if !matches!(word, "gives" | "passes" | "makes") {
        return Ok(None);
    }
    let (asked, _) = wanted.split_once("=>").unwrap_or((wanted, ""));
    let found = match answer_of(alloc, case, asked)? {
        Err(fault) => {
            let fault = fault_shown(alloc, fault)?;
            format!(in alloc; " {fault}")?
        }
        Ok(answer) => match word {
            "gives" => components_shown(alloc, &answer)?,
            "passes" => passed_shown(alloc, &answer.passed)?,
            _ => source_shown(alloc, &answer)?,
        },
    };
    Ok(Some(format!(in alloc; "{asked}=>{found}")?))
}
