//! The source that rules give for names.
use crate::asked::Asked;
use crate::fault::{NamesFault, RulesFault};
use kx_explain::write_shown;
use kx_rules::{Answer, Fault, Names, SourceFault, Texts, components_of, source_of};
use std::alloc::{AllocError, Global};
use std::fmt;
use std::fmt::{Formatter, Write};

/// So many bytes of a line are shown.
const MOST_SHOWN: usize = 160;

/// The rules of a path below a folder.
#[derive(Clone, Copy)]
pub(crate) struct Rules<'a> {
    pub(crate) path: &'a str,
    pub(crate) bytes: &'a [u8],
}

/// What is wrong with rules.
#[derive(Clone, Copy)]
struct Message<'a> {
    rules: Rules<'a>,
    fault: RulesFault,
}

/// The line of a number, counted from 1.
fn line_at(text: &[u8], number: usize) -> &[u8] {
    text.split(|byte| *byte == b'\n')
        .nth(number.saturating_sub(1))
        .unwrap_or(&[])
}

/// Writes a line that is none of the format's.
fn write_line<W: Write>(f: &mut Formatter<W>, rules: Rules, number: usize) -> fmt::Result {
    let path = rules.path;
    writeln!(
        f,
        "{path}:{number}: error: this is no group, include, mapping or rule that ends with its line"
    )?;
    write_shown(f, line_at(rules.bytes, number), MOST_SHOWN)?;
    f.write_str("\n")
}

impl fmt::Display for Message<'_> {
    fn fmt<W: Write>(&self, f: &mut Formatter<W>) -> fmt::Result {
        let path = self.rules.path;
        match self.fault {
            RulesFault::Unexpected(number) => write_line(f, self.rules, number),
            RulesFault::LongName => {
                f.write_str("error: a model, a layout or a variant has more than 255 bytes\n")
            }
            RulesFault::TooMuch => writeln!(
                f,
                "{path}: error: the rules have more than 4,194,304 bytes with what they include"
            ),
            RulesFault::NoComponents => writeln!(
                f,
                "{path}: error: the rules give no keycodes, types, compat or symbols for these names"
            ),
            RulesFault::Unwritable => f.write_str(
                "error: a name has a quote, a backslash or a control character\n",
            ),
        }
    }
}

/// A fault with what is said of it.
fn explained(alloc: Global, rules: Rules, fault: RulesFault) -> NamesFault {
    let message = Message { rules, fault };
    match format!(in alloc; "{message}") {
        Ok(message) => NamesFault::Rules(fault, message),
        Err(_) => NamesFault::Memory,
    }
}

fn refused(alloc: Global, rules: Rules, fault: Fault) -> NamesFault {
    match fault {
        Fault::Memory => NamesFault::Memory,
        Fault::LongName => explained(alloc, rules, RulesFault::LongName),
        Fault::TooMuch => explained(alloc, rules, RulesFault::TooMuch),
        Fault::Unexpected(line) => explained(alloc, rules, RulesFault::Unexpected(line)),
        Fault::NoComponents => explained(alloc, rules, RulesFault::NoComponents),
    }
}

fn names_of<'a>(alloc: Global, asked: &Asked<'a>) -> Result<Names<'a>, AllocError> {
    Names::of(
        alloc,
        asked.model.as_bytes(),
        asked.layouts.as_bytes(),
        asked.variants.as_bytes(),
        asked.options.as_bytes(),
    )
}

/// What rules give for names.
pub(crate) fn answer_for(
    alloc: Global,
    rules: Rules,
    texts: &Texts,
    asked: &Asked,
) -> Result<Answer, NamesFault> {
    let names = names_of(alloc, asked)?;
    match components_of(alloc, rules.bytes, texts, &names) {
        Ok(answer) => Ok(answer),
        Err(fault) => Err(refused(alloc, rules, fault)),
    }
}

/// The source of what rules give.
pub(crate) fn source_for(
    alloc: Global,
    rules: Rules,
    answer: &Answer,
) -> Result<Vec<u8>, NamesFault> {
    match source_of(alloc, &answer.components) {
        Ok(source) => Ok(source),
        Err(SourceFault::Memory) => Err(NamesFault::Memory),
        Err(SourceFault::Unwritable) => Err(explained(alloc, rules, RulesFault::Unwritable)),
    }
}
