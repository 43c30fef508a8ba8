//! What a person reads of a fault.
use crate::fields::write_unknown_field;
use crate::includes::{
    Included, include_at, write_bad_include, write_file_missing, write_map_missing, write_too_deep,
};
use crate::lexemes::{
    write_bad_byte, write_number, write_open_name, write_open_text, write_too_long,
};
use crate::limits::limit_passed;
use crate::modifiers::write_unknown_modifier;
use crate::plain::{place_of, plain_message};
use crate::ranges::{write_code, write_group, write_level};
use crate::syntax::write_syntax;
use crate::values::write_bad_value;
use kx_include::include_parts;
use kx_lex::{At, Fault};
use kx_parse::{Item, Kind, Statement};
use kx_reach::{Reached, Texts, Trees, bytes_in, chain_to, item_at, reached_maps};
use std::alloc::{AllocError, Global};

/// What a person reads of a fault: what is wrong, on one line, and the texts of the includes that led to its place, the
/// innermost first.
#[derive(Drop)]
pub struct Explanation {
    pub message: String,
    pub chain: Vec<At>,
}

/// What a fault is explained by.
#[derive(Clone, Copy)]
struct Context<'a> {
    alloc: Global,
    /// The bytes of the text in which the fault stands.
    text: &'a [u8],
    at: At,
    trees: &'a Trees,
    reached: &'a [Reached],
}

/// The statement in which the fault stands, and the kind of its section.
fn statement_of<'a>(context: &Context<'a>) -> Option<(Kind, &'a Statement)> {
    let at = context.at;
    match item_at(context.trees.sections_in(at.file), at.span)? {
        (kind, Item::Statement(stated)) => Some((kind, &stated.statement)),
        (_, Item::Include { .. }) => None,
    }
}

/// Says what is wrong with bytes and tokens; nothing of another fault.
fn write_of_text(out: &mut String, context: &Context, fault: Fault) -> Result<(), AllocError> {
    let text = context.text;
    let at = context.at;
    match fault {
        Fault::TooLong(_) => write_too_long(out, at.span),
        Fault::BadByte(_) => write_bad_byte(out, text, at.span),
        Fault::OpenString(_) => write_open_text(out, text, at.span),
        Fault::OpenKeyName(_) => write_open_name(out, text, at.span),
        Fault::Syntax(_) => write_syntax(out, context.alloc, text, at),
        Fault::NumberTooBig(_) => write_number(out, text, at.span),
        _ => Ok(()),
    }
}

/// Says what is wrong with an include; nothing of another fault.
fn write_of_include(out: &mut String, context: &Context, fault: Fault) -> Result<(), AllocError> {
    let Some((kind, bytes)) = include_at(context.trees, context.at) else {
        return Ok(());
    };
    let Some(parts) = include_parts(context.alloc, bytes)? else {
        return write_bad_include(out, context.alloc, bytes);
    };
    let included = Included {
        kind,
        parts: parts.as_slice(),
    };
    let alloc = context.alloc;
    let trees = context.trees;
    match fault {
        Fault::FileMissing(_) => write_file_missing(out, alloc, trees, included),
        Fault::MapMissing(_) => write_map_missing(out, alloc, trees, included),
        Fault::DepthOver16(at) => write_too_deep(out, alloc, trees, included, at),
        _ => Ok(()),
    }
}

/// Says what is wrong in a statement; nothing of another fault.
fn write_of_statement(out: &mut String, context: &Context, fault: Fault) -> Result<(), AllocError> {
    let text = context.text;
    let span = context.at.span;
    let Some((kind, statement)) = statement_of(context) else {
        return Ok(());
    };
    match fault {
        Fault::UnknownModifier(_) => {
            let word = bytes_in(text, span);
            write_unknown_modifier(out, word, context.trees, context.reached)
        }
        Fault::UnknownField(_) => {
            write_unknown_field(out, kind, statement, bytes_in(text, span), span)
        }
        Fault::BadValue(_) => write_bad_value(out, text, statement, span),
        Fault::GroupRange(_) => write_group(out, text, statement, span),
        Fault::LevelRange(_) => write_level(out, text, span),
        Fault::CodeRange(_) => write_code(out, text, span),
        _ => Ok(()),
    }
}

/// Says which limit is passed; nothing of another fault.
fn write_of_limit(out: &mut String, context: &Context, fault: Fault) -> Result<(), AllocError> {
    if let Fault::TooMany(at) = fault
        && let Some(limit) = limit_passed(context.trees.sections_in(at.file), at.span)
    {
        return out.push_str(limit);
    }
    Ok(())
}

/// Says what is wrong in a text.
fn write_message(out: &mut String, context: &Context, fault: Fault) -> Result<(), AllocError> {
    write_of_text(out, context, fault)?;
    write_of_include(out, context, fault)?;
    write_of_statement(out, context, fault)?;
    write_of_limit(out, context, fault)
}

/// What a person reads of a fault that stands at a place of a text.
fn explain_at(
    alloc: Global,
    fault: Fault,
    texts: Texts,
    text: &[u8],
    at: At,
) -> Result<Explanation, AllocError> {
    let trees = Trees::read(alloc, texts)?;
    let reached = reached_maps(alloc, &trees)?;
    let chain = chain_to(alloc, &trees, reached.as_slice(), at)?;
    let mut message = String::new(alloc);
    let context = Context {
        alloc,
        text,
        at,
        trees: &trees,
        reached: reached.as_slice(),
    };
    write_message(&mut message, &context, fault)?;
    if message.as_str().is_empty() {
        message.push_str(plain_message(fault))?;
    }
    Ok(Explanation { message, chain })
}

/// What a person reads of a fault of a keymap's texts.
///
/// # Errors
/// Where a growth is refused.
pub fn explain(alloc: Global, fault: Fault, texts: Texts) -> Result<Explanation, AllocError> {
    if let Some(at) = place_of(fault)
        && let Some(text) = texts.text_of(at.file)
    {
        return explain_at(alloc, fault, texts, text.bytes, at);
    }
    Ok(Explanation {
        message: String::from_str(alloc, plain_message(fault))?,
        chain: Vec::new(alloc),
    })
}
