//! What a modifier map statement names.
ghost use Rattle.std.specs.Prelude.{◌≡◌, Contains, IfErr, IfOk, OnOk, Some};
ghost use Rattle.std.specs.List.{flat_map};
ghost use Rattle.std.specs.Option.{option_map};
ghost use Rattle.kx_merge.specs.Faults.{name_faults};
ghost use Rattle.kx_codes.specs.Codes.{code_of};
ghost use Rattle.kx_lex.specs.declared.fault.Fault.TheVariants.{Memory};
ghost use Rattle.kx_mods.specs.Mods.{mask};
ghost use Rattle.kx_modmaps.specs.Entries.{entry_faults, entry_target, is_all, map_in, other_faults, targets_of, with_target, word_faults, word_mask};
ghost use Rattle.kx_modmaps.specs.declared.target.Target.TheVariants.{Key};
ghost use Rattle.kx_merge.specs.Reports.{Reports, ReportsOrRunsOut};

use crate::target::Target;
use ks_core::{NameTable, Note, Notes};
use kx_basics::MOST_NAME_BYTES;
use kx_codes::Codes;
use kx_lex::{At, Fault, KeyName, Name};
use kx_mods::Mods;
use kx_ordered::OrderedSet;
use kx_parse::{Entry, Statement};
use kx_symbols::symbol_keysym;
use kx_virtual_mods::{ModNames, real_mask};
use std::alloc::Global;

/// What modifier maps are read against.
#[derive(Clone, Copy)]
pub struct Context<'a, 'l> {
    pub codes: &'a Codes<'l>,
    pub keysyms: &'a NameTable,
    pub modifiers: &'a ModNames,
}

/// What a modifier map statement names.
#[derive(Clone, Copy)]
pub(crate) struct ModifierMap<'s> {
    pub(crate) word: &'s Name,
    pub(crate) entries: &'s [Entry],
}

pub(crate) fn map_in<'s>(statement: &'s Statement) -> Option<ModifierMap<'s>>
    ensures { option_map (λ m. (m.word.now, m.entries.now)) result ≡ map_in statement.now }
{
    match statement {
        Statement::ModifierMap { modifier, entries } => Some(ModifierMap {
            word: modifier,
            entries: entries.as_slice(),
        }),
        _ => None,
    }
}

fn is_all(word: &[u8]) -> bool
    ensures { result ≡ is_all word.now }
{
    word.eq_ignore_ascii_case(b"all")
}

/// The one real modifier that a word names, or none.
fn word_mods(word: &[u8]) -> Option<Mods>
    ensures { option_map mask result ≡ word_mask word.now }
{
    if is_all(word) { None } else { real_mask(word) }
}

/// The fault of a word that names no real modifier.
fn other_fault(modifiers: &ModNames, file: u32, word: &Name) -> Fault
    ensures { Contains (other_faults file modifiers.now.names word.now) result }
{
    let at = At {
        file,
        span: word.span,
    };
    let bytes = word.bytes.as_slice();
    if is_all(bytes) || modifiers.number_of(bytes).is_some() {
        Fault::BadValue(at)
    } else {
        Fault::UnknownModifier(at)
    }
}

/// The one real modifier that the word of a modifier map names, or none.
pub(crate) fn read_word(modifiers: &ModNames, file: u32, word: &Name) -> Result<Mods, Fault>
    ensures value { IfOk result (λ mods. Some (mask mods) ≡ word_mask word.now.bytes) }
    ensures faults { Reports result (word_faults file modifiers.now.names word.now) }
{
    match word_mods(word.bytes.as_slice()) {
        Some(mods) => Ok(mods),
        None => Err(other_fault(modifiers, file, word)),
    }
}

/// The key of a name, where it has a keycode; else that is noted.
fn key_target(
    codes: &Codes,
    whole: At,
    name: &KeyName,
    notes: &mut Notes,
) -> Result<Option<Target>, Fault>
    ensures value { IfOk result (λ target.
        target ≡ option_map (λ code. Key code) (code_of codes.now name.now.bytes)) }
    ensures faults { ReportsOrRunsOut result (name_faults whole.file whole.span name.now) }
{
    if name.as_slice().len() > MOST_NAME_BYTES {
        return Err(Fault::TooMany(whole));
    }
    match codes.code_of(name.as_slice()) {
        Some(code) => Ok(Some(Target::Key(code))),
        None => {
            notes.count(Note::UnknownKey);
            Ok(None)
        }
    }
}

/// What an entry names.
fn read_entry(
    context: &Context,
    whole: At,
    entry: &Entry,
    notes: &mut Notes,
) -> Result<Option<Target>, Fault>
    ensures value { IfOk result (λ target. target
        ≡ entry_target context.now.codes.now context.now.keysyms.now entry.now) }
    ensures faults { ReportsOrRunsOut result (entry_faults whole.file whole.span entry.now) }
{
    match entry {
        Entry::KeyName(name) => key_target(context.codes, whole, name, notes),
        Entry::Symbol(symbol) => match symbol_keysym(context.keysyms, whole.file, symbol, notes)? {
            None => Ok(None),
            Some(keysym) => Ok(Some(Target::Keysym(keysym))),
        },
    }
}

/// Adds a target after others, where it isn't among them.
fn add_target(targets: &mut OrderedSet<Target>, target: Option<Target>) -> Result<(), Fault>
    ensures added { OnOk result (targets.new ≡ with_target targets.old target) }
    ensures err { IfErr result (λ e. e ≡ Memory) }
{
    if let Some(target) = target {
        targets.add(target)?;
    }
    Ok(())
}

/// What entries name, each once.
pub(crate) fn read_targets(
    alloc: Global,
    context: &Context,
    whole: At,
    entries: &[Entry],
    notes: &mut Notes,
) -> Result<OrderedSet<Target>, Fault>
    ensures value { IfOk result (λ targets. targets
        ≡ targets_of context.now.codes.now context.now.keysyms.now entries.now) }
    ensures faults { ReportsOrRunsOut result
        (flat_map (entry_faults whole.file whole.span) entries.now) }
{
    let mut targets = OrderedSet::new(alloc);
    'entries: for entry in entries {
        let target = read_entry(context, whole, entry, notes)?;
        add_target(&mut targets, target)?;
    }
    Ok(targets)
}
