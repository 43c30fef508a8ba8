//! Whether the keys of interpretations repeat, by the statements of a keymap's compat sections.
ghost use Rattle.std.specs.Prelude.{◌≡◌, [], IfOk, None, Some};
ghost use Rattle.std.proofs.Common.{rules};
ghost use Rattle.kx_compat.specs.Sections.{interpretation_in, is_interpret};
ghost use Rattle.kx_key_fields.specs.AttributeFields.{truth_in};
ghost use Rattle.kx_merge.specs.Last.{last_given};
ghost use Rattle.kx_merge.specs.Offers.{MergesCells};
ghost use Rattle.kx_merge.specs.Plain.{plain_form};
ghost use Rattle.kx_merge.specs.Records.{AreOffered};
ghost use Rattle.kx_merge.specs.Reports.{ReportsOrRunsOut};
ghost use Rattle.kx_merge.specs.Words.{meaning_among, truth_words};
ghost use Rattle.kx_tree.specs.declared.tree.Mode.{Mode as ModeValue};
ghost use Rattle.kx_clients.specs.InterpretationRepeats.{default_truth, field_truth, named_truth, next_truth, said_faults, truth_offers, truth_rules};
ghost use Rattle.kx_clients.specs.Records.{truth_cell};

use ks_core::{NameTable, Notes};
use kx_compat::{
    FileContext, InterpretationMatch, WrittenInterpretation, interpretation_in, read_match,
};
use kx_include::Expansion;
use kx_lex::{Fault, Name};
use kx_merge::{
    Placed, Plain, PlainRecord, lone_word, merge, merged_value, records_for, truth_named,
};
use kx_ordered::Ordered;
use kx_parse::{Expression, Field, Mode, Setting, Statement, Value};
use kx_virtual_mods::ModNames;
use std::alloc::Global;

// ---- Fields

fn expression_truth(expression: &Expression) -> Option<bool>
    ensures { result ≡ meaning_among truth_words expression.now }
{
    match lone_word(expression) {
        Some(word) => truth_named(word.bytes.as_slice()),
        None => None,
    }
}

/// The truth value that a field is set to: without a value it is true, with `!` false.
fn truth_in(setting: &Setting) -> Option<bool>
    ensures { result ≡ truth_in setting.now }
{
    match setting {
        Setting::Off => Some(false),
        Setting::On => Some(true),
        Setting::To(Value::Expression(expression)) => expression_truth(expression),
        Setting::To(Value::Call(_)) => None,
        Setting::To(Value::List(_)) => None,
    }
}

/// What a field says whose word is this one.
fn named_truth(word: &Name, field: &Field) -> Option<bool>
    ensures { result ≡ named_truth word.now field.now }
{
    if field.place.index.is_some() {
        return None;
    }
    if word.bytes.as_slice().eq_ignore_ascii_case(b"repeat") {
        truth_in(&field.setting)
    } else {
        None
    }
}

fn field_truth(field: &Field) -> Option<bool>
    ensures { result ≡ field_truth field.now }
{
    if field.place.member.is_some() {
        return None;
    }
    named_truth(&field.place.word, field)
}

/// What the last of the fields says that says anything, else what there was before them.
fn last_truth(fields: &[Field], before: Option<bool>) -> Option<bool>
    ensures { result ≡ last_given field_truth before fields.now }
{
    fields
        .iter()
        .fold(before, |last, field| field_truth(field).or(last))
}

fn is_interpret(word: &[u8]) -> bool
    ensures { result ≡ is_interpret word.now }
{
    word.eq_ignore_ascii_case(b"interpret")
}

/// What a field of a section gives interpretations as a default.
fn default_truth(field: &Field) -> Option<bool>
    ensures { result ≡ default_truth field.now }
{
    if !is_interpret(field.place.word.bytes.as_slice()) {
        return None;
    }
    match &field.place.member {
        Some(member) => named_truth(member.get(), field),
        None => None,
    }
}

// ---- Statements

/// What statements and defaults say of the repeating of an interpretation's keys.
#[derive(Clone, Copy)]
pub(crate) struct SaidOfMatch {
    said: Option<bool>,
}

/// What the statements of a compat section are read against.
#[derive(Clone, Copy)]
pub(crate) struct Context<'a> {
    pub table: &'a NameTable,
    pub names: &'a ModNames,
}

#[tactic(auto, using(kx_merge::proofs::Offered::nothing_offered))]
fn no_records(alloc: Global) -> Vec<(InterpretationMatch, Plain<SaidOfMatch>)>
    ensures { (mode : ModeValue) → AreOffered mode (plain_form truth_cell) result.items [] }
{
    Vec::new(alloc)
}

/// What an interpretation gives.
fn read_interpretation(
    alloc: Global,
    context: &FileContext,
    default: Option<bool>,
    written: &WrittenInterpretation,
) -> Result<Vec<(InterpretationMatch, Plain<SaidOfMatch>)>, Fault>
    ensures records { (mode : ModeValue)
        → IfOk result (λ records. AreOffered mode (plain_form truth_cell) records.items
        (truth_offers context.now.keysyms.now context.now.modifiers.now.names default mode
        (Some (written.now.symbol.now, written.now.predicate.now, written.now.fields.now)))) }
    ensures faults { ReportsOrRunsOut result
        (said_faults context.now.modifiers.now.names context.now.file
        (Some (written.now.symbol.now, written.now.predicate.now, written.now.fields.now))) }
{
    let mut notes = Notes::new();
    let key = read_match(context, written, &mut notes)?;
    let values = SaidOfMatch {
        said: last_truth(written.fields, default),
    };
    records_for(alloc, key, Plain { values })
}

/// The default after a statement that is no interpretation.
fn default_after(default: Option<bool>, statement: &Statement) -> Option<bool>
    ensures { result ≡ next_truth default statement.now }
{
    match statement {
        Statement::Field(field) => default_truth(field.get()).or(default),
        _ => default,
    }
}

/// What a statement gives, and the default after it.
fn read_statement(
    alloc: Global,
    context: &Context,
    default: Option<bool>,
    placed: &Placed,
) -> Result<(Vec<(InterpretationMatch, Plain<SaidOfMatch>)>, Option<bool>), Fault>
    ensures records { (mode : ModeValue)
        → IfOk result (λ said. AreOffered mode (plain_form truth_cell) said.0.items
        (truth_offers context.now.table.now context.now.names.now.names default mode
        (interpretation_in placed.now.stated.now.statement))) }
    ensures next { IfOk result (λ said.
        said.1 ≡ next_truth default placed.now.stated.now.statement) }
    ensures faults { ReportsOrRunsOut result
        (said_faults context.now.names.now.names placed.now.place.file
        (interpretation_in placed.now.stated.now.statement)) }
{
    let statement = &placed.stated.statement;
    let context = FileContext {
        file: placed.place.file,
        keysyms: context.table,
        modifiers: context.names,
    };
    match interpretation_in(statement) {
        None => Ok((no_records(alloc), default_after(default, statement))),
        Some(written) => {
            let records = read_interpretation(alloc, &context, default, &written)?;
            Ok((records, default_after(default, statement)))
        }
    }
}

impl<'a> PlainRecord<Context<'a>> for SaidOfMatch {
    type Key = InterpretationMatch;

    type Cell = ();

    type Value = bool;

    type Defaults = Option<bool>;

    ghost rules = { λ context. truth_rules context.table.now context.names.now.names };

    ghost cell = { truth_cell };

    fn start(_context: &Context<'a>) -> Option<bool> {
        None
    }

    fn read(
        alloc: Global,
        context: &Context<'a>,
        default: Option<bool>,
        placed: &Placed,
        _notes: &mut Notes,
    ) -> Result<(Vec<(InterpretationMatch, Plain<SaidOfMatch>)>, Option<bool>), Fault> {
        read_statement(alloc, context, default, placed)
    }

    fn none() -> SaidOfMatch
        ensures { (c : Unit {0}) → truth_cell result c ≡ None }
    {
        SaidOfMatch { said: None }
    }

    fn merged_with(self, other: SaidOfMatch, mode: Mode) -> SaidOfMatch
        ensures { MergesCells mode (truth_cell self) (truth_cell other) (truth_cell result) }
    {
        SaidOfMatch {
            said: merged_value(mode, self.said, other.said),
        }
    }

    ghost same = { λ j k e. Prim.search rules };
}

// ---- By what interpretations are told apart by

/// Whether the keys of interpretations repeat.
#[derive(Drop)]
pub(crate) struct InterpretationRepeats {
    by_match: Ordered<InterpretationMatch, Plain<SaidOfMatch>>,
}

impl InterpretationRepeats {
    ghost use Rattle.std.specs.Prelude.{◌≡◌, IfOk};
    ghost use Rattle.kx_compat.specs.declared.interpretation_match.InterpretationMatch.{InterpretationMatch as MatchValue};
    ghost use Rattle.kx_include.specs.Shared.{expanded_body};
    ghost use Rattle.kx_merge.specs.Reports.{ReportsOrRunsOut};
    ghost use Rattle.kx_clients.specs.InterpretationRepeats.{all_match_faults, match_repeats};
    ghost use Rattle.kx_clients.specs.Records.{truth_recorded};

    /// Those of an expanded body.
    ///
    /// # Errors
    /// The faults of keysyms and conditions of interpretations, at their places, as
    /// [`interpretations`](kx_compat::interpretations) has them; `Memory`.
    pub(crate) fn of(
        alloc: Global,
        expansion: &Expansion,
        names: &ModNames,
        table: &NameTable,
    ) -> Result<InterpretationRepeats, Fault>
        ensures repeats { IfOk result (λ said. (m : MatchValue) → truth_recorded said.by_match m
            ≡ match_repeats table.now names.now.names (expanded_body expansion.now) m) }
        ensures faults { ReportsOrRunsOut result
            (all_match_faults table.now names.now.names (expanded_body expansion.now)) }
    {
        let context = Context { table, names };
        let merged = merge::<Context, Plain<SaidOfMatch>>(alloc, &context, expansion)?;
        Ok(InterpretationRepeats {
            by_match: merged.records,
        })
    }

    /// Whether the keys of an interpretation repeat.
    pub(crate) fn repeats(&self, interpretation_match: InterpretationMatch) -> bool
        ensures { result ≡ truth_recorded self.now.by_match interpretation_match }
    {
        match self.by_match.get(&interpretation_match) {
            Some(key) => key.values.said.unwrap_or(false),
            None => false,
        }
    }
}
