//! What the statements of a keymap's symbols say of the repeating of keys.
ghost use Rattle.std.specs.Prelude.{◌≡◌, [], IfErr, IfOk, None, Some};
ghost use Rattle.std.specs.Option.{option_map};
ghost use Rattle.std.proofs.Common.{eqb-true};
ghost use Rattle.kx_lex.specs.declared.fault.Fault.TheVariants.{Memory};
ghost use Rattle.kx_merge.specs.Last.{last_given};
ghost use Rattle.kx_merge.specs.Offers.{MergesCells};
ghost use Rattle.kx_merge.specs.Plain.{plain_form};
ghost use Rattle.kx_merge.specs.Records.{AreOffered};
ghost use Rattle.kx_merge.specs.Words.{among, meaning_among};
ghost use Rattle.kx_tree.specs.declared.tree.Mode.{Mode as ModeValue};
ghost use Rattle.kx_symbols.specs.KeyFaults.{key_in};
ghost use Rattle.kx_clients.specs.KeyRepeats.{default_repeat, field_repeat, is_repeat_word, key_offers, named_repeat, next_default, own_repeat, repeat_in, repeat_rules, repeat_words};
ghost use Rattle.kx_clients.specs.Records.{repeat_cell};

use crate::key_repeat::KeyRepeat;
use ks_core::Notes;
use kx_codes::Codes;
use kx_include::Expansion;
use kx_key_fields::is_key_word;
use kx_lex::{Fault, KeyName, Name, SmallRow};
use kx_merge::{Placed, Plain, PlainRecord, lone_word, merge, merged_value, records_for};
use kx_ordered::Ordered;
use kx_parse::{Expression, Field, KeyField, Mode, Setting, Statement, Value};
use std::alloc::Global;

// ---- Fields

fn is_repeat_word(word: &[u8]) -> bool
    ensures { result ≡ is_repeat_word word.now }
{
    word.eq_ignore_ascii_case(b"repeat")
        || word.eq_ignore_ascii_case(b"repeats")
        || word.eq_ignore_ascii_case(b"repeating")
}

fn repeat_named(word: &[u8]) -> Option<KeyRepeat>
    ensures { result ≡ among repeat_words word.now }
{
    if word.eq_ignore_ascii_case(b"true") {
        Some(KeyRepeat::Yes)
    } else if word.eq_ignore_ascii_case(b"yes") {
        Some(KeyRepeat::Yes)
    } else if word.eq_ignore_ascii_case(b"on") {
        Some(KeyRepeat::Yes)
    } else if word.eq_ignore_ascii_case(b"false") {
        Some(KeyRepeat::No)
    } else if word.eq_ignore_ascii_case(b"no") {
        Some(KeyRepeat::No)
    } else if word.eq_ignore_ascii_case(b"off") {
        Some(KeyRepeat::No)
    } else if word.eq_ignore_ascii_case(b"default") {
        Some(KeyRepeat::Default)
    } else {
        None
    }
}

fn expression_repeat(expression: &Expression) -> Option<KeyRepeat>
    ensures { result ≡ meaning_among repeat_words expression.now }
{
    match lone_word(expression) {
        Some(word) => repeat_named(word.bytes.as_slice()),
        None => None,
    }
}

/// What a field is set to, where that says of repeating.
fn repeat_in(setting: &Setting) -> Option<KeyRepeat>
    ensures { result ≡ repeat_in setting.now }
{
    match setting {
        Setting::To(Value::Expression(expression)) => expression_repeat(expression),
        Setting::To(Value::Call(_)) => None,
        Setting::To(Value::List(_)) => None,
        Setting::Off | Setting::On => None,
    }
}

/// What a field says whose word is this one.
fn named_repeat(word: &Name, field: &Field) -> Option<KeyRepeat>
    ensures { result ≡ named_repeat word.now field.now }
{
    if is_repeat_word(word.bytes.as_slice()) {
        repeat_in(&field.setting)
    } else {
        None
    }
}

fn own_repeat(field: &Field) -> Option<KeyRepeat>
    ensures { result ≡ own_repeat field.now }
{
    if field.place.member.is_some() {
        return None;
    }
    named_repeat(&field.place.word, field)
}

fn field_repeat(field: &KeyField) -> Option<KeyRepeat>
    ensures { result ≡ field_repeat field.now }
{
    match field {
        KeyField::Field(field) => own_repeat(field.get()),
        KeyField::List(_) => None,
    }
}

/// What the last of the fields says that says anything, else what there was before them.
fn last_repeat(fields: &[KeyField], before: Option<KeyRepeat>) -> Option<KeyRepeat>
    ensures { result ≡ last_given field_repeat before fields.now }
{
    fields
        .iter()
        .fold(before, |last, field| field_repeat(field).or(last))
}

/// What a field of a section gives keys as a default.
fn default_repeat(field: &Field) -> Option<KeyRepeat>
    ensures { result ≡ default_repeat field.now }
{
    if !is_key_word(field.place.word.bytes.as_slice()) {
        return None;
    }
    match &field.place.member {
        Some(member) => named_repeat(member.get(), field),
        None => None,
    }
}

// ---- Statements

/// What statements and defaults say of a key's repeating.
#[derive(Clone, Copy)]
pub(crate) struct SaidOfKey {
    said: Option<KeyRepeat>,
}

/// The name and the fields of a key statement.
fn key_in(statement: &Statement) -> Option<(&KeyName, &SmallRow<KeyField>)>
    ensures { option_map (λ k. (k.0.now, k.1.now)) result ≡ key_in statement.now }
{
    match statement {
        Statement::Key { name, fields } => Some((name, fields)),
        _ => None,
    }
}

#[tactic(auto, using(kx_merge::proofs::Offered::nothing_offered))]
fn no_records(alloc: Global) -> Vec<(u16, Plain<SaidOfKey>)>
    ensures { (mode : ModeValue) → AreOffered mode (plain_form repeat_cell) result.items [] }
{
    Vec::new(alloc)
}

/// What a key statement gives its key.
fn read_key(
    alloc: Global,
    codes: &Codes,
    default: Option<KeyRepeat>,
    name: &KeyName,
    fields: &SmallRow<KeyField>,
) -> Result<Vec<(u16, Plain<SaidOfKey>)>, Fault>
    ensures records { (mode : ModeValue)
        → IfOk result (λ records. AreOffered mode (plain_form repeat_cell) records.items
        (key_offers codes.now default mode (Some (name.now, fields.now)))) }
    ensures err { IfErr result (λ e. e ≡ Memory) }
{
    let values = SaidOfKey {
        said: last_repeat(fields.as_slice(), default),
    };
    records_for(alloc, codes.code_of(name.as_slice()), Plain { values })
}

/// The default after a statement that is about no key.
fn default_after(default: Option<KeyRepeat>, statement: &Statement) -> Option<KeyRepeat>
    ensures { result ≡ next_default default statement.now }
{
    match statement {
        Statement::Field(field) => default_repeat(field.get()).or(default),
        _ => default,
    }
}

/// What a statement gives, and the default after it.
fn read_statement(
    alloc: Global,
    codes: &Codes,
    default: Option<KeyRepeat>,
    statement: &Statement,
) -> Result<(Vec<(u16, Plain<SaidOfKey>)>, Option<KeyRepeat>), Fault>
    ensures records { (mode : ModeValue)
        → IfOk result (λ said. AreOffered mode (plain_form repeat_cell) said.0.items
        (key_offers codes.now default mode (key_in statement.now))) }
    ensures next { IfOk result (λ said. said.1 ≡ next_default default statement.now) }
    ensures err { IfErr result (λ e. e ≡ Memory) }
{
    match key_in(statement) {
        None => Ok((no_records(alloc), default_after(default, statement))),
        Some((name, fields)) => {
            let records = read_key(alloc, codes, default, name, fields)?;
            Ok((records, default_after(default, statement)))
        }
    }
}

impl<'l> PlainRecord<Codes<'l>> for SaidOfKey {
    type Key = u16;

    type Cell = ();

    type Value = KeyRepeat;

    type Defaults = Option<KeyRepeat>;

    ghost rules = { λ codes. repeat_rules codes };

    ghost cell = { repeat_cell };

    fn start(_codes: &Codes<'l>) -> Option<KeyRepeat> {
        None
    }

    fn read(
        alloc: Global,
        codes: &Codes<'l>,
        default: Option<KeyRepeat>,
        placed: &Placed,
        _notes: &mut Notes,
    ) -> Result<(Vec<(u16, Plain<SaidOfKey>)>, Option<KeyRepeat>), Fault> {
        read_statement(alloc, codes, default, &placed.stated.statement)
    }

    fn none() -> SaidOfKey
        ensures { (c : Unit {0}) → repeat_cell result c ≡ None }
    {
        SaidOfKey { said: None }
    }

    fn merged_with(self, other: SaidOfKey, mode: Mode) -> SaidOfKey
        ensures { MergesCells mode (repeat_cell self) (repeat_cell other) (repeat_cell result) }
    {
        SaidOfKey {
            said: merged_value(mode, self.said, other.said),
        }
    }

    ghost same = { λ j k e. eqb-true j k e };
}

// ---- By code

/// What the statements of a keymap's symbols say of the repeating of keys, by their codes.
#[derive(Drop)]
pub(crate) struct KeyRepeats {
    by_code: Ordered<u16, Plain<SaidOfKey>>,
}

impl KeyRepeats {
    ghost use Rattle.std.specs.Prelude.{◌≡◌, ℕ, IfErr, IfOk};
    ghost use Rattle.kx_include.specs.Shared.{expanded_body};
    ghost use Rattle.kx_lex.specs.declared.fault.Fault.TheVariants.{Memory};
    ghost use Rattle.kx_clients.specs.KeyRepeats.{said_repeat};
    ghost use Rattle.kx_clients.specs.Records.{repeat_recorded};

    /// Those of an expanded body, where the keys have these codes.
    ///
    /// # Errors
    /// `Memory`.
    pub(crate) fn of(
        alloc: Global,
        expansion: &Expansion,
        codes: &Codes,
    ) -> Result<KeyRepeats, Fault>
        ensures said { IfOk result (λ said. (code : ℕ) → repeat_recorded said.by_code code
            ≡ said_repeat codes.now (expanded_body expansion.now) code) }
        ensures err { IfErr result (λ e. e ≡ Memory) }
    {
        let merged = merge::<Codes, Plain<SaidOfKey>>(alloc, codes, expansion)?;
        Ok(KeyRepeats {
            by_code: merged.records,
        })
    }

    /// What is said of the key of a code.
    pub(crate) fn key(&self, code: u16) -> Option<KeyRepeat>
        ensures { result ≡ repeat_recorded self.now.by_code code }
    {
        match self.by_code.get(&code) {
            Some(key) => key.values.said,
            None => None,
        }
    }
}
