//! The keys of a keymap's symbols.
ghost use Rattle.std.specs.Prelude.{◌≡◌, ◌++◌, ◌∷◌, [], ℕ, IfErr, IfOk, None, OnOk, Some, nat_eq, unwrap_or};
ghost use Rattle.std.specs.Option.{option_map};
ghost use Rattle.std.proofs.Common.{◌∙◌, ap, eqb-true, sym};
ghost use Rattle.kx_include.specs.Shared.{expanded_body};
ghost use Rattle.kx_lex.specs.declared.fault.Fault.TheVariants.{Memory};
ghost use Rattle.kx_tree.specs.declared.tree.Mode.{Mode as ModeValue};
ghost use Rattle.kx_merge.specs.Bodies.{faults_of};
ghost use Rattle.kx_merge.specs.Moved.{moved_key, moved_value, moved_width};
ghost use Rattle.kx_merge.specs.Offers.{Offer, merged_value, merged_width};
ghost use Rattle.kx_merge.specs.Records.{AreOffered, IsOffered};
ghost use Rattle.kx_symbols.specs.KeyFaults.{content_faults, key_in, stated_faults};
ghost use Rattle.kx_merge.specs.Faults.{name_faults};
ghost use Rattle.kx_codes.specs.Codes.{code_of};
ghost use Rattle.kx_symbols.specs.Keys.{KeysShow, cell_in, field_in, key_at, key_form, key_moves, key_offer, key_rules, known_under, offered, said_next, said_offers, width_in_key};
ghost use Rattle.kx_merge.specs.Reports.{ReportsOrRunsOut};

use crate::cells::{Cell, CellValue};
use crate::defaults::SectionDefaults;
use crate::fields::read_lists;
use crate::known::Known;
use crate::record::KeyRecord;
use crate::settings::read_besides;
use ks_core::{NameTable, Note, Notes};
use kx_basics::MOST_NAME_BYTES;
use kx_codes::Codes;
use kx_include::Expansion;
use kx_lex::{At, Fault};
use kx_merge::{Fields, Placed, merge};
use kx_ordered::Ordered;
use kx_parse::{KeyField, KeyName, Mode, SmallRow, Stated, Statement};
use kx_virtual_mods::ModNames;
use std::alloc::Global;
use std::marker::Model;

/// What key statements are read against.
#[derive(Clone, Copy)]
pub struct Context<'a, 'l> {
    pub codes: &'a Codes<'l>,
    pub keysyms: &'a NameTable,
    pub modifiers: &'a ModNames,
}

/// The name and the fields of a key statement.
fn key_in(statement: &Statement) -> Option<(&KeyName, &SmallRow<KeyField>)>
    ensures { option_map (λ k. (k.0.now, k.1.now)) result ≡ key_in statement.now }
{
    match statement {
        Statement::Key { name, fields } => Some((name, fields)),
        _ => None,
    }
}

#[tactic(auto, using(kx_merge::proofs::Offered::nothing_offered))]
fn no_records(alloc: Global) -> Vec<(u16, KeyRecord)>
    ensures { (mode : ModeValue) → AreOffered mode key_form result.items [] }
{
    Vec::new(alloc)
}

fn one_record(alloc: Global, code: u16, key: KeyRecord) -> Result<Vec<(u16, KeyRecord)>, Fault>
    ensures records { (mode : ModeValue) (o : Offer ℕ Cell CellValue)
        → IsOffered mode key_form code key o
        → IfOk result (λ records. AreOffered mode key_form records.items (o ∷ [])) }
    ensures err { IfErr result (λ e. e ≡ Memory) }
{
    let mut records = Vec::with_capacity(alloc, 1)?;
    records.push((code, key))?;
    Ok(records)
}

/// What the fields of a key statement give.
fn read_content(
    alloc: Global,
    known: &Known,
    whole: At,
    fields: &[KeyField],
    notes: &mut Notes,
) -> Result<KeyRecord, Fault>
    ensures offered { (mode : ModeValue) (code : ℕ)
        → IfOk result (λ key. IsOffered mode key_form code key
        (key_offer known.now fields.now mode code)) }
    ensures faults { ReportsOrRunsOut result
        (content_faults whole.file known.now whole.span fields.now) }
{
    let lists = read_lists(alloc, known, whole, fields, notes)?;
    let settings = read_besides(alloc, known, whole.file, fields)?;
    Ok(KeyRecord::of(lists, settings))
}

/// What a key statement gives its key.
fn read_key(
    alloc: Global,
    codes: &Codes,
    known: &Known,
    whole: At,
    name: &KeyName,
    fields: &[KeyField],
    notes: &mut Notes,
) -> Result<Vec<(u16, KeyRecord)>, Fault>
    ensures records { (mode : ModeValue) → IfOk result (λ records. AreOffered mode key_form
        records.items (offered known.now fields.now mode (code_of codes.now name.now.bytes))) }
    ensures faults { ReportsOrRunsOut result
        (name_faults whole.file whole.span name.now
        ++ content_faults whole.file known.now whole.span fields.now) }
{
    if name.as_slice().len() > MOST_NAME_BYTES {
        return Err(Fault::TooMany(whole));
    }
    let key = read_content(alloc, known, whole, fields, notes)?;
    match codes.code_of(name.as_slice()) {
        Some(code) => one_record(alloc, code, key),
        None => {
            notes.count(Note::UnknownKey);
            Ok(no_records(alloc))
        }
    }
}

/// What a statement gives, and the defaults after it.
fn read_statement(
    alloc: Global,
    context: &Context,
    defaults: SectionDefaults,
    file: u32,
    stated: &Stated,
    notes: &mut Notes,
) -> Result<(Vec<(u16, KeyRecord)>, SectionDefaults), Fault>
    ensures records { (mode : ModeValue) → IfOk result (λ said. AreOffered mode key_form
        said.0.items (said_offers context.now.codes.now (known_under context.now.codes.now
        context.now.keysyms.now context.now.modifiers.now.names defaults) mode
        (key_in stated.now.statement))) }
    ensures next { IfOk result (λ said.
        said.1 ≡ said_next context.now.modifiers.now.names defaults
        (field_in stated.now.statement)) }
    ensures faults { ReportsOrRunsOut result
        (stated_faults file
        (known_under context.now.codes.now context.now.keysyms.now
        context.now.modifiers.now.names defaults)
        stated.now) }
{
    match key_in(&stated.statement) {
        None => {
            let next = defaults.after(alloc, context.modifiers, file, stated)?;
            Ok((no_records(alloc), next))
        }
        Some((name, fields)) => {
            let known = Known {
                names: context.keysyms,
                modifiers: context.modifiers,
                defaults: &defaults,
            };
            let whole = At {
                file,
                span: stated.span,
            };
            let fields = fields.as_slice();
            let records = read_key(alloc, context.codes, &known, whole, name, fields, notes)?;
            Ok((records, defaults))
        }
    }
}

impl<'a, 'l> Fields<Context<'a, 'l>> for KeyRecord {
    type Key = u16;

    type Cell = Cell;

    type Value = CellValue;

    type Defaults = SectionDefaults;

    ghost rules = { λ context. key_rules context.codes.now context.keysyms.now
        context.modifiers.now.names };

    ghost moves = { key_moves };

    ghost form = { key_form };

    fn start(_alloc: Global, _context: &Context<'a, 'l>) -> SectionDefaults {
        SectionDefaults::none()
    }

    fn read(
        alloc: Global,
        context: &Context<'a, 'l>,
        defaults: SectionDefaults,
        placed: &Placed,
        notes: &mut Notes,
    ) -> Result<(Vec<(u16, KeyRecord)>, SectionDefaults), Fault> {
        read_statement(
            alloc,
            context,
            defaults,
            placed.place.file,
            placed.stated,
            notes,
        )
    }

    fn merge(&mut self, _alloc: Global, other: KeyRecord, mode: Mode) -> Result<(), Fault>
        ensures cells { OnOk result ((c : Cell)
            → cell_in self.new c ≡ merged_value mode (cell_in self.old c) (cell_in other c)) }
        ensures widths { OnOk result ((g : ℕ)
            → width_in_key self.new g ≡ merged_width mode (width_in_key self.old g)
            (width_in_key other g)) }
        ensures err { IfErr result (λ e. e ≡ Memory) }
    {
        self.merge_content(other, mode)?;
        Ok(())
    }

    fn none(alloc: Global) -> KeyRecord
        ensures cells { (c : Cell) → cell_in result c ≡ None }
        ensures widths { (g : ℕ) → width_in_key result g ≡ 0 }
    {
        KeyRecord::none(alloc)
    }

    fn merge_moved(
        &mut self,
        alloc: Global,
        other: &KeyRecord,
        group: Option<u8>,
        mode: Mode,
    ) -> Result<(), Fault>
        ensures cells { OnOk result ((c : Cell)
            → cell_in self.new c ≡ merged_value mode (cell_in self.old c)
            (moved_value key_moves group (cell_in other.now) c)) }
        ensures widths { OnOk result ((g : ℕ)
            → width_in_key self.new g ≡ merged_width mode (width_in_key self.old g)
            (moved_width key_moves group (width_in_key other.now) g)) }
        ensures err { IfErr result (λ e. e ≡ Memory) }
    {
        self.merge_content_moved(alloc, other, group, mode)?;
        Ok(())
    }

    fn key_in(key: &u16, _group: Option<u8>) -> Option<u16>
        ensures { result ≡ moved_key key_moves _group key.now }
    {
        Some(*key)
    }

    ghost apart = { λ n j k to one two. ap (λ key. unwrap_or key 0) (one ∙ sym two) };

    ghost same = { λ j k e. eqb-true j k e };
}

/// The keys that statements give something, by keycode.
pub struct Keys {
    by_code: Ordered<u16, KeyRecord>,
}

impl Drop for Keys {
    fn drop(self) {
        let Keys { by_code: _ } = self;
    }
}

impl Model for Keys {
    ghost use Rattle.std.specs.Prelude.{List, ℕ};
    ghost use Rattle.kx_symbols.specs.Keys.{KeyContent};

    ghost Value = { List (ℕ × KeyContent) };

    ghost view = { λ k. k.by_code.entries };
}

impl Keys {
    /// What the statements of a key give.
    pub fn key(&self, code: u16) -> Option<&KeyRecord>
        ensures { option_map (λ key. key.now) result ≡ key_at self.now code }
    {
        self.by_code.get(&code)
    }
}

/// What the key statements of a keymap's symbols give the keys, and what is passed over in them, which counts for each
/// place where a map is included.
///
/// # Errors
/// The faults of these statements and of the defaults for them, at their places: `BadValue` at the number of no keysym, at an
/// action among keysyms and a keysym among actions, at braces with several actions, at a second list of a kind for a group,
/// at what no field of lists takes, and at an index that is no group; `GroupRange` at a group outside of 1 to 32 and at a
/// list for which none is left; `TooMany` at a statement whose name has over 255 bytes or with over eight keysyms in
/// braces; `UnknownField` at a field or statement that a symbols section doesn't have; those of the arguments of actions
/// and of what is said of keys besides; `Memory`. Declarations of virtual modifiers, modifier maps and names of groups are
/// passed over: those who read them answer for their faults.
pub fn symbols(
    alloc: Global,
    expansion: &Expansion,
    codes: &Codes,
    names: &NameTable,
    modifiers: &ModNames,
) -> Result<(Keys, Notes), Fault>
    ensures shows { IfOk result (λ found.
        KeysShow found.0 codes.now names.now modifiers.now.names (expanded_body expansion.now)) }
    ensures faults { ReportsOrRunsOut result
        (faults_of nat_eq (key_rules codes.now names.now modifiers.now.names) key_moves
        (expanded_body expansion.now)) }
{
    let context = Context {
        codes,
        keysyms: names,
        modifiers,
    };
    let merged = merge::<Context, KeyRecord>(alloc, &context, expansion)?;
    let keys = Keys {
        by_code: merged.records,
    };
    Ok((keys, merged.notes))
}
