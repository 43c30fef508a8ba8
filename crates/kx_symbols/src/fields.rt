//! The lists of a key statement, each of its kind and with its group.
ghost use Rattle.std.specs.Prelude.{◌≡◌, ◌++◌, IfOk, None, OnOk, Some};
ghost use Rattle.kx_key_lists.specs.Places.{given_list, group_for, place_faults};
ghost use Rattle.kx_symbols.specs.Actions.{actions_of};
ghost use Rattle.kx_symbols.specs.KeyFaults.{actions_faults, elements_faults, field_faults, fields_faults, list_faults, named_faults, set_faults};
ghost use Rattle.kx_symbols.specs.Keysyms.{levels_of};
ghost use Rattle.kx_symbols.specs.Lists.{field_kind, field_lists, lists_of, named_lists, no_lists, set_lists, with_listed};
ghost use Rattle.kx_merge.specs.Reports.{ReportsOrRunsOut};

use crate::actions::{LevelAction, read_actions};
use crate::keysyms::{Keysyms, read_levels};
use crate::kinds::{ListKind, bare_kind, field_kind};
use crate::known::Known;
use ks_core::{NameTable, Notes};
use kx_key_lists::{Levels, group_for, put_list};
use kx_lex::{At, Fault};
use kx_parse::{Boxed, Field, Index, KeyField, List as Listed, Setting, Value};
use std::alloc::Global;
use std::marker::Model;

/// The lists of a statement by group, of both kinds.
#[derive(Drop)]
pub(crate) struct StatementLists {
    pub symbols: Vec<Option<Levels<Keysyms>>>,
    pub actions: Vec<Option<Levels<LevelAction>>>,
}

impl Model for StatementLists {
    ghost use Rattle.kx_symbols.specs.Lists.{StatementLists as ListsValue};

    ghost Value = { ListsValue };

    ghost view = { λ s. record { symbols = s.symbols.items; actions = s.actions.items } };
}

/// Adds a list of keysyms.
fn add_symbols(
    alloc: Global,
    names: &NameTable,
    whole: At,
    index: &Option<Boxed<Index>>,
    list: &Listed,
    lists: &mut Vec<Option<Levels<Keysyms>>>,
    notes: &mut Notes,
) -> Result<(), Fault>
    ensures value { OnOk result (lists.new.items
        ≡ given_list lists.old.items (group_for lists.old.items (index.now))
        (levels_of names.now list.now)) }
    ensures faults { ReportsOrRunsOut result
        (place_faults whole.file lists.old.items (index.now) list.now
        ++ elements_faults whole.file whole.span list.now) }
{
    let group = group_for(whole.file, lists.as_slice(), index, list)?;
    let levels = read_levels(alloc, names, whole, list, notes)?;
    put_list(lists, group, levels)?;
    Ok(())
}

/// Adds a list of actions.
fn add_actions(
    alloc: Global,
    known: &Known,
    whole: At,
    index: &Option<Boxed<Index>>,
    list: &Listed,
    lists: &mut Vec<Option<Levels<LevelAction>>>,
    notes: &mut Notes,
) -> Result<(), Fault>
    ensures value { OnOk result (lists.new.items
        ≡ given_list lists.old.items (group_for lists.old.items (index.now))
        (actions_of known.now list.now)) }
    ensures faults { ReportsOrRunsOut result
        (place_faults whole.file lists.old.items (index.now) list.now
        ++ actions_faults whole.file known.now.modifiers list.now) }
{
    let group = group_for(whole.file, lists.as_slice(), index, list)?;
    let levels = read_actions(alloc, known, whole.file, list, notes)?;
    put_list(lists, group, levels)?;
    Ok(())
}

/// Adds a list of a kind.
fn add_list(
    alloc: Global,
    known: &Known,
    whole: At,
    kind: ListKind,
    index: &Option<Boxed<Index>>,
    list: &Listed,
    lists: &mut StatementLists,
    notes: &mut Notes,
) -> Result<(), Fault>
    ensures value { OnOk result (lists.new
        ≡ with_listed known.now lists.old (index.now) list.now kind) }
    ensures faults { ReportsOrRunsOut result
        (list_faults whole.file known.now.modifiers whole.span lists.old (index.now) list.now kind) }
{
    match kind {
        ListKind::Symbols => {
            let symbols = &mut lists.symbols;
            add_symbols(alloc, known.names, whole, index, list, symbols, notes)
        }
        ListKind::Actions => {
            let actions = &mut lists.actions;
            add_actions(alloc, known, whole, index, list, actions, notes)
        }
    }
}

/// Adds what a field of lists sets.
fn add_set(
    alloc: Global,
    known: &Known,
    whole: At,
    kind: ListKind,
    field: &Field,
    lists: &mut StatementLists,
    notes: &mut Notes,
) -> Result<(), Fault>
    ensures value { OnOk result (lists.new
        ≡ set_lists known.now lists.old field.now.place.index kind field.now.setting) }
    ensures faults { ReportsOrRunsOut result
        (set_faults whole.file known.now.modifiers whole.span lists.old field.now.place.index
        field.now.span kind field.now.setting) }
{
    match &field.setting {
        Setting::To(Value::List(list)) => {
            let index = &field.place.index;
            add_list(alloc, known, whole, kind, index, list, lists, notes)
        }
        Setting::To(Value::Expression(expression)) => {
            Err(Fault::BadValue(At {
                span: expression.span,
                ..whole
            }))
        }
        Setting::To(Value::Call(call)) => Err(Fault::BadValue(At {
            span: call.span,
            ..whole
        })),
        Setting::Off | Setting::On => Err(Fault::BadValue(At {
            span: field.span,
            ..whole
        })),
    }
}

/// Adds the list of a field, where it is one of lists.
fn add_named(
    alloc: Global,
    known: &Known,
    whole: At,
    field: &Field,
    lists: &mut StatementLists,
    notes: &mut Notes,
) -> Result<(), Fault>
    ensures value { OnOk result (lists.new
        ≡ named_lists known.now lists.old field.now (field_kind field.now.place)) }
    ensures faults { ReportsOrRunsOut result
        (named_faults whole.file known.now.modifiers whole.span lists.old field.now
        (field_kind field.now.place)) }
{
    match field_kind(&field.place) {
        None => Ok(()),
        Some(kind) => add_set(alloc, known, whole, kind, field, lists, notes),
    }
}

/// Adds a field of a key.
fn add_field(
    alloc: Global,
    known: &Known,
    whole: At,
    field: &KeyField,
    lists: &mut StatementLists,
    notes: &mut Notes,
) -> Result<(), Fault>
    ensures value { OnOk result (lists.new ≡ field_lists known.now lists.old field.now) }
    ensures faults { ReportsOrRunsOut result
        (field_faults whole.file known.now.modifiers whole.span lists.old field.now) }
{
    match field {
        KeyField::List(list) => {
            let kind = bare_kind(list);
            add_list(alloc, known, whole, kind, &None, list, lists, notes)
        }
        KeyField::Field(field) => add_named(alloc, known, whole, field.get(), lists, notes),
    }
}

/// For so many lists of keysyms at most room is made before they are read: one for each field, since most fields are such lists.
const USUAL_LISTS: usize = 4;

/// The lists that the fields of a key statement give; others are passed over.
pub(crate) fn read_lists(
    alloc: Global,
    known: &Known,
    whole: At,
    fields: &[KeyField],
    notes: &mut Notes,
) -> Result<StatementLists, Fault>
    ensures value { IfOk result (λ lists. lists ≡ lists_of known.now fields.now) }
    ensures faults { ReportsOrRunsOut result
        (fields_faults whole.file known.now whole.span no_lists fields.now) }
{
    let mut lists = StatementLists {
        symbols: Vec::with_capacity(alloc, fields.len().min(USUAL_LISTS))?,
        actions: Vec::new(alloc),
    };
    'fields: for field in fields {
        add_field(alloc, known, whole, field, &mut lists, notes)?;
    }
    Ok(lists)
}
