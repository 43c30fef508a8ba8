//! The actions that lists stand for.
ghost use Rattle.std.specs.Prelude.{◌≡◌, ◌<◌, ◌++◌, ◌∷◌, [], Contains, IfOk, length};
ghost use Rattle.std.specs.List.{flat_map};
ghost use Rattle.kx_actions.specs.Arguments.{action_faults};
ghost use Rattle.kx_lex.specs.declared.fault.Fault.TheVariants.{BadValue};
ghost use Rattle.kx_symbols.specs.Actions.{actions_of, call_action, calls_in, defined, element_action, only_action};
ghost use Rattle.kx_symbols.specs.KeyFaults.{action_element_faults, action_part_faults, actions_faults, several_faults, symbol_span};
ghost use Rattle.kx_merge.specs.Reports.{Reports, ReportsOrRunsOut};

use crate::known::Known;
use ks_core::{Note, Notes};
use kx_actions::{KeyAction, read};
use kx_key_lists::{LevelValue, Levels};
use kx_lex::{At, Fault, Span};
use kx_parse::{BracePart, Braces, Call, Element, List as Listed, Symbol};
use std::alloc::{AllocError, Global};
use std::marker::Model;

/// An action as a level has it.
#[derive(Drop)]
pub(crate) struct LevelAction {
    action: KeyAction,
}

impl Model for LevelAction {
    ghost use Rattle.kx_actions.specs.declared.action.KeyAction.{KeyAction as KeyActionValue};

    ghost Value = { KeyActionValue };

    ghost view = { λ a. a.action };
}

impl LevelValue for LevelAction {
    fn try_clone(&self) -> Result<LevelAction, AllocError> {
        Ok(LevelAction {
            action: self.action,
        })
    }
}

impl LevelAction {
    pub fn action(&self) -> KeyAction
        ensures { result ≡ self.now }
    {
        self.action
    }
}

fn symbol_span(symbol: &Symbol) -> Span
    ensures { result ≡ symbol_span symbol.now }
{
    match symbol {
        Symbol::Word(word) => word.span,
        Symbol::Number(number) => number.span,
    }
}

/// What an action gives a level: no action gives nothing. One without effect is noted.
fn defined(action: KeyAction, notes: &mut Notes) -> Option<LevelAction>
    ensures { result ≡ defined action }
{
    match action {
        KeyAction::NoAction => None,
        KeyAction::Other => {
            notes.count(Note::IdleAction);
            Some(LevelAction { action })
        }
        _ => Some(LevelAction { action }),
    }
}

/// What a call gives its level.
fn call_action(
    known: &Known,
    file: u32,
    call: &Call,
    notes: &mut Notes,
) -> Result<Option<LevelAction>, Fault>
    ensures value { IfOk result (λ level. level ≡ call_action known.now call.now) }
    ensures faults { Reports result (action_faults file known.now.modifiers call.now) }
{
    let action = read(known.modifiers, file, call, &known.defaults.actions())?;
    Ok(defined(action, notes))
}

/// The fault of a keysym among actions.
fn symbol_fault(file: u32, symbol: &Symbol) -> Fault
    ensures { result ≡ BadValue (record { file = file; span = symbol_span symbol.now }) }
{
    Fault::BadValue(At {
        file,
        span: symbol_span(symbol),
    })
}

/// What the only part of a level in braces gives it.
fn part_action(
    known: &Known,
    file: u32,
    part: &BracePart,
    notes: &mut Notes,
) -> Result<Option<LevelAction>, Fault>
    ensures value { IfOk result (λ level.
        level ≡ only_action known.now (calls_in (part.now ∷ []))) }
    ensures faults { Reports result (action_part_faults file known.now.modifiers part.now) }
{
    match part {
        BracePart::Symbol(symbol) => Err(symbol_fault(file, symbol)),
        BracePart::Call(call) => call_action(known, file, call, notes),
    }
}

/// The fault of several parts in braces: that of a keysym, or else of several actions.
fn several_fault(known: &Known, file: u32, braces: &Braces) -> Fault
    requires { 1 < length braces.now.parts }
    ensures { Contains (several_faults file braces.now
        ++ flat_map (action_part_faults file known.now.modifiers) braces.now.parts) result }
{
    let parts = braces.parts.as_slice();
    'parts: for part in parts {
        if let BracePart::Symbol(symbol) = part {
            return symbol_fault(file, symbol);
        }
    }
    Fault::BadValue(At {
        file,
        span: braces.span,
    })
}

/// What a level in braces is given.
fn braces_action(
    known: &Known,
    file: u32,
    braces: &Braces,
    notes: &mut Notes,
) -> Result<Option<LevelAction>, Fault>
    ensures value { IfOk result (λ level.
        level ≡ only_action known.now (calls_in braces.now.parts)) }
    ensures faults { Reports result
        (several_faults file braces.now
        ++ flat_map (action_part_faults file known.now.modifiers) braces.now.parts) }
{
    match braces.parts.as_slice() {
        [] => Ok(None),
        [part] => part_action(known, file, part, notes),
        _ => Err(several_fault(known, file, braces)),
    }
}

/// What an element of a list gives its level.
fn element_action(
    known: &Known,
    file: u32,
    element: &Element,
    notes: &mut Notes,
) -> Result<Option<LevelAction>, Fault>
    ensures value { IfOk result (λ level. level ≡ element_action known.now element.now) }
    ensures faults { Reports result (action_element_faults file known.now.modifiers element.now) }
{
    match element {
        Element::Symbol(symbol) => Err(symbol_fault(file, symbol)),
        Element::Call(call) => call_action(known, file, call.get(), notes),
        Element::Braces(braces) => braces_action(known, file, braces, notes),
    }
}

/// The actions of a list by level.
pub(crate) fn read_actions(
    alloc: Global,
    known: &Known,
    file: u32,
    list: &Listed,
    notes: &mut Notes,
) -> Result<Levels<LevelAction>, Fault>
    ensures value { IfOk result (λ levels. levels ≡ actions_of known.now list.now) }
    ensures faults { ReportsOrRunsOut result (actions_faults file known.now.modifiers list.now) }
{
    let elements = list.elements.as_slice();
    let mut levels = Vec::with_capacity(alloc, elements.len())?;
    'elements: for element in elements {
        levels.push(element_action(known, file, element, notes)?)?;
    }
    Ok(Levels::of(levels))
}
