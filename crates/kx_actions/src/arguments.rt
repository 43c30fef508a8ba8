//! What calls say as actions.
ghost use Rattle.std.specs.Prelude.{◌≡◌, IfOk, Some};
ghost use Rattle.std.specs.List.{flat_map};
ghost use Rattle.kx_actions.specs.Arguments.{action_faults, action_of, action_with, argument_faults, argument_given};
ghost use Rattle.kx_actions.specs.Settings.{last_settings};
ghost use Rattle.kx_merge.specs.Reports.{Reports};

use crate::action::{ActionGroup, ActionMods, Affect, KeyAction};
use crate::defaults::ActionDefaults;
use crate::kinds::{ActionKind, kind_named};
use crate::settings::{Given, Settings};
use crate::values::{flag_given, known_field, value_given};
use kx_lex::Fault;
use kx_merge::{bad_value, lone_word};
use kx_parse::{Argument, Call, PlacedArgument};
use kx_tables::GroupChange;
use kx_virtual_mods::{ModNames, NameSet};

fn read_argument(
    names: &ModNames,
    file: u32,
    kind: ActionKind,
    placed: &PlacedArgument,
) -> Result<Given, Fault>
    ensures value { IfOk result (λ given.
        Some given ≡ argument_given names.now.names kind placed.now) }
    ensures faults { Reports result (argument_faults file names.now.names kind placed.now) }
{
    match &placed.argument {
        Argument::Off(word) => {
            let field = known_field(file, kind, word, &None)?;
            flag_given(file, field, false, placed.span)
        }
        Argument::Set { word, index, value } => {
            let field = known_field(file, kind, word, index)?;
            value_given(names, file, field, value)
        }
        Argument::Plain(expression) => match lone_word(expression) {
            Some(word) => {
                let field = known_field(file, kind, word, &None)?;
                flag_given(file, field, true, placed.span)
            }
            None => Err(bad_value(file, placed.span)),
        },
    }
}

/// What arguments give, after defaults.
fn read_arguments(
    names: &ModNames,
    file: u32,
    kind: ActionKind,
    defaults: Settings,
    arguments: &[PlacedArgument],
) -> Result<Settings, Fault>
    ensures value { IfOk result (λ s.
        s ≡ last_settings (argument_given names.now.names kind) defaults arguments.now) }
    ensures faults { Reports result
        (flat_map (argument_faults file names.now.names kind) arguments.now) }
{
    let mut settings = defaults;
    'arguments: for placed in arguments {
        settings = settings.with(read_argument(names, file, kind, placed)?);
    }
    Ok(settings)
}

/// The action of a kind whose fields are given these.
fn action_with(kind: ActionKind, settings: Settings) -> KeyAction
    ensures { result ≡ action_with kind settings }
{
    let mods = settings
        .modifiers
        .unwrap_or(ActionMods::Named(NameSet::none()));
    let group = settings
        .group
        .unwrap_or(ActionGroup::of(GroupChange::Relative(0)));
    let clear_locks = settings.clear_locks.unwrap_or(false);
    let latch_to_lock = settings.latch_to_lock.unwrap_or(false);
    match kind {
        ActionKind::SetMods => KeyAction::SetMods { mods, clear_locks },
        ActionKind::LatchMods => KeyAction::LatchMods {
            mods,
            clear_locks,
            latch_to_lock,
        },
        ActionKind::LockMods => KeyAction::LockMods {
            mods,
            affect: settings.affect.unwrap_or(Affect::Both),
        },
        ActionKind::SetGroup => KeyAction::SetGroup { group, clear_locks },
        ActionKind::LatchGroup => KeyAction::LatchGroup {
            group,
            clear_locks,
            latch_to_lock,
        },
        ActionKind::LockGroup => KeyAction::LockGroup { group },
        ActionKind::NoAction => KeyAction::NoAction,
    }
}

/// The action of a call of a file, under the defaults before it in its section. Of an argument written twice the last
/// counts, and of one that isn't written the default. An action of a name that isn't one of the seven is
/// [`KeyAction::Other`], whatever its arguments.
///
/// # Errors
/// `UnknownField` at the word of an argument that the action doesn't have, or that has an index; `BadValue` at an argument
/// without a name that is no word, at one that needs a value and has none, and at a value of the wrong kind; `GroupRange`
/// at a group outside of 1 to 32 or of -32 to 32; in a mask `UnknownModifier` or `BadValue` at the term.
pub fn read(
    names: &ModNames,
    file: u32,
    call: &Call,
    defaults: &ActionDefaults,
) -> Result<KeyAction, Fault>
    ensures value { IfOk result (λ a. a ≡ action_of names.now.names defaults.now call.now) }
    ensures faults { Reports result (action_faults file names.now.names call.now) }
{
    match kind_named(call.word.bytes.as_slice()) {
        None => Ok(KeyAction::Other),
        Some(kind) => {
            let given = read_arguments(
                names,
                file,
                kind,
                defaults.settings(kind),
                call.arguments.as_slice(),
            )?;
            Ok(action_with(kind, given))
        }
    }
}
