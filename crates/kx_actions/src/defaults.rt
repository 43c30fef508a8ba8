//! Defaults for the arguments of actions.
ghost use Rattle.std.specs.Prelude.{◌≡◌, IfOk, Some};
ghost use Rattle.kx_actions.specs.Defaults.{kind_of, settings_for, with_settings};
ghost use Rattle.kx_actions.specs.Values.{member_faults, member_given};
ghost use Rattle.kx_merge.specs.Reports.{Reports};

use crate::kinds::{ActionKind, kind_named};
use crate::settings::{Given, Settings};
use crate::values::{flag_given, known_field, value_given};
use kx_lex::{At, Fault, Name};
use kx_merge::bad_value;
use kx_parse::{Field, Setting, Value};
use kx_virtual_mods::ModNames;

/// What the default statements of a section give the arguments of actions.
#[derive(Clone, Copy, PartialEq, Eq)]
pub struct ActionDefaults {
    set_mods: Settings,
    latch_mods: Settings,
    lock_mods: Settings,
    set_group: Settings,
    latch_group: Settings,
    lock_group: Settings,
}

fn kind_of(field: &Field) -> Option<ActionKind>
    ensures { result ≡ kind_of field.now }
{
    kind_named(field.place.word.bytes.as_slice())
}

/// What a field of an action's, named by a member, is given.
fn read_member(
    names: &ModNames,
    file: u32,
    kind: ActionKind,
    member: &Name,
    field: &Field,
) -> Result<Given, Fault>
    ensures value { IfOk result (λ given. Some given
        ≡ member_given names.now.names kind member.now field.now.place.index field.now.setting) }
    ensures faults { Reports result
        (member_faults file names.now.names kind member.now field.now.place.index field.now.span
        field.now.setting) }
{
    let known = known_field(file, kind, member, &field.place.index)?;
    match &field.setting {
        Setting::Off => flag_given(file, known, false, field.span),
        Setting::On => flag_given(file, known, true, field.span),
        Setting::To(Value::Expression(value)) => value_given(names, file, known, value),
        Setting::To(Value::Call(call)) => Err(bad_value(file, call.span)),
        Setting::To(Value::List(list)) => Err(bad_value(file, list.span)),
    }
}

impl ActionDefaults {
    ghost use Rattle.std.specs.Prelude.{◌≡◌, List, IfOk};
    ghost use Rattle.kx_tree.specs.declared.tree.Field.{Field as FieldValue};
    ghost use Rattle.kx_actions.specs.Defaults.{default_faults, defaulted, defaults_after, next_defaults, no_defaults, settings_for, with_settings};
    ghost use Rattle.kx_actions.specs.declared.kinds.ActionKind.{ActionKind as Kind};
    ghost use Rattle.kx_merge.specs.Reports.{Reports};

    /// No defaults: those at the start of a section.
    pub fn none() -> ActionDefaults
        ensures { result ≡ no_defaults }
    {
        ActionDefaults {
            set_mods: Settings::none(),
            latch_mods: Settings::none(),
            lock_mods: Settings::none(),
            set_group: Settings::none(),
            latch_group: Settings::none(),
            lock_group: Settings::none(),
        }
    }

    /// The defaults for an action.
    pub(crate) fn settings(&self, kind: ActionKind) -> Settings
        ensures { result ≡ settings_for self.now kind }
    {
        match kind {
            ActionKind::SetMods => self.set_mods,
            ActionKind::LatchMods => self.latch_mods,
            ActionKind::LockMods => self.lock_mods,
            ActionKind::SetGroup => self.set_group,
            ActionKind::LatchGroup => self.latch_group,
            ActionKind::LockGroup => self.lock_group,
            ActionKind::NoAction => Settings::none(),
        }
    }

    fn with_settings(self, kind: ActionKind, settings: Settings) -> ActionDefaults
        ensures { result ≡ with_settings self kind settings }
    {
        let mut defaults = self;
        match kind {
            ActionKind::SetMods => defaults.set_mods = settings,
            ActionKind::LatchMods => defaults.latch_mods = settings,
            ActionKind::LockMods => defaults.lock_mods = settings,
            ActionKind::SetGroup => defaults.set_group = settings,
            ActionKind::LatchGroup => defaults.latch_group = settings,
            ActionKind::LockGroup => defaults.lock_group = settings,
            ActionKind::NoAction => {}
        }
        defaults
    }

    /// The defaults after one more statement of a section, a field as `setMods.clearLocks = yes;`.
    ///
    /// # Errors
    /// `UnknownField` at the word before the point where it is no word of an action's, or where there is no point; at the
    /// word after it where the action has no such argument, or where it has an index; else the faults of the argument:
    /// `BadValue` or `GroupRange` at the value, or at the field where a value is needed and none is written, and
    /// `UnknownModifier` in a mask.
    pub fn after(self, names: &ModNames, file: u32, field: &Field) -> Result<ActionDefaults, Fault>
        ensures value { IfOk result (λ d. d ≡ next_defaults names.now.names self field.now) }
        ensures last { (statements : List FieldValue) (kind : Kind)
            → settings_for (defaults_after names.now.names statements) kind
            ≡ defaulted names.now.names statements kind }
        ensures faults { Reports result (default_faults file names.now.names field.now) }
    {
        let unknown = Fault::UnknownField(At {
            file,
            span: field.place.word.span,
        });
        let Some(member) = &field.place.member else {
            return Err(unknown);
        };
        let Some(kind) = kind_of(field) else {
            return Err(unknown);
        };
        let given = read_member(names, file, kind, member.get(), field)?;
        Ok(self.with_settings(kind, self.settings(kind).with(given)))
    }
}
