//! The defaults of a compat section.
ghost use Rattle.std.specs.Prelude.{◌≡◌, IfOk, Some, true};
ghost use Rattle.std.specs.Option.{option_map};
ghost use Rattle.kx_compat.specs.Sections.{alone_faults, is_indicator, is_interpret, is_other, lone_faults, member_faults, next_default};
ghost use Rattle.kx_tree.specs.Sections.{word_span};
ghost use Rattle.kx_symbols.specs.Keys.{field_in};
ghost use Rattle.kx_merge.specs.Reports.{Reports};

use crate::fields::read_field;
use crate::statements::FileContext;
use crate::values::FieldValues;
use ks_core::Notes;
use kx_actions::ActionDefaults;
use kx_lex::{At, Fault};
use kx_merge::unknown_field;
use kx_parse::{Field, Stated, Statement};

/// What the default statements of a section give.
#[derive(Clone, Copy)]
pub struct CompatDefaults {
    /// Of arguments of actions.
    pub(crate) actions: ActionDefaults,
    /// Of fields of interpretations.
    pub(crate) values: FieldValues,
}

/// The field that a statement is.
pub(crate) fn field_in(statement: &Statement) -> Option<&Field>
    ensures { option_map (λ f. f.now) result ≡ field_in statement.now }
{
    match statement {
        Statement::Field(field) => Some(field.get()),
        _ => None,
    }
}

pub(crate) fn is_interpret(word: &[u8]) -> bool
    ensures { result ≡ is_interpret word.now }
{
    word.eq_ignore_ascii_case(b"interpret")
}

/// Whether a statement of a compat section says nothing of interpretations.
fn is_other(statement: &Statement) -> bool
    ensures { result ≡ is_other statement.now }
{
    match statement {
        Statement::VirtualModifiers(_) => true,
        Statement::Indicator { .. } => true,
        Statement::Group { .. } => true,
        _ => false,
    }
}

fn is_indicator(word: &[u8]) -> bool
    ensures { result ≡ is_indicator word.now }
{
    word.eq_ignore_ascii_case(b"indicator")
}

impl CompatDefaults {
    ghost use Rattle.std.specs.Prelude.{◌≡◌};
    ghost use Rattle.kx_compat.specs.Sections.{no_defaults};
    ghost use Rattle.kx_merge.specs.Reports.{Reports};

    /// Those at the start of a section.
    pub(crate) fn none() -> CompatDefaults
        ensures { result ≡ no_defaults }
    {
        CompatDefaults {
            actions: ActionDefaults::none(),
            values: FieldValues::none(),
        }
    }

    /// Those after a default for a field of interpretations.
    fn after_member(
        self,
        context: &FileContext,
        field: &Field,
        notes: &mut Notes,
    ) -> Result<CompatDefaults, Fault>
        requires { is_interpret field.now.place.word.bytes ≡ true }
        ensures next { IfOk result (λ d.
            d ≡ next_default context.now.modifiers.now.names self (Some field.now)) }
        ensures faults { Reports result
            (member_faults context.now.file context.now.modifiers.now.names field.now
            field.now.place.member) }
    {
        let Some(member) = &field.place.member else {
            return Err(unknown_field(context.file, &field.place.word));
        };
        let value = read_field(context, &self.actions, member.get(), field, notes)?;
        Ok(CompatDefaults {
            actions: self.actions,
            values: self.values.with(value),
        })
    }

    /// Those after a field that stands alone.
    fn after_field(
        self,
        context: &FileContext,
        field: &Field,
        notes: &mut Notes,
    ) -> Result<CompatDefaults, Fault>
        ensures next { IfOk result (λ d.
            d ≡ next_default context.now.modifiers.now.names self (Some field.now)) }
        ensures faults { Reports result
            (lone_faults context.now.file context.now.modifiers.now.names field.now) }
    {
        let word = field.place.word.bytes.as_slice();
        if is_interpret(word) {
            return self.after_member(context, field, notes);
        }
        if is_indicator(word) {
            if field.place.member.is_none() {
                return Err(unknown_field(context.file, &field.place.word));
            }
            return Ok(self);
        }
        let actions = self.actions.after(context.modifiers, context.file, field)?;
        Ok(CompatDefaults {
            actions,
            values: self.values,
        })
    }

    /// Those after a statement that is no interpretation.
    pub(crate) fn after(
        self,
        context: &FileContext,
        stated: &Stated,
        notes: &mut Notes,
    ) -> Result<CompatDefaults, Fault>
        ensures next { IfOk result (λ d.
            d ≡ next_default context.now.modifiers.now.names self
            (field_in stated.now.statement)) }
        ensures faults { Reports result
            (alone_faults context.now.file context.now.modifiers.now.names stated.now.statement
            (word_span stated.now) (field_in stated.now.statement)) }
    {
        match field_in(&stated.statement) {
            Some(field) => self.after_field(context, field, notes),
            None => {
                if is_other(&stated.statement) {
                    return Ok(self);
                }
                Err(Fault::UnknownField(At {
                    file: context.file,
                    span: stated.word_span(),
                }))
            }
        }
    }
}
