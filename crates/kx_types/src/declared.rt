//! The key types that a keymap's statements declare.
ghost use Rattle.std.specs.Prelude.{◌≡◌, ◌++◌, ◌∷◌, [], IfOk, None, Option, Some, unwrap_or, ◌<◌};
ghost use Rattle.std.specs.List.{flat_map};
ghost use Rattle.std.specs.Option.{option_map};
ghost use Rattle.std.specs.Cmp.Lexicographic.{bytes_decides};
ghost use Rattle.std.proofs.Common.{◌∙◌, ap, sym};
ghost use Rattle.kx_include.specs.Shared.{expanded_body};
ghost use Rattle.kx_merge.specs.Records.{AreOffered};
ghost use Rattle.kx_merge.specs.Single.{single_form};
ghost use Rattle.kx_tree.specs.declared.tree.Mode.{Mode as ModeValue};
ghost use Rattle.kx_types.specs.KeyTypes.{definition_of};
ghost use Rattle.kx_types.specs.TypeFaults.{declares_modifiers, stated_faults, type_in};
ghost use Rattle.kx_types.specs.TypeFields.{field_faults, sayings_of};
ghost use Rattle.kx_types.specs.Types.{TypesShow, said_offers, type_offer, types_faults};
ghost use Rattle.kx_merge.specs.Faults.{name_faults};
ghost use Rattle.kx_merge.specs.Reports.{ReportsOrRunsOut};

use crate::counting::TypeNaming;
use crate::definition::KeyType;
use crate::fields::read_fields;
use crate::limits::MOST_TYPES;
use crate::table::Types;
use kx_basics::MOST_NAME_BYTES;
use kx_include::Expansion;
use kx_lex::{At, Fault, Span};
use kx_merge::{Placed, Single, SingleValue, merge, none_given, one_given};
use kx_ordered::ShortName;
use kx_parse::{Field, Name, Row, Stated, Statement};
use kx_virtual_mods::{ModNames, Names, count_names};
use std::alloc::Global;

/// The name and the fields of a type statement.
pub(crate) fn type_in(statement: &Statement) -> Option<(&Name, &Row<Field>)>
    ensures { option_map (λ t. (t.0.now, t.1.now)) result ≡ type_in statement.now }
{
    match statement {
        Statement::KeyType { name, fields } => Some((name, fields)),
        _ => None,
    }
}

fn declares_modifiers(statement: &Statement) -> bool
    ensures { result ≡ declares_modifiers statement.now }
{
    match statement {
        Statement::VirtualModifiers(_) => true,
        _ => false,
    }
}

/// What a type statement declares; `whole` is the statement.
fn read_type(
    alloc: Global,
    modifiers: &ModNames,
    file: u32,
    whole: Span,
    name: &Name,
    fields: &[Field],
) -> Result<Vec<(ShortName, Single<KeyType>)>, Fault>
    ensures records { (mode : ModeValue)
        → IfOk result (λ records. AreOffered mode single_form records.items
        (type_offer mode name.now.bytes (definition_of (sayings_of modifiers.now.names fields.now))
        ∷ [])) }
    ensures faults { ReportsOrRunsOut result
        (name_faults file whole name.now
        ++ flat_map (field_faults modifiers.now.names file) fields.now) }
{
    let bytes = name.bytes.as_slice();
    if bytes.len() > MOST_NAME_BYTES {
        return Err(Fault::TooMany(At { file, span: whole }));
    }
    let said = read_fields(alloc, modifiers, file, fields)?;
    let definition = KeyType::of(alloc, said.as_slice())?;
    one_given(alloc, ShortName::of(bytes), definition)
}

/// What a statement declares.
fn read_statement(
    alloc: Global,
    modifiers: &ModNames,
    file: u32,
    stated: &Stated,
) -> Result<Vec<(ShortName, Single<KeyType>)>, Fault>
    ensures records { (mode : ModeValue) → IfOk result (λ records. AreOffered mode single_form
        records.items (said_offers modifiers.now.names mode (type_in stated.now.statement))) }
    ensures faults { ReportsOrRunsOut result (stated_faults modifiers.now.names file stated.now) }
{
    match type_in(&stated.statement) {
        Some((name, fields)) => {
            read_type(alloc, modifiers, file, stated.span, name, fields.as_slice())
        }
        None => {
            if !declares_modifiers(&stated.statement) {
                let span = stated.word_span();
                return Err(Fault::UnknownField(At { file, span }));
            }
            Ok(none_given(alloc))
        }
    }
}

impl SingleValue<ModNames> for KeyType {
    type Key = ShortName;

    ghost offers = { λ modifiers place stated.
        said_offers modifiers.names stated.mode (type_in stated.statement) };

    ghost faults = { λ modifiers place stated. stated_faults modifiers.names place.file stated };

    ghost moved = { λ n name. Some name };

    fn read(
        alloc: Global,
        modifiers: &ModNames,
        placed: &Placed,
    ) -> Result<Vec<(ShortName, Single<KeyType>)>, Fault> {
        read_statement(alloc, modifiers, placed.place.file, placed.stated)
    }

    fn try_clone(&self, alloc: Global) -> Result<KeyType, Fault> {
        Ok(KeyType::try_clone(self, alloc)?)
    }

    fn key_in(key: &ShortName, _group: Option<u8>) -> Option<ShortName> {
        Some(key.copied())
    }

    ghost apart = { λ n j k to one two. ap (λ key. unwrap_or key []) (one ∙ sym two) };

    ghost same = { λ j k e. (bytes_decides j k).0 e };
}

/// The key types that the types sections of a keymap declare.
///
/// # Errors
/// The faults of the statements, at their places: `TooMany` at the statement with which there are more than 4,096 types,
/// and at one whose name has over 255 bytes; `UnknownField` at a statement or a field that types don't have, and at a
/// field with an index where none is taken, or without where one is needed; `BadValue` at a value of the wrong kind, and
/// at a field without one; `LevelRange` at a level outside of 1 to 64; `UnknownModifier` at a modifier that is neither real
/// nor declared; `Memory`.
pub fn types(alloc: Global, expansion: &Expansion, modifiers: &ModNames) -> Result<Types, Fault>
    ensures shows { IfOk result (λ types.
        TypesShow types modifiers.now.names (expanded_body expansion.now)) }
    ensures faults { ReportsOrRunsOut result
        (types_faults modifiers.now.names (expanded_body expansion.now)) }
{
    let _counted = count_names::<TypeNaming>(alloc, MOST_TYPES, Names::new(alloc), expansion)?;
    let merged = merge::<ModNames, Single<KeyType>>(alloc, modifiers, expansion)?;
    Ok(Types::of(merged.records))
}
