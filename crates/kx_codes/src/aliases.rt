//! Aliases of names of keys, as records by precedence.
ghost use Rattle.std.specs.Prelude.{◌≡◌, ◌∷◌, [], IfErr, IfOk, Some, unwrap_or};
ghost use Rattle.std.specs.Cmp.Lexicographic.{bytes_decides};
ghost use Rattle.std.specs.Option.{option_map};
ghost use Rattle.std.proofs.Common.{◌∙◌, ap, sym};
ghost use Rattle.kx_basics.specs.KeyNames.{IsKeyName};
ghost use Rattle.kx_lex.specs.declared.fault.Fault.TheVariants.{Memory};
ghost use Rattle.kx_merge.specs.Records.{AreOffered};
ghost use Rattle.kx_merge.specs.Single.{single_form};
ghost use Rattle.kx_tree.specs.declared.tree.Mode.{Mode as ModeValue};
ghost use Rattle.kx_codes.specs.Aliases.{alias_faults, alias_in, alias_offer, stated_offers};
ghost use Rattle.kx_merge.specs.Reports.{ReportsOrRunsOut};

use crate::checks::check_name;
use crate::name::AliasTarget;
use kx_lex::Fault;
use kx_merge::{Placed, Single, SingleValue, none_given, one_given};
use kx_ordered::ShortName;
use kx_parse::{KeyName, Statement};
use std::alloc::Global;

/// The name and the target of an alias statement.
fn alias_in(statement: &Statement) -> Option<(&KeyName, &KeyName)>
    ensures { option_map (λ a. (a.0.now, a.1.now)) result ≡ alias_in statement.now }
{
    match statement {
        Statement::Alias { name, target } => Some((name, target)),
        _ => None,
    }
}

fn one_record(
    alloc: Global,
    name: &[u8],
    target: &[u8],
) -> Result<Vec<(ShortName, Single<AliasTarget>)>, Fault>
    requires name { IsKeyName name.now }
    requires target { IsKeyName target.now }
    ensures records { (mode : ModeValue) → IfOk result (λ records. AreOffered mode single_form
        records.items (alias_offer mode name.now target.now ∷ [])) }
    ensures err { IfErr result (λ e. e ≡ Memory) }
{
    let target = AliasTarget::of(alloc, target)?;
    one_given(alloc, ShortName::of(name), target)
}

impl SingleValue<()> for AliasTarget {
    type Key = ShortName;

    ghost offers = { λ context place stated. stated_offers stated };

    ghost faults = { λ context place stated.
        alias_faults place.file stated.span (alias_in stated.statement) };

    ghost moved = { λ n name. Some name };

    fn read(
        alloc: Global,
        _context: &(),
        placed: &Placed,
    ) -> Result<Vec<(ShortName, Single<AliasTarget>)>, Fault> {
        match alias_in(&placed.stated.statement) {
            None => Ok(none_given(alloc)),
            Some((name, target)) => {
                let name = check_name(placed.place.file, placed.stated.span, name)?;
                let target = check_name(placed.place.file, placed.stated.span, target)?;
                one_record(alloc, name, target)
            }
        }
    }

    fn try_clone(&self, alloc: Global) -> Result<AliasTarget, Fault> {
        AliasTarget::of(alloc, self.as_slice())
    }

    fn key_in(key: &ShortName, _group: Option<u8>) -> Option<ShortName> {
        Some(key.copied())
    }

    ghost apart = { λ n j k to one two. ap (λ key. unwrap_or key []) (one ∙ sym two) };

    ghost same = { λ j k e. (bytes_decides j k).0 e };
}
