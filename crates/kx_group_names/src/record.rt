//! The names that statements give groups.
ghost use Rattle.std.specs.Prelude.{◌≡◌, ◌≤◌, ◌∷◌, [], IfErr, IfOk, Some, length, nat_eq};
ghost use Rattle.std.proofs.Common.{◌∙◌, eqb-true, sym};
ghost use Rattle.std.proofs.lemmas.Option.{cond_some};
ghost use Rattle.kx_basics.specs.declared.limits.TheConstants.{MOST_NAME_BYTES};
ghost use Rattle.kx_lex.specs.declared.fault.Fault.TheVariants.{Memory};
ghost use Rattle.kx_tree.specs.declared.tree.Mode.{Mode as ModeValue};
ghost use Rattle.kx_merge.specs.Moved.{moved_key};
ghost use Rattle.kx_merge.specs.Records.{AreOffered};
ghost use Rattle.kx_merge.specs.Single.{single_form, single_moves};
ghost use Rattle.kx_group_names.specs.Fields.{field_faults, stated_faults};
ghost use Rattle.kx_group_names.specs.Names.{moved_group, name_offer, named_offers, stated_offers};
ghost use Rattle.kx_merge.specs.Reports.{ReportsOrRunsOut};

use crate::fields::{name_in, read_name};
use crate::text::NameText;
use kx_lex::{Fault, Span};
use kx_merge::{Placed, Single, SingleValue, none_given, one_given};
use kx_parse::Field;
use std::alloc::Global;

fn one_record(alloc: Global, group: u8, text: &[u8]) -> Result<Vec<(u8, Single<NameText>)>, Fault>
    requires { length text.now ≤ MOST_NAME_BYTES }
    ensures records { (mode : ModeValue) → IfOk result (λ records. AreOffered mode single_form
        records.items (name_offer mode group text.now ∷ [])) }
    ensures err { IfErr result (λ e. e ≡ Memory) }
{
    let text = NameText::of(alloc, text)?;
    one_given(alloc, group, text)
}

/// The name that a field of a statement gives its group.
fn read_field(
    alloc: Global,
    file: u32,
    whole: Span,
    field: &Field,
) -> Result<Vec<(u8, Single<NameText>)>, Fault>
    ensures records { (mode : ModeValue) → IfOk result (λ records. AreOffered mode single_form
        records.items (named_offers mode (Some field.now))) }
    ensures faults { ReportsOrRunsOut result (field_faults file whole field.now) }
{
    let (group, text) = read_name(file, whole, field)?;
    one_record(alloc, group, text)
}

impl SingleValue<()> for NameText {
    type Key = u8;

    ghost offers = { λ context place stated. stated_offers stated };

    ghost faults = { λ context place stated. stated_faults place.file stated };

    ghost moved = { moved_group };

    fn read(
        alloc: Global,
        _context: &(),
        placed: &Placed,
    ) -> Result<Vec<(u8, Single<NameText>)>, Fault> {
        match name_in(&placed.stated.statement) {
            None => Ok(none_given(alloc)),
            Some(field) => read_field(alloc, placed.place.file, placed.stated.span, field),
        }
    }

    fn try_clone(&self, alloc: Global) -> Result<NameText, Fault> {
        Ok(NameText::of(alloc, self.as_slice())?)
    }

    fn key_in(key: &u8, group: Option<u8>) -> Option<u8>
        ensures { result ≡ moved_key (single_moves moved_group) group key.now }
    {
        match group {
            None => Some(*key),
            Some(to) => { if *key == 1 { Some(to) } else { None } }
        }
    }

    ghost apart = { λ n j k to one two. eqb-true j 1 (cond_some (nat_eq j 1) n to one).0 ∙ sym
        (eqb-true k 1 (cond_some (nat_eq k 1) n to two).0) };

    ghost same = { λ j k e. eqb-true j k e };
}
