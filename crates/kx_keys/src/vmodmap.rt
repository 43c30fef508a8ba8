//! The virtual modifiers that keys bear.
ghost use Rattle.std.specs.Prelude.{◌<◌, IfSome, false, nat_eq};
ghost use Rattle.std.specs.Option.{option_map, option_map_or};
ghost use Rattle.kx_keys.specs.Vmodmap.{gives};
ghost use Rattle.kx_keys.specs.Standing.{VirtualsAre};

use crate::given::virtual_mods;
use crate::group_types::{content_group, group_count, group_type};
use crate::interpreted_key::InterpretedKey;
use crate::typing::Typing;
use kx_compat::Interpretation;
use kx_virtual_mods::{MOST_VIRTUAL_MODIFIERS, NameSet};

/// The set of a virtual modifier, where there is one.
#[tactic(auto, using(crate::proofs::NameBits::has_none, crate::proofs::NameBits::has_one))]
fn set_of(modifier: Option<u8>) -> NameSet
    requires { IfSome modifier (λ number. number < MOST_VIRTUAL_MODIFIERS) }
    ensures { VirtualsAre result (λ number. option_map_or (nat_eq number) modifier false) }
{
    match modifier {
        None => NameSet::none(),
        Some(number) => NameSet::of_virtual(number),
    }
}

/// What an interpretation gives a key at a level of a group, both counted from 0.
#[tactic(auto, using(crate::proofs::NameBits::has_none))]
fn set_given(interpretation: &Interpretation, group: usize, level: usize) -> NameSet
    ensures { VirtualsAre result (λ number. gives number group level (Some interpretation.now)) }
{
    if interpretation.first_level_only() && !(group == 0 && level == 0) {
        return NameSet::none();
    }
    set_of(interpretation.modifier())
}

/// The same, where there is an interpretation.
#[tactic(auto, using(crate::proofs::NameBits::has_none))]
fn given_by(interpretation: Option<&Interpretation>, group: usize, level: usize) -> NameSet
    ensures { VirtualsAre result (λ number.
        gives number group level (option_map (λ i. i.now) interpretation.entry)) }
{
    match interpretation {
        None => NameSet::none(),
        Some(interpretation) => set_given(interpretation, group, level),
    }
}

impl<'a> InterpretedKey<'a> {
    ghost use Rattle.kx_keys.specs.InterpretedKey.{bears, gives_at, is_given_to};
    ghost use Rattle.kx_keys.specs.Typing.{typing_of};
    ghost use Rattle.kx_keys.specs.Standing.{VirtualsAre};
    ghost use Rattle.kx_virtual_mods.specs.Sets.{any_below};

    /// The virtual modifiers that the levels of a group below a number are given.
    fn given_levels(&self, group: usize, levels: usize) -> NameSet
        ensures { VirtualsAre result (λ number. any_below levels (gives_at self.now number group)) }
    {
        let record = self.record();
        let content = content_group(record, group);
        let mut set = NameSet::none();
        'levels: for level in 0..levels {
            set = set.with(given_by(self.interpretation(content, level), group, level));
        }
        set
    }

    /// The virtual modifiers that interpretations give the key.
    fn given(&self, typing: Typing) -> NameSet
        ensures { VirtualsAre result (is_given_to self.now (typing_of typing.entry)) }
    {
        let mut set = NameSet::none();
        let record = self.record();
        'groups: for group in 0..group_count(record) {
            let levels = group_type(typing, record, group).levels;
            set = set.with(self.given_levels(group, levels));
        }
        set
    }

    /// The virtual modifiers that the key bears.
    pub fn vmodmap(&self, typing: Typing) -> NameSet
        ensures { VirtualsAre result (bears self.now (typing_of typing.entry)) }
    {
        match virtual_mods(self.record()) {
            Some(set) => set,
            None => self.given(typing),
        }
    }
}
