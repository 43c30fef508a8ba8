//! Keys with what they are read against, and what their levels do.
ghost use Rattle.std.specs.Prelude.{◌≡◌};
ghost use Rattle.kx_keys.specs.Vmodmap.{only_keysym};

use crate::given::{action_at, keysyms_at};
use crate::group_types::has_action;
use kx_actions::{KeyAction, real_action};
use kx_compat::{Interpretation, Interpretations};
use kx_mods::Mods;
use kx_symbols::KeyRecord;
use kx_tables::Action;
use std::marker::Model;

/// A key with what it is mapped to, the interpretations of its keymap, and what virtual modifiers stand for.
#[derive(Drop)]
pub struct InterpretedKey<'a> {
    key: &'a KeyRecord,
    /// Whether a level of the key has an action of its own.
    own: bool,
    modmap: Mods,
    interpretations: &'a Interpretations,
    stands: &'a [Mods],
}

impl<'a> Model for InterpretedKey<'a> {
    ghost use Rattle.std.specs.Prelude.{◌≡◌};
    ghost use Rattle.kx_keys.specs.Given.{given};
    ghost use Rattle.kx_keys.specs.GroupTypes.{has_action};
    ghost use Rattle.kx_keys.specs.InterpretedKey.{InterpretedKey};

    ghost Value = { InterpretedKey };

    ghost view = { λ k. record {
      content = k.key.now;
      modmap = k.modmap;
      interpretations = k.interpretations.now;
      stands = k.stands.now;
    } };

    ghost invariant = { λ k. k.own ≡ has_action (given k.key.now) };
}

/// The keysym of a level that has exactly one.
fn only_keysym(keysyms: &[u32]) -> Option<u32>
    ensures { result ≡ only_keysym keysyms.now }
{
    match keysyms {
        [keysym] => Some(*keysym),
        _ => None,
    }
}

impl<'a> InterpretedKey<'a> {
    ghost use Rattle.std.specs.Prelude.{◌≡◌};
    ghost use Rattle.std.specs.Option.{option_map};
    ghost use Rattle.kx_keys.specs.InterpretedKey.{action_said, actions_of, interpretation_of};
    ghost use Rattle.kx_tables.specs.Sound.{ActionHolds};

    /// A key that is mapped to these modifiers. `stands` is what each virtual modifier stands for, by its number.
    pub fn of(
        key: &'a KeyRecord,
        modmap: Mods,
        interpretations: &'a Interpretations,
        stands: &'a [Mods],
    ) -> InterpretedKey<'a>
        ensures { result ≡ record {
          content = key.now;
          modmap = modmap;
          interpretations = interpretations.now;
          stands = stands.now;
        } }
    {
        InterpretedKey {
            key,
            own: has_action(key),
            modmap,
            interpretations,
            stands,
        }
    }

    /// What the key's statements give it.
    pub fn record(&self) -> &'a KeyRecord
        ensures { result.now ≡ self.now.content }
    {
        self.key
    }

    /// The modifiers that the key is mapped to.
    pub fn modmap(&self) -> Mods
        ensures { result ≡ self.now.modmap }
    {
        self.modmap
    }

    /// The interpretation of a level of a group, both counted from 0.
    #[inline(always)]
    pub fn interpretation(&self, group: usize, level: usize) -> Option<&'a Interpretation>
        ensures { option_map (λ i. i.now) result ≡ interpretation_of self.now group level }
    {
        if self.own {
            return None;
        }
        match only_keysym(keysyms_at(self.key, group, level)) {
            None => None,
            Some(keysym) => self.interpretations.choose(keysym, level == 0, self.modmap),
        }
    }

    /// The action that is said of a level of a group: the key's, or that of the level's interpretation.
    fn action_said(&self, group: usize, level: usize) -> Option<KeyAction>
        ensures { result ≡ action_said self.now group level }
    {
        if self.own {
            return action_at(self.key, group, level);
        }
        match self.interpretation(group, level) {
            None => None,
            Some(interpretation) => interpretation.action(),
        }
    }

    /// What a level of a group does, both counted from 0: what the key says, and where it says nothing of any level, what the
    /// level's interpretation says.
    #[tactic(auto, using(crate::proofs::Meant::becomes_meant))]
    pub fn action(&self, group: usize, level: usize) -> Action
        ensures value { result ≡ actions_of self.now group level }
        ensures holds { ActionHolds result }
    {
        match self.action_said(group, level) {
            None => Action::None,
            Some(action) => real_action(action, self.modmap, self.stands),
        }
    }
}
