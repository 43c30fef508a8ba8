//! Keys by code, with what tells their types.
use kx_codes::Codes;
use kx_keys::typing::Typing;
use kx_symbols::{KeyRecord, Keys};

/// The keys of a keymap, by their codes.
#[derive(Clone, Copy)]
pub struct NamedKeys<'a, 'l> {
    /// The keycodes and their names.
    pub codes: &'a Codes<'l>,
    /// What tells the key types of groups.
    pub typing: Typing<'a>,
    /// What statements give keys.
    pub keys: &'a Keys,
}

impl<'a, 'l> NamedKeys<'a, 'l> {
    ghost use Rattle.std.specs.Prelude.{◌≡◌};
    ghost use Rattle.std.specs.Option.{option_map};
    ghost use Rattle.kx_resolve.specs.NamedKeys.{named_key};

    /// What statements give the key of a code, where the code has a name and a statement names the key.
    pub(crate) fn key(self, code: u16) -> Option<&'a KeyRecord>
        ensures { option_map (λ k. k.now) result ≡ named_key self.entry code }
    {
        match self.codes.name_of(code) {
            None => None,
            Some(_) => self.keys.key(code),
        }
    }
}
