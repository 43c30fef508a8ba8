//! The names that a table has beyond the built-in ones.
ghost use Rattle.std.specs.Prelude.{◌≡◌, IfSome, Some, slice_get};
ghost use Rattle.std.specs.Option.{option_map};
ghost use Rattle.ks_core.specs.Entry.{keysym_in, name_in};
ghost use Rattle.ks_core.specs.Table.{letters_of, table_of};

use crate::given::Given;
use crate::letters::Letters;
use crate::x11;

/// Where names come from besides those that are built in.
#[derive(Drop)]
pub(crate) enum Further {
    None,
    Lines(Given),
    X11,
}

impl Further {
    /// The keysym of the name.
    pub(crate) fn keysym_of(&self, name: &str) -> Option<u32>
        ensures { result ≡ keysym_in (table_of self.now).names name.now }
    {
        match self {
            Further::None => None,
            Further::Lines(given) => given.keysym_of(name),
            Further::X11 => x11::keysym_of(name.as_bytes()),
        }
    }

    /// The keysym of the name, given as bytes, where it is found without a look whether these are text.
    pub(crate) fn keysym_of_bytes(&self, name: &[u8]) -> Option<u32>
        ensures { IfSome result (λ keysym.
            Some keysym ≡ keysym_in (table_of self.now).names name.now) }
    {
        match self {
            Further::X11 => x11::keysym_of(name),
            _ => None,
        }
    }

    /// The first name of the keysym.
    pub(crate) fn name_of(&self, keysym: u32) -> Option<&str>
        ensures first { option_map (λ name. name.now) result
            ≡ name_in (table_of self.now).names keysym }
        ensures back { IfSome result (λ name.
            keysym_in (table_of self.now).names name.now ≡ Some keysym) }
    {
        match self {
            Further::None => None,
            Further::Lines(given) => given.name_of(keysym),
            Further::X11 => x11::name_of(keysym),
        }
    }

    /// The name at a place.
    pub(crate) fn name_at(&self, place: usize) -> Option<&str>
        ensures { option_map (λ name. name.now) result
            ≡ option_map (λ e. e.0) (slice_get (table_of self.now).names place) }
    {
        match self {
            Further::None => None,
            Further::Lines(given) => given.name_at(place),
            Further::X11 => x11::name_at(place),
        }
    }

    /// The letters that go with the names.
    pub(crate) fn letters(&self) -> Letters
        ensures { letters_of result ≡ (table_of self.now).letters }
    {
        match self {
            Further::X11 => Letters::Unicode,
            _ => Letters::BuiltIn,
        }
    }
}
