//! Texts, found by what lends them.
ghost use Rattle.std.specs.Prelude.{◌≡◌};
ghost use Rattle.std.specs.Option.{option_copied};
ghost use Rattle.indexmap.specs.IndexMap.{get_by_text};

use crate::ordered::Ordered;

impl<V> Ordered<String, V> {
    /// The value of a text.
    pub fn value_of_text(&self, text: &str) -> Option<&V>
        ensures { option_copied result ≡ get_by_text self.now text.now }
    {
        match self.places().get(text).copied() {
            None => None,
            Some(place) => self.value(place),
        }
    }
}
