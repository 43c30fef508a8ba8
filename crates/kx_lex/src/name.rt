//! Rows, names and numbers, of which trees are made.
use crate::kept::Bytes;
use crate::scan::are_key_bytes;
use crate::token::Span;
use std::alloc::AllocError;
use std::marker::Model;

/// A list that a tree owns, seen as the list of its items.
#[derive(Drop)]
pub struct Row<T> {
    items: Vec<T>,
}

impl<T> Model for Row<T> {
    ghost use Rattle.std.specs.Prelude.{List};

    ghost Value = { List T };

    ghost view = { λ row. row.items.items };
}

impl<T> Row<T> {
    ghost use Rattle.std.specs.Prelude.{◌≡◌, ◌∷◌, IfOk};

    /// The row of these items.
    pub fn of(items: Vec<T>) -> Row<T>
        ensures { result ≡ items.items }
    {
        Row { items }
    }

    /// These items after another.
    ///
    /// # Errors
    /// Where a growth is refused.
    pub fn behind(self, first: T) -> Result<Row<T>, AllocError>
    where
        T: Drop,
        ensures { IfOk result (λ row. row ≡ first ∷ self) }
    {
        let mut items = self.items;
        items.insert(0, first)?;
        Ok(Row { items })
    }

    /// The same row without room for more items.
    pub fn fitted(self) -> Row<T>
        ensures { result ≡ self }
    {
        let mut items = self.items;
        items.shrink_to_fit();
        Row { items }
    }

    /// The items in order.
    pub fn as_slice(&self) -> &[T]
        ensures { result.now ≡ self.now }
    {
        self.items.as_slice()
    }

    /// The items.
    pub fn into_vec(self) -> Vec<T>
        ensures { result.items ≡ self }
    {
        self.items
    }
}

#[derive(Drop)]
enum SmallItems<T> {
    One([T; 1]),
    Others(Vec<T>),
}

/// A list that a tree owns, of which a single item takes no allocation; seen as the list of its items.
#[derive(Drop)]
pub struct SmallRow<T> {
    kept: SmallItems<T>,
}

impl<T> Model for SmallRow<T> {
    ghost use Rattle.std.specs.Prelude.{List};
    ghost use Rattle.kx_lex.specs.Kept.{kept_items};

    ghost Value = { List T };

    ghost view = { λ row. kept_items row.kept };
}

impl<T> SmallRow<T> {
    ghost use Rattle.std.specs.Prelude.{◌≡◌, ◌∷◌, []};

    /// The row of one item.
    #[inline(always)]
    pub fn one(item: T) -> SmallRow<T>
        ensures { result ≡ item ∷ [] }
    {
        SmallRow {
            kept: SmallItems::One([item]),
        }
    }

    /// The row of these items.
    #[inline(always)]
    pub fn of(row: Row<T>) -> SmallRow<T>
        ensures { result ≡ row }
    {
        SmallRow {
            kept: SmallItems::Others(row.items),
        }
    }

    /// The items in order.
    pub fn as_slice(&self) -> &[T]
        ensures { result.now ≡ self.now }
    {
        match &self.kept {
            SmallItems::One(item) => item.as_slice(),
            SmallItems::Others(items) => items.as_slice(),
        }
    }
}

/// A name, a word or text: its bytes, without what encloses it, and where it stands with it.
#[derive(Drop)]
pub struct Name {
    pub bytes: Bytes,
    pub span: Span,
}

/// A key's name, as it stands between `<` and `>`; seen as the name. Each of its bytes is visible ASCII but `>`.
#[derive(Drop)]
pub struct KeyName {
    name: Name,
}

impl Model for KeyName {
    ghost use Rattle.kx_lex.specs.declared.name.Name.{Name};
    ghost use Rattle.kx_lex.specs.Bytes.{AreKeyBytes};

    ghost Value = { Name };

    ghost view = { λ key. key.name };

    ghost invariant = { λ key. AreKeyBytes key.name.bytes };
}

impl KeyName {
    ghost use Rattle.std.specs.Prelude.{◌≡◌, true, if◌then◌else◌, None, Some};
    ghost use Rattle.std.specs.List.{list_all};
    ghost use Rattle.kx_basics.specs.KeyNames.{is_key_byte};
    ghost use Rattle.kx_lex.specs.Bytes.{AreKeyBytes};

    /// This name, where a key may have it.
    pub(crate) fn of(name: Name) -> Option<KeyName>
        ensures { result ≡ (if list_all is_key_byte name.bytes then Some name else None) }
    {
        if are_key_bytes(name.bytes.as_slice()) {
            Some(KeyName { name })
        } else {
            None
        }
    }

    /// Its bytes in order.
    pub fn as_slice(&self) -> &[u8]
        ensures value { result.now ≡ self.now.bytes }
        ensures valid { AreKeyBytes result.now }
    {
        self.name.bytes.as_slice()
    }

    /// Where it stands with what encloses it.
    pub fn span(&self) -> Span
        ensures { result ≡ self.now.span }
    {
        self.name.span
    }
}

/// A number and where it stands.
#[derive(Clone, Copy, PartialEq, Eq)]
pub struct Number {
    pub value: u32,
    pub span: Span,
}
