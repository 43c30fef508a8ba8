//! The tree.
use kx_lex::{Boxed, KeyName, Name, Number, Row, SmallRow, Span};

/// A keysym as it is written: a name or a number.
#[derive(Drop)]
pub enum Symbol {
    Word(Name),
    Number(Number),
}

/// A sign before a number or between terms.
#[derive(Clone, Copy, PartialEq, Eq)]
pub enum Sign {
    Plus,
    Minus,
}

/// A number with the sign before it; the span is from the sign on.
#[derive(Clone, Copy, PartialEq, Eq)]
pub struct Signed {
    pub sign: Sign,
    pub number: Number,
    pub span: Span,
}

/// A part of an expression.
#[derive(Drop)]
pub enum Term {
    Number(Number),
    Signed(Signed),
    Word(Name),
    Text(Name),
    KeyName(KeyName),
}

/// A term that is added or taken away.
#[derive(Drop)]
pub struct Operation {
    pub sign: Sign,
    pub term: Term,
}

/// Terms joined by `+` and `-`, read from the left.
#[derive(Drop)]
pub struct Expression {
    pub first: Term,
    pub rest: Row<Operation>,
    pub span: Span,
}

/// What stands in brackets after a word, with the brackets.
#[derive(Drop)]
pub struct Index {
    pub value: Expression,
    pub span: Span,
}

/// What a field sets: a word, or a word of another's defaults, with an index or without.
#[derive(Drop)]
pub struct FieldPlace {
    pub word: Name,
    pub member: Option<Boxed<Name>>,
    pub index: Option<Boxed<Index>>,
}

/// What an argument of a call sets.
#[derive(Drop)]
pub enum Argument {
    /// `!word`
    Off(Name),
    /// `word = value`, `word[index] = value`
    Set {
        word: Name,
        index: Option<Boxed<Index>>,
        value: Expression,
    },
    /// A value without a name.
    Plain(Expression),
}

/// An argument with where it stands.
#[derive(Drop)]
pub struct PlacedArgument {
    pub argument: Argument,
    pub span: Span,
}

/// A word with arguments in parentheses.
#[derive(Drop)]
pub struct Call {
    pub word: Name,
    pub arguments: Row<PlacedArgument>,
    pub span: Span,
}

/// What stands in braces of a list.
#[derive(Drop)]
pub enum BracePart {
    Symbol(Symbol),
    Call(Call),
}

/// One level of a list.
#[derive(Drop)]
pub enum Element {
    Symbol(Symbol),
    Call(Boxed<Call>),
    Braces(Braces),
}

/// Parts in braces, with the braces.
#[derive(Drop)]
pub struct Braces {
    pub parts: Row<BracePart>,
    pub span: Span,
}

/// Levels in brackets, with the brackets.
#[derive(Drop)]
pub struct List {
    pub elements: Row<Element>,
    pub span: Span,
}

/// What a field is set to.
#[derive(Drop)]
pub enum Value {
    Expression(Expression),
    Call(Call),
    List(List),
}

/// What a field says of its place.
#[derive(Drop)]
pub enum Setting {
    /// `!place`
    Off,
    /// `place`
    On,
    /// `place = value`
    To(Value),
}

/// A field, from its first token to its last; a `;` after it does not count.
#[derive(Drop)]
pub struct Field {
    pub place: FieldPlace,
    pub setting: Setting,
    pub span: Span,
}

/// A field of a key.
#[derive(Drop)]
pub enum KeyField {
    Field(Boxed<Field>),
    List(List),
}

/// A virtual modifier that is declared.
#[derive(Drop)]
pub struct Declaration {
    pub word: Name,
    pub mask: Option<Expression>,
}

/// Which modifiers an interpretation wants.
#[derive(Drop)]
pub enum Predicate {
    Call(Call),
    Mask(Expression),
}

/// What a modifier map names.
#[derive(Drop)]
pub enum Entry {
    KeyName(KeyName),
    Symbol(Symbol),
}

/// What a statement says.
#[derive(Drop)]
pub enum Statement {
    /// `<NAME> = CODE`
    Keycode {
        name: KeyName,
        code: Number,
    },
    /// `alias <NAME> = <TARGET>`
    Alias {
        name: KeyName,
        target: KeyName,
    },
    /// `indicator NUMBER = "NAME"`
    IndicatorName {
        number: Number,
        name: Name,
    },
    /// `virtual_modifiers A, B = MASK`
    VirtualModifiers(Row<Declaration>),
    /// `type "NAME" { .. }`
    KeyType {
        name: Name,
        fields: Row<Field>,
    },
    /// `interpret SYMBOL + PREDICATE { .. }`
    Interpretation {
        symbol: Symbol,
        predicate: Option<Boxed<Predicate>>,
        fields: Row<Field>,
    },
    /// `indicator "NAME" { .. }`
    Indicator {
        name: Name,
        fields: Row<Field>,
    },
    /// `group NUMBER = MASK`
    Group {
        number: Number,
        mask: Boxed<Expression>,
    },
    /// `key <NAME> { .. }`
    Key {
        name: KeyName,
        fields: SmallRow<KeyField>,
    },
    /// `modifier_map WORD { .. }`
    ModifierMap {
        modifier: Name,
        entries: Row<Entry>,
    },
    /// A field that stands alone.
    Field(Boxed<Field>),
}

/// How a statement or an include joins what stands before it.
#[derive(Clone, Copy, PartialEq, Eq)]
pub enum Mode {
    Augment,
    Override,
    Replace,
}

/// A statement as it stands in a section.
#[derive(Drop)]
pub struct Stated {
    pub mode: Mode,
    pub statement: Statement,
    /// Its first token after the mode.
    pub first: Span,
    /// All of it, with the mode and its `;`.
    pub span: Span,
}

/// What a section holds.
#[derive(Drop)]
pub enum Item {
    /// An include; the span is from its word to its text.
    Include { mode: Mode, text: Name, span: Span },
    Statement(Stated),
}

/// What a section is about.
#[derive(Clone, Copy, PartialEq, Eq)]
pub enum Kind {
    Keycodes,
    Types,
    Compat,
    Symbols,
    Geometry,
}

impl Kind {
    ghost use Rattle.std.specs.Prelude.{◌≡◌};
    ghost use Rattle.kx_tree.specs.Sections.{kind_word};

    /// The word of the kind, which the folder of its files has for a name, and its keyword after `xkb_`.
    pub fn word(self) -> &'static str
        ensures { result.now ≡ kind_word self }
    {
        match self {
            Kind::Keycodes => "keycodes",
            Kind::Types => "types",
            Kind::Compat => "compat",
            Kind::Symbols => "symbols",
            Kind::Geometry => "geometry",
        }
    }
}

/// A word before a section.
#[derive(Clone, Copy, PartialEq, Eq)]
pub enum Flag {
    Default,
    Partial,
    Hidden,
    AlphanumericKeys,
    ModifierKeys,
    KeypadKeys,
    FunctionKeys,
    AlternateGroup,
}

/// A section; one of geometry keeps none of its content.
pub struct Section {
    pub flags: Row<Flag>,
    pub kind: Kind,
    pub name: Option<Name>,
    pub items: Row<Item>,
}

impl Drop for Section {
    fn drop(self) {
        let Section {
            flags: _,
            kind: _,
            name: _,
            items: _,
        } = self;
    }
}

/// The sections of a source or of a file.
pub struct Tree {
    pub sections: Row<Section>,
}

impl Drop for Tree {
    fn drop(self) {
        let Tree { sections: _ } = self;
    }
}

impl Stated {
    ghost use Rattle.std.specs.Prelude.{◌≡◌};
    ghost use Rattle.kx_tree.specs.Sections.{word_span};

    /// The word that a fault of an unknown field names: a field's word, and of another statement
    /// its first token.
    pub fn word_span(&self) -> Span
        ensures { result ≡ word_span self.now }
    {
        match &self.statement {
            Statement::Field(field) => field.get().place.word.span,
            _ => self.first,
        }
    }
}
