//! The words of a key's fields.
ghost use Rattle.std.specs.Prelude.{◌≡◌, is_some};
ghost use Rattle.kx_key_fields.specs.Words.{AreUsual, field_named, is_group_name, is_key_word, is_list_word, is_unused_word, texts_of, used_words};
ghost use Rattle.kx_merge.specs.Words.{among};

use kx_parse::FieldPlace;

/// The fields that set a key's range.
#[derive(Clone, Copy, PartialEq, Eq)]
pub(crate) enum RangeField {
    Wrap,
    Clamp,
    Redirect,
}

/// What fields of a key set besides lists.
#[derive(Clone, Copy, PartialEq, Eq)]
pub(crate) enum AttributeField {
    KeyType,
    VirtualMods,
    Range(RangeField),
    /// Nothing.
    Unused,
}

fn used_field(word: &[u8]) -> Option<AttributeField>
    ensures { result ≡ among used_words word.now }
{
    if word.eq_ignore_ascii_case(b"type") {
        Some(AttributeField::KeyType)
    } else if word.eq_ignore_ascii_case(b"vmods") {
        Some(AttributeField::VirtualMods)
    } else if word.eq_ignore_ascii_case(b"virtualMods") {
        Some(AttributeField::VirtualMods)
    } else if word.eq_ignore_ascii_case(b"virtualModifiers") {
        Some(AttributeField::VirtualMods)
    } else if word.eq_ignore_ascii_case(b"groupsWrap") {
        Some(AttributeField::Range(RangeField::Wrap))
    } else if word.eq_ignore_ascii_case(b"wrapGroups") {
        Some(AttributeField::Range(RangeField::Wrap))
    } else if word.eq_ignore_ascii_case(b"groupsClamp") {
        Some(AttributeField::Range(RangeField::Clamp))
    } else if word.eq_ignore_ascii_case(b"clampGroups") {
        Some(AttributeField::Range(RangeField::Clamp))
    } else if word.eq_ignore_ascii_case(b"groupsRedirect") {
        Some(AttributeField::Range(RangeField::Redirect))
    } else if word.eq_ignore_ascii_case(b"redirectGroups") {
        Some(AttributeField::Range(RangeField::Redirect))
    } else {
        None
    }
}

fn is_unused(word: &[u8]) -> bool
    ensures { result ≡ is_unused_word word.now }
{
    word.eq_ignore_ascii_case(b"repeat")
        || word.eq_ignore_ascii_case(b"repeats")
        || word.eq_ignore_ascii_case(b"repeating")
        || word.eq_ignore_ascii_case(b"lock")
        || word.eq_ignore_ascii_case(b"locks")
        || word.eq_ignore_ascii_case(b"locking")
        || word.eq_ignore_ascii_case(b"radioGroup")
        || word.eq_ignore_ascii_case(b"permanentRadioGroup")
        || word.eq_ignore_ascii_case(b"allowNone")
        || word.eq_ignore_ascii_case(b"overlay")
        || word.eq_ignore_ascii_case(b"overlay1")
        || word.eq_ignore_ascii_case(b"overlay2")
}

/// What a field of a word sets, where it isn't a field of lists.
pub(crate) fn field_named(word: &[u8]) -> Option<AttributeField>
    ensures { result ≡ field_named word.now }
{
    if is_unused(word) {
        Some(AttributeField::Unused)
    } else {
        used_field(word)
    }
}

/// Whether a field of this word, in capital letters or small, says something of a key besides its lists, or is read and
/// not used.
pub fn is_attribute_word(word: &[u8]) -> bool
    ensures { result ≡ is_some (field_named word.now) }
{
    field_named(word).is_some()
}

/// Whether a field of this word, in capital letters or small, gives a key lists.
pub fn is_list_word(word: &[u8]) -> bool
    ensures { result ≡ is_list_word word.now }
{
    word.eq_ignore_ascii_case(b"symbols") || word.eq_ignore_ascii_case(b"actions")
}

/// The words of fields as they are usually written.
static USUAL: [&str; 12] = [
    "type",
    "symbols",
    "actions",
    "vmods",
    "groupsWrap",
    "groupsClamp",
    "groupsRedirect",
    "repeat",
    "lock",
    "radioGroup",
    "allowNone",
    "overlay",
];

/// The words of a key's fields as they are usually written. Each is read as a field, and each thing that a field can give a key is
/// given by one of them.
pub fn usual_words() -> &'static [&'static str]
    ensures { AreUsual (texts_of result.now) }
{
    &USUAL
}

/// Whether this word, in capital letters or small, stands before the point of a default for keys, as in `key.type`.
pub fn is_key_word(word: &[u8]) -> bool
    ensures { result ≡ is_key_word word.now }
{
    word.eq_ignore_ascii_case(b"key")
}

/// Whether a field of a symbols section names a group, as `name[1] = "English";`.
pub fn is_group_name(place: &FieldPlace) -> bool
    ensures { result ≡ is_group_name place.now }
{
    place.member.is_none() && place.word.bytes.as_slice().eq_ignore_ascii_case(b"name")
}
