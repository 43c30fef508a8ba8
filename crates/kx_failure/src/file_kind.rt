//! What kind of file stands where an image is wanted.

/// The first bytes of every image.
const MAGIC: &[u8] = b"KXI\n";

/// The newest version of images that is read.
const NEWEST: u16 = 2;

/// So many bytes of a file are looked at: the head of a file with its comments.
const MOST_SEEN: usize = 8192;

/// The words that begin a line of a file's maps.
static MAP_WORDS: [&str; 8] = [
    "xkb_",
    "default ",
    "partial ",
    "hidden ",
    "alphanumeric_keys",
    "modifier_keys",
    "keypad_keys",
    "function_keys",
];

/// The words that begin a line of a C header; in a keymap's source `#` begins a comment.
static HEADER_WORDS: [&str; 6] = [
    "#define ",
    "#ifndef ",
    "#ifdef ",
    "#if ",
    "#include ",
    "#pragma ",
];

/// What kind of file bytes are, by the first of them.
#[derive(Clone, Copy, PartialEq, Eq)]
pub enum FileKind {
    Empty,
    /// An image of a version that is read, whole or not.
    Image,
    /// An image of another version.
    Version(u16),
    /// A keymap's source.
    Source,
    /// Maps that a source includes.
    Maps,
    /// Rules for names.
    Rules,
    /// A C header.
    Header,
    /// Events.
    Events,
    Other,
}

/// What an image's bytes after the first four are.
fn kind_of_image(behind: &[u8]) -> FileKind {
    match behind {
        [low, high, ..] => match u16::from_le_bytes([*low, *high]) {
            1..=NEWEST => FileKind::Image,
            version => FileKind::Version(version),
        },
        _ => FileKind::Image,
    }
}

fn begins_with(line: &[u8], words: &[&str]) -> bool {
    words.iter().any(|word| line.starts_with(word.as_bytes()))
}

/// Whether a keymap's word stands in a line, after blanks or none.
fn has_keymap(line: &[u8]) -> bool {
    for word in line.split(|byte| byte.is_ascii_whitespace()) {
        if word.starts_with(b"xkb_keymap") {
            return true;
        }
    }
    false
}

/// What a line tells of its file; nothing, where it may stand in several kinds.
fn kind_of_line(line: &[u8]) -> Option<FileKind> {
    let line = line.trim_ascii_start();
    if begins_with(line, MAP_WORDS.as_slice()) {
        return Some(if has_keymap(line) {
            FileKind::Source
        } else {
            FileKind::Maps
        });
    }
    if begins_with(line, HEADER_WORDS.as_slice()) {
        return Some(FileKind::Header);
    }
    if line.starts_with(b"!") {
        return Some(FileKind::Rules);
    }
    if begins_with(line, &["down ", "up "]) {
        return Some(FileKind::Events);
    }
    None
}

impl FileKind {
    /// What kind of file bytes are.
    pub fn of(bytes: &[u8]) -> FileKind {
        if bytes.is_empty() {
            return FileKind::Empty;
        }
        if let Some(behind) = bytes.strip_prefix(MAGIC) {
            return kind_of_image(behind);
        }
        let front = bytes.get(..MOST_SEEN).unwrap_or(bytes);
        front
            .split(|byte| *byte == b'\n')
            .find_map(kind_of_line)
            .unwrap_or(FileKind::Other)
    }
}
