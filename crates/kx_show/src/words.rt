//! Words that stand on keys where no character can.

/// A word for a keysym or for a character.
struct Word {
    of: u32,
    text: &'static str,
}

/// Words for keysyms, by keysym.
#[rattlefmt::skip]
static WORDS: [Word; 69] = [
    Word { of: 0xfe02, text: "Lat2" },
    Word { of: 0xfe03, text: "Lvl3" },
    Word { of: 0xfe04, text: "Lat3" },
    Word { of: 0xfe05, text: "Lck3" },
    Word { of: 0xfe08, text: "Grp+" },
    Word { of: 0xfe09, text: "Grp+" },
    Word { of: 0xfe0a, text: "Grp-" },
    Word { of: 0xfe0b, text: "Grp-" },
    Word { of: 0xfe0c, text: "Grp1" },
    Word { of: 0xfe0e, text: "GrpN" },
    Word { of: 0xfe11, text: "Lvl5" },
    Word { of: 0xfe12, text: "Lat5" },
    Word { of: 0xfe13, text: "Lck5" },
    Word { of: 0xfe20, text: "⇤" },
    Word { of: 0xfef9, text: "MKey" },
    Word { of: 0xff08, text: "Bksp" },
    Word { of: 0xff0a, text: "LnFd" },
    Word { of: 0xff0d, text: "Enter" },
    Word { of: 0xff13, text: "Paus" },
    Word { of: 0xff14, text: "ScLk" },
    Word { of: 0xff15, text: "SyRq" },
    Word { of: 0xff1b, text: "Esc" },
    Word { of: 0xff20, text: "Comp" },
    Word { of: 0xff27, text: "H/K" },
    Word { of: 0xff2a, text: "Z/H" },
    Word { of: 0xff30, text: "Eisu" },
    Word { of: 0xff51, text: "←" },
    Word { of: 0xff52, text: "↑" },
    Word { of: 0xff53, text: "→" },
    Word { of: 0xff54, text: "↓" },
    Word { of: 0xff55, text: "PgUp" },
    Word { of: 0xff56, text: "PgDn" },
    Word { of: 0xff61, text: "Prnt" },
    Word { of: 0xff63, text: "Ins" },
    Word { of: 0xff6b, text: "Brk" },
    Word { of: 0xff7e, text: "Mode" },
    Word { of: 0xff7f, text: "NmLk" },
    Word { of: 0xff80, text: "Space" },
    Word { of: 0xff89, text: "Tab" },
    Word { of: 0xff8d, text: "Entr" },
    Word { of: 0xff96, text: "←" },
    Word { of: 0xff97, text: "↑" },
    Word { of: 0xff98, text: "→" },
    Word { of: 0xff99, text: "↓" },
    Word { of: 0xff9a, text: "PgUp" },
    Word { of: 0xff9b, text: "PgDn" },
    Word { of: 0xff9d, text: "Begn" },
    Word { of: 0xff9e, text: "Ins" },
    Word { of: 0xff9f, text: "Del" },
    Word { of: 0xffe1, text: "Shift" },
    Word { of: 0xffe2, text: "Shift" },
    Word { of: 0xffe3, text: "Ctrl" },
    Word { of: 0xffe4, text: "Ctrl" },
    Word { of: 0xffe5, text: "Caps" },
    Word { of: 0xffe6, text: "ShLk" },
    Word { of: 0xffe7, text: "Meta" },
    Word { of: 0xffe8, text: "Meta" },
    Word { of: 0xffe9, text: "Alt" },
    Word { of: 0xffea, text: "Alt" },
    Word { of: 0xffeb, text: "Super" },
    Word { of: 0xffec, text: "Super" },
    Word { of: 0xffed, text: "Hyper" },
    Word { of: 0xffee, text: "Hyper" },
    Word { of: 0xffff, text: "Del" },
    Word { of: 0xffffff, text: "" },
    Word { of: 0x1008fe20, text: "Ungr" },
    Word { of: 0x1008fe21, text: "ClGr" },
    Word { of: 0x1008fe22, text: "VMd+" },
    Word { of: 0x1008fe23, text: "VMd-" },
];

/// Words for characters that can't be seen, by character.
#[rattlefmt::skip]
static UNSEEN: [Word; 79] = [
    Word { of: 0x20, text: "Space" },
    Word { of: 0xa0, text: "nbsp" },
    Word { of: 0xad, text: "SHY" },
    Word { of: 0x34f, text: "CGJ" },
    Word { of: 0x61c, text: "ALM" },
    Word { of: 0x115f, text: "HCF" },
    Word { of: 0x1160, text: "HJF" },
    Word { of: 0x1680, text: "ogsp" },
    Word { of: 0x17b4, text: "KIVA" },
    Word { of: 0x17b5, text: "KIVB" },
    Word { of: 0x180b, text: "FVS1" },
    Word { of: 0x180c, text: "FVS2" },
    Word { of: 0x180d, text: "FVS3" },
    Word { of: 0x180e, text: "MVS" },
    Word { of: 0x180f, text: "FVS4" },
    Word { of: 0x2000, text: "nqsp" },
    Word { of: 0x2001, text: "mqsp" },
    Word { of: 0x2002, text: "ensp" },
    Word { of: 0x2003, text: "emsp" },
    Word { of: 0x2004, text: "3msp" },
    Word { of: 0x2005, text: "4msp" },
    Word { of: 0x2006, text: "6msp" },
    Word { of: 0x2007, text: "fgsp" },
    Word { of: 0x2008, text: "pcsp" },
    Word { of: 0x2009, text: "thsp" },
    Word { of: 0x200a, text: "hrsp" },
    Word { of: 0x200b, text: "ZWSP" },
    Word { of: 0x200c, text: "ZWNJ" },
    Word { of: 0x200d, text: "ZWJ" },
    Word { of: 0x200e, text: "LRM" },
    Word { of: 0x200f, text: "RLM" },
    Word { of: 0x2028, text: "LSEP" },
    Word { of: 0x2029, text: "PSEP" },
    Word { of: 0x202a, text: "LRE" },
    Word { of: 0x202b, text: "RLE" },
    Word { of: 0x202c, text: "PDF" },
    Word { of: 0x202d, text: "LRO" },
    Word { of: 0x202e, text: "RLO" },
    Word { of: 0x202f, text: "nnbs" },
    Word { of: 0x205f, text: "mmsp" },
    Word { of: 0x2060, text: "WJ" },
    Word { of: 0x2061, text: "f()" },
    Word { of: 0x2062, text: "i×" },
    Word { of: 0x2063, text: "i," },
    Word { of: 0x2064, text: "i+" },
    Word { of: 0x2066, text: "LRI" },
    Word { of: 0x2067, text: "RLI" },
    Word { of: 0x2068, text: "FSI" },
    Word { of: 0x2069, text: "PDI" },
    Word { of: 0x206a, text: "ISS" },
    Word { of: 0x206b, text: "ASS" },
    Word { of: 0x206c, text: "IAFS" },
    Word { of: 0x206d, text: "AAFS" },
    Word { of: 0x206e, text: "NADS" },
    Word { of: 0x206f, text: "NODS" },
    Word { of: 0x2800, text: "brsp" },
    Word { of: 0x3000, text: "idsp" },
    Word { of: 0x3164, text: "HF" },
    Word { of: 0xfe00, text: "VS1" },
    Word { of: 0xfe01, text: "VS2" },
    Word { of: 0xfe02, text: "VS3" },
    Word { of: 0xfe03, text: "VS4" },
    Word { of: 0xfe04, text: "VS5" },
    Word { of: 0xfe05, text: "VS6" },
    Word { of: 0xfe06, text: "VS7" },
    Word { of: 0xfe07, text: "VS8" },
    Word { of: 0xfe08, text: "VS9" },
    Word { of: 0xfe09, text: "VS10" },
    Word { of: 0xfe0a, text: "VS11" },
    Word { of: 0xfe0b, text: "VS12" },
    Word { of: 0xfe0c, text: "VS13" },
    Word { of: 0xfe0d, text: "VS14" },
    Word { of: 0xfe0e, text: "VS15" },
    Word { of: 0xfe0f, text: "VS16" },
    Word { of: 0xfeff, text: "BOM" },
    Word { of: 0xffa0, text: "HWHF" },
    Word { of: 0xfff9, text: "IAA" },
    Word { of: 0xfffa, text: "IAS" },
    Word { of: 0xfffb, text: "IAT" },
];

/// What a dead key adds to a letter: as it stands below or above the letter, and by itself.
#[derive(Clone, Copy)]
pub(crate) struct Accent {
    keysym: u32,
    pub joined: &'static str,
    pub alone: &'static str,
}

/// The accents of dead keys, by keysym.
#[rattlefmt::skip]
static ACCENTS: [Accent; 50] = [
    Accent { keysym: 0xfe50, joined: "\u{300}", alone: "`" },
    Accent { keysym: 0xfe51, joined: "\u{301}", alone: "´" },
    Accent { keysym: 0xfe52, joined: "\u{302}", alone: "^" },
    Accent { keysym: 0xfe53, joined: "\u{303}", alone: "~" },
    Accent { keysym: 0xfe54, joined: "\u{304}", alone: "¯" },
    Accent { keysym: 0xfe55, joined: "\u{306}", alone: "˘" },
    Accent { keysym: 0xfe56, joined: "\u{307}", alone: "˙" },
    Accent { keysym: 0xfe57, joined: "\u{308}", alone: "¨" },
    Accent { keysym: 0xfe58, joined: "\u{30a}", alone: "˚" },
    Accent { keysym: 0xfe59, joined: "\u{30b}", alone: "˝" },
    Accent { keysym: 0xfe5a, joined: "\u{30c}", alone: "ˇ" },
    Accent { keysym: 0xfe5b, joined: "\u{327}", alone: "¸" },
    Accent { keysym: 0xfe5c, joined: "\u{328}", alone: "˛" },
    Accent { keysym: 0xfe5d, joined: "\u{345}", alone: "ͺ" },
    Accent { keysym: 0xfe5e, joined: "\u{3099}", alone: "゛" },
    Accent { keysym: 0xfe5f, joined: "\u{309a}", alone: "゜" },
    Accent { keysym: 0xfe60, joined: "\u{323}", alone: "\u{323}" },
    Accent { keysym: 0xfe61, joined: "\u{309}", alone: "\u{309}" },
    Accent { keysym: 0xfe62, joined: "\u{31b}", alone: "\u{31b}" },
    Accent { keysym: 0xfe63, joined: "\u{338}", alone: "/" },
    Accent { keysym: 0xfe64, joined: "\u{313}", alone: "᾿" },
    Accent { keysym: 0xfe65, joined: "\u{314}", alone: "῾" },
    Accent { keysym: 0xfe66, joined: "\u{30f}", alone: "\u{30f}" },
    Accent { keysym: 0xfe67, joined: "\u{325}", alone: "\u{325}" },
    Accent { keysym: 0xfe68, joined: "\u{331}", alone: "\u{331}" },
    Accent { keysym: 0xfe69, joined: "\u{32d}", alone: "\u{32d}" },
    Accent { keysym: 0xfe6a, joined: "\u{330}", alone: "\u{330}" },
    Accent { keysym: 0xfe6b, joined: "\u{32e}", alone: "\u{32e}" },
    Accent { keysym: 0xfe6c, joined: "\u{324}", alone: "\u{324}" },
    Accent { keysym: 0xfe6d, joined: "\u{311}", alone: "\u{311}" },
    Accent { keysym: 0xfe6e, joined: "\u{326}", alone: "\u{326}" },
    Accent { keysym: 0xfe6f, joined: "¤", alone: "¤" },
    Accent { keysym: 0xfe80, joined: "a", alone: "a" },
    Accent { keysym: 0xfe81, joined: "A", alone: "A" },
    Accent { keysym: 0xfe82, joined: "e", alone: "e" },
    Accent { keysym: 0xfe83, joined: "E", alone: "E" },
    Accent { keysym: 0xfe84, joined: "i", alone: "i" },
    Accent { keysym: 0xfe85, joined: "I", alone: "I" },
    Accent { keysym: 0xfe86, joined: "o", alone: "o" },
    Accent { keysym: 0xfe87, joined: "O", alone: "O" },
    Accent { keysym: 0xfe88, joined: "u", alone: "u" },
    Accent { keysym: 0xfe89, joined: "U", alone: "U" },
    Accent { keysym: 0xfe8a, joined: "ə", alone: "ə" },
    Accent { keysym: 0xfe8b, joined: "Ə", alone: "Ə" },
    Accent { keysym: 0xfe8c, joined: "µ", alone: "µ" },
    Accent { keysym: 0xfe8d, joined: "\u{654}", alone: "\u{654}" },
    Accent { keysym: 0xfe90, joined: "\u{332}", alone: "_" },
    Accent { keysym: 0xfe91, joined: "\u{30d}", alone: "\u{30d}" },
    Accent { keysym: 0xfe92, joined: "\u{329}", alone: "\u{329}" },
    Accent { keysym: 0xfe93, joined: "\u{338}", alone: "/" },
];

/// The text of a row for a number.
fn text_of(words: &[Word], number: u32) -> Option<&'static str> {
    let place = words.binary_search_by_key(&number, |word| word.of).ok()?;
    Some(words.get(place)?.text)
}

/// The word for a keysym.
pub(crate) fn word_of(keysym: u32) -> Option<&'static str> {
    text_of(&WORDS, keysym)
}

/// The word for a character that can't be seen.
pub(crate) fn unseen_word_of(character: char) -> Option<&'static str> {
    text_of(&UNSEEN, u32::from(character))
}

fn accents() -> &'static [Accent] {
    &ACCENTS
}

/// The accent of a dead key.
pub(crate) fn accent_of(keysym: u32) -> Option<Accent> {
    let place = accents()
        .binary_search_by_key(&keysym, |accent| accent.keysym)
        .ok()?;
    accents().get(place).copied()
}
