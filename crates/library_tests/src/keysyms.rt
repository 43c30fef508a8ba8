//! Keysyms by their numbers, and counts of notes.
use ks_core::{Keysym, Letters, Note, Notes};

#[test]
fn tells_cases_and_keypad(rt: HostRuntime) {
    for (keysym, is_lower, is_upper) in &[
        (0x61, true, false),
        (0x5a, false, true),
        (0x5b, false, false),
        (0xd7, false, false),
        (0xf7, false, false),
        (0xdf, false, false),
        (0xff, false, false),
        (0x1b1, true, false),
        (0x1a1, false, true),
        (0x1a2, false, false),
        (0x1fe, true, false),
        (0x6c0, true, false),
        (0x6ff, false, true),
        (0x100_044f, true, false),
        (0x100_0410, false, true),
        (0x100_0450, false, false),
    ] {
        let keysym = Keysym(*keysym);
        assert!(rt;
            Letters::BuiltIn.is_lower(keysym) == *is_lower,
            "at {keysym:?}"
        );
        assert!(rt;
            Letters::BuiltIn.is_upper(keysym) == *is_upper,
            "at {keysym:?}"
        );
    }
    // Those of Unicode, with the same and with others: y with diaeresis, ghe with upturn, alpha, its accented form, an Armenian
    // and a Georgian letter, the titled dz, which is neither, and signs.
    for (keysym, is_lower, is_upper) in &[
        (0x61, true, false),
        (0x100_0410, false, true),
        (0xff, true, false),
        (0x6ad, true, false),
        (0x6bd, false, true),
        (0x7e1, true, false),
        (0x7c1, false, true),
        (0x7b1, true, false),
        (0x100_0561, true, false),
        (0x100_0531, false, true),
        (0x100_01c5, false, false),
        (0x100_10d0, false, false),
        (0x21, false, false),
        (0x1fff_ffff, false, false),
    ] {
        let keysym = Keysym(*keysym);
        assert!(rt;
            Letters::Unicode.is_lower(keysym) == *is_lower,
            "at {keysym:?}"
        );
        assert!(rt;
            Letters::Unicode.is_upper(keysym) == *is_upper,
            "at {keysym:?}"
        );
    }
    for (keysym, want) in &[
        (0xff7f, false),
        (0xff80, true),
        (0xffbd, true),
        (0xffbe, false),
    ] {
        assert!(rt; Keysym(*keysym).is_keypad() == *want, "at {keysym:#x}");
    }
}

#[test]
fn counts_notes(rt: HostRuntime) {
    let mut notes = Notes::new();
    for note in [
        Note::UnknownKeysym,
        Note::UnknownKey,
        Note::OtherType,
        Note::LostLevels,
        Note::IdleAction,
        Note::UnknownKeysym,
    ] {
        notes.count(note);
    }
    let want = Notes {
        keysyms: 2,
        keys: 1,
        types: 1,
        levels: 1,
        actions: 1,
    };
    assert!(rt; notes == want);
    let full = Notes {
        keysyms: u32::MAX,
        ..Notes::new()
    };
    let sum = notes.saturating_add(full);
    assert!(rt;
        sum == Notes {
            keysyms: u32::MAX,
            ..want
        }
    );
    let most = Notes {
        keysyms: u32::MAX,
        keys: u32::MAX,
        types: u32::MAX,
        levels: u32::MAX,
        actions: u32::MAX,
    };
    let mut last = most;
    for note in [
        Note::UnknownKeysym,
        Note::UnknownKey,
        Note::OtherType,
        Note::LostLevels,
        Note::IdleAction,
    ] {
        last.count(note);
    }
    assert!(rt; last == most);
}
