//! Characters, letters in upper and lower case, and what keysyms type.
use ks_core::Keysym;
use kx_mods::Mods;
use kx_text::{character_of, code_point_of, keysym_of, lower, one_keysym, text_of, upper};
use std::process::Abort;

#[test]
fn characters(rt: HostRuntime) {
    assert!(rt; character_of(Keysym(0x7e1)) == Some('α'));
    assert!(rt; character_of(Keysym(0x0100_d800)) == None);
    assert!(rt; code_point_of(Keysym(0x0100_d800)) == Some(0xd800));
    assert!(rt; code_point_of(Keysym(0xffe1)) == None);
    assert!(rt; keysym_of(0x3b1) == Some(Keysym(0x7e1)));
    assert!(rt; keysym_of(0x1_f600) == Some(Keysym(0x0101_f600)));
    assert!(rt; keysym_of(0xfffe) == None);
}

#[test]
fn letters(rt: HostRuntime) {
    assert!(rt; upper(Keysym(0x0100_0101)) == Keysym(0x0100_0100));
    assert!(rt; lower(Keysym(0x0100_0100)) == Keysym(0x0100_0101));
    assert!(rt; upper(Keysym(0x7e1)) == Keysym(0x7c1));
    assert!(rt; lower(Keysym(0x7c1)) == Keysym(0x7e1));
}

#[test]
fn types_text(rt: HostRuntime) {
    assert!(rt; text_of(&[0x63], Mods::LOCK).as_str() == "C");
    assert!(rt; text_of(&[0x63], Mods::CONTROL).as_str() == "\u{3}");
    assert!(rt; text_of(&[0x63, 0x7e1], Mods::CONTROL).as_str() == "cα");
    assert!(rt; text_of(&[0x63, 0xffe1], Mods::NONE).as_str() == "");
    assert!(rt; one_keysym(&[0x63], Mods::LOCK) == Some(Keysym(0x43)));
    assert!(rt; one_keysym(&[0x63, 0x64], Mods::LOCK) == None);
}
