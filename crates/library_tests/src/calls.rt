//! Single calls.
use kx_actions::is_action_word;
use kx_basics::{decimal_value, hex_value, is_key_byte, is_keysym};
use kx_key_fields::{is_attribute_word, is_key_word, is_list_word};
use kx_lex::{At, Fault, Span};
use kx_merge::{Counted, bad_value, truth_named};
use kx_mods::Mods;
use kx_virtual_mods::{NameSet, real_mask, real_of};
use std::process::Abort;
use std::test::Fail;

#[test]
fn bounds(rt: HostRuntime) -> Result<(), Fail> {
    assert!(rt; decimal_value(b"0032") == 32);
    assert!(rt; hex_value(b"fF") == 255);
    assert!(rt; decimal_value(b"4294967295") == 4_294_967_295);
    assert!(rt; decimal_value(b"99999999999999999999999") == 4_294_967_296);
    assert!(rt; decimal_value(b"") == 0);
    let keysyms = [9, 10, 0x1fff_ffff, 0x2000_0000].map(|value| is_keysym(value));
    assert!(rt; keysyms == [false, true, true, false]);
    let bytes = [b' ', b'!', b'~', b'>', 0x7f].map(|byte| is_key_byte(byte));
    assert!(rt; bytes == [false, true, true, false, false]);
    Ok(())
}

#[test]
fn combines_sets(rt: HostRuntime) {
    let shift_lock = Mods::SHIFT.with(Mods::LOCK);
    assert!(rt; shift_lock.mask() == 3);
    assert!(rt; shift_lock.meet(Mods::LOCK.with(Mods::MOD5)).mask() == 2);
    assert!(rt; shift_lock.minus(Mods::SHIFT).mask() == 2);
    assert!(rt; Mods::MOD5.mask() == 128);
    assert!(rt; Mods::from_mask(0x84).mask() == 0x84);
    assert!(rt; Mods::NONE.is_none());
    assert!(rt; !shift_lock.is_none());
}

#[test]
fn sets(rt: HostRuntime) -> Result<(), Fail> {
    let set = NameSet::of_virtual(1).with(NameSet::of_real(Mods::SHIFT));
    assert!(rt; set.bits() == 513);
    assert!(rt; set.has_virtual(1));
    assert!(rt; !set.has_virtual(0));
    assert!(rt; set.real() == Mods::SHIFT);
    assert!(rt; set.minus(set).is_none());
    assert!(rt; set.minus(NameSet::none()) == set);
    let stands = [Mods::LOCK, Mods::MOD2];
    assert!(rt; real_of(set, stands.as_slice()).mask() == 17);
    assert!(rt; real_mask(b"cOntrol") == Some(Mods::CONTROL));
    assert!(rt; real_mask(b"mod6") == None);
    Ok(())
}

#[test]
fn words_are_known_in_capital_letters_or_small(rt: HostRuntime) {
    assert!(rt; is_action_word(b"latchGROUP"));
    assert!(rt; !is_action_word(b"interpret"));
    assert!(rt; is_attribute_word(b"VMODS"));
    assert!(rt; is_attribute_word(b"overlay1"));
    assert!(rt; !is_attribute_word(b"symbols"));
    assert!(rt; is_list_word(b"Actions"));
    assert!(rt; !is_list_word(b"type"));
    assert!(rt; is_key_word(b"Key"));
}

#[test]
fn words_have_a_truth_value_or_a_number(rt: HostRuntime) -> Result<(), Fail> {
    assert!(rt; truth_named(b"YES") == Some(true));
    assert!(rt; truth_named(b"off") == Some(false));
    assert!(rt; truth_named(b"1").is_none());
    assert!(rt; Counted::Level.in_word(b"lEVEL007") == Some(7));
    assert!(rt; Counted::Group.in_word(b"level7").is_none());
    assert!(rt; Counted::Group.in_word(b"group").is_none());
    assert!(rt; Counted::Group.has(32) && !Counted::Group.has(33) && !Counted::Group.has(0));
    assert!(rt; Counted::Level.has(64) && !Counted::Level.has(65));
    Ok(())
}

#[test]
fn fault_of_a_value_stands_at_its_place(rt: HostRuntime) -> Result<(), Fail> {
    let span = Span { start: 3, stop: 5 };
    assert!(rt; bad_value(2, span) == Fault::BadValue(At { file: 2, span }));
    Ok(())
}
