//! Images that are written, opened, cut and changed.
mod full;

use ks_core::MemOut;
use kx_image::{ImageFault, UpgradeFault, View, upgrade, write};
use kx_tables::{RecordKind, Rows, Tables};
use std::test::Fail;

/// One key `<A>` with code 38 and the keysym a, in version 1.
const ONE: [u8; 94] = [
    0x4b, 0x58, 0x49, 0x0a, 1, 0, 1, 0, 1, 0, 1, 0, 0, 0, 0, 0, 1, 0, 0, 0, 1, 0, 0, 0, 10, 0, 0,
    0, 0, 1, 0, 0, 9, 0, 0, 0, 0, 0, 0, 0, 0, 0, 0, 0, 0x26, 0, 0, 0, 0, 1, 1, 0, 9, 0, 0, 0, 0, 0,
    0, 0, 0, 0, 0, 0, 0, 0, 0, 0, 1, 0, 0, 0, 0, 0, 0, 0, 0, 0, 0, 0, 0x61, 0, 0, 0, 0x4f, 0x4e,
    0x45, 0x5f, 0x4c, 0x45, 0x56, 0x45, 0x4c, 0x41,
];

/// The same in version 2.
const TWO: [u8; 98] = [
    0x4b, 0x58, 0x49, 0x0a, 2, 0, 1, 0, 1, 0, 1, 0, 0, 0, 0, 0, 1, 0, 0, 0, 1, 0, 0, 0, 10, 0, 0,
    0, 0, 0, 0, 0, 0, 1, 0, 0, 9, 0, 0, 0, 0, 0, 0, 0, 0, 0, 0, 0, 0x26, 0, 0, 0, 0, 1, 1, 0, 9, 0,
    0, 0, 0, 0, 0, 0, 0, 0, 0, 0, 0, 0, 0, 0, 1, 0, 0, 0, 0, 0, 0, 0, 0, 0, 0, 0, 0x61, 0, 0, 0,
    0x4f, 0x4e, 0x45, 0x5f, 0x4c, 0x45, 0x56, 0x45, 0x4c, 0x41,
];

/// Two keys without groups, `<A>` with code 9 and `<B>` with code 10, in version 1.
const KEYS: [u8; 62] = [
    0x4b, 0x58, 0x49, 0x0a, 1, 0, 0, 0, 0, 0, 2, 0, 0, 0, 0, 0, 0, 0, 0, 0, 0, 0, 0, 0, 2, 0, 0, 0,
    9, 0, 0, 0, 0, 0, 1, 0, 0, 0, 0, 0, 0, 0, 0, 0, 10, 0, 0, 0, 0, 0, 1, 0, 1, 0, 0, 0, 0, 0, 0,
    0, 0x41, 0x42,
];

/// The fault of bytes, if they are no image.
fn fault_of(bytes: &[u8]) -> Option<ImageFault> {
    View::open(bytes).err()
}

#[test]
fn opens_both_versions(rt: HostRuntime) -> Result<(), Fail> {
    let one = View::open(&ONE).ok().ok_or("version 1")?;
    let two = View::open(&TWO).ok().ok_or("version 2")?;
    let counts = one.counts();
    assert!(rt; counts == two.counts());
    assert!(rt; counts.keys == 1);
    assert!(rt; one.key_of(38) == Some(0));
    assert!(rt; one.key_of(39) == None);
    assert!(rt; one.greatest_groups() == 1);
    Ok(())
}

#[test]
fn names_outlive_the_view(rt: HostRuntime) -> Result<(), Fail> {
    let bytes = ONE;
    let (key, key_type) = {
        let view = View::open(&bytes).ok().ok_or("no image")?;
        let counts = view.counts();
        assert!(rt; counts.keys == 1 && counts.types == 1);
        (view.key_name(0), view.type_name(0))
    };
    assert!(rt; key == b"A".as_slice());
    assert!(rt; key_type == b"ONE_LEVEL".as_slice());
    Ok(())
}

#[test]
fn refuses_cut_and_long_bytes(rt: HostRuntime) {
    for n in 0..ONE.len() {
        assert!(rt;
            fault_of(&ONE[..n]) == Some(ImageFault::Truncated),
            "{n} bytes"
        );
    }
    for n in 0..TWO.len() {
        assert!(rt;
            fault_of(&TWO[..n]) == Some(ImageFault::Truncated),
            "{n} bytes"
        );
    }
    let mut long = [0; 99];
    long[..98].copy_from_slice(&TWO);
    assert!(rt; fault_of(&long) == Some(ImageFault::Length));
    long[..94].copy_from_slice(&ONE);
    long[94] = 0;
    assert!(rt; fault_of(&long[..95]) == Some(ImageFault::Length));
}

#[test]
fn refuses_changed_bytes(rt: HostRuntime) {
    let cases = [
        (0usize, 0, Some(ImageFault::Magic)),
        (4, 9, Some(ImageFault::Version)),
        (4, 2, Some(ImageFault::Truncated)),
        (6, 2, Some(ImageFault::BadRecord(RecordKind::Header, 0))),
        (34, 1, Some(ImageFault::BadRecord(RecordKind::KeyType, 0))),
        (52, 8, Some(ImageFault::BadRecord(RecordKind::Key, 0))),
        (84, 0xff, None),
        (93, 0x3e, Some(ImageFault::BadRecord(RecordKind::Name, 9))),
    ];
    for (place, byte, want) in cases {
        let mut bytes = ONE;
        assert!(rt; place < 94);
        bytes[place] = byte;
        assert!(rt; fault_of(&bytes) == want, "byte {place} as {byte}");
    }
}

#[test]
fn keys_stand_in_order(rt: HostRuntime) {
    assert!(rt; fault_of(&KEYS) == None);
    let mut swapped = KEYS;
    swapped[28..44].copy_from_slice(&KEYS[44..60]);
    swapped[44..60].copy_from_slice(&KEYS[28..44]);
    assert!(rt; matches!(fault_of(&swapped), Some(ImageFault::BadRecord(_, _))));
}

#[test]
fn upgrades(rt: HostRuntime) {
    for image in [ONE.as_slice(), TWO.as_slice()] {
        let mut room = [0; 98];
        let mut out = MemOut::new(&mut room);
        assert!(rt; upgrade(image, &mut out) == Ok(()));
        assert!(rt; out.written() == TWO.as_slice());
    }
    let mut room = [0; 98];
    let mut out = MemOut::new(&mut room);
    let refused = Err(UpgradeFault::Image(ImageFault::Truncated));
    assert!(rt; upgrade(&ONE[..93], &mut out) == refused);
    assert!(rt; out.written().is_empty());
}

#[test]
fn writes_to_slow_and_broken_writers(rt: HostRuntime) -> Result<(), Fail> {
    let view = View::open(&ONE).ok().ok_or("no image")?;
    let mut room = [0; 98];
    let mut slow = MemOut::new(&mut room).with_most(1);
    assert!(rt; write(&view, &mut slow).is_ok());
    assert!(rt; slow.written() == TWO.as_slice());
    for n in 0..98 {
        let mut room = [0; 98];
        let mut broken = MemOut::new(&mut room).failing_after(n);
        assert!(rt; write(&view, &mut broken).is_err(), "failing at {n}");
        let got = broken.written();
        assert!(rt; TWO.starts_with(got), "failing at {n}");
    }
    Ok(())
}

#[test]
fn opens_the_empty_image(rt: HostRuntime) {
    let mut empty = [0; 32];
    empty[..5].copy_from_slice(&[0x4b, 0x58, 0x49, 0x0a, 2]);
    assert!(rt; fault_of(&empty) == None);
    assert!(rt; fault_of(&empty[..31]) == Some(ImageFault::Truncated));
    let mut older = empty;
    older[4] = 1;
    assert!(rt; fault_of(&older[..28]) == None);
    let mut room = [0; 33];
    let mut out = MemOut::new(&mut room);
    assert!(rt; upgrade(&older[..28], &mut out) == Ok(()));
    assert!(rt; out.written() == empty.as_slice());
}
