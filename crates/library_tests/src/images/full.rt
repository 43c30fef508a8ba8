//! An image that has a record of every kind, in both versions.
use super::fault_of;
use ks_core::MemOut;
use kx_image::{ImageFault, View, upgrade};
use kx_tables::{RecordKind, Rows, Tables};
use std::test::Fail;

const LENGTH: usize = 317;

/// Two types with entries, three keys with each range, each action, two indicators and the names of two groups, in version 2.
const FULL: [u8; LENGTH] = [
    0x4b, 0x58, 0x49, 0x0a, 2, 0, 2, 0, 2, 0, 3, 0, 3, 0, 0, 0, 8, 0, 0, 0, 4, 0, 0, 0, 9, 0, 0, 0,
    2, 0, 2, 0, 3, 3, 2, 0, 2, 0, 0, 0, 0, 0, 0, 0, 0, 0, 0, 0, 1, 2, 1, 0, 1, 0, 0, 0, 2, 0, 0, 0,
    2, 0, 0, 0, 1, 2, 0, 0, 2, 3, 2, 0, 1, 2, 1, 0, 9, 0, 1, 0, 0, 2, 1, 0, 3, 0, 0, 0, 0, 0, 0, 0,
    0x26, 0, 0, 2, 1, 1, 1, 0, 4, 0, 0, 0, 2, 0, 0, 0, 0xff, 0x0f, 0, 1, 0, 0, 1, 0, 5, 0, 0, 0, 3,
    0, 0, 0, 0, 0, 0, 0, 0, 0, 0, 0, 1, 0, 0, 0, 3, 0, 0, 0, 0, 0, 0, 0, 5, 0, 0, 0, 1, 1, 1, 3, 0,
    0, 0, 0, 0, 0, 0, 0, 2, 2, 3, 4, 0, 0, 0, 0, 1, 0, 0, 0, 0, 3, 0x0c, 2, 0, 0, 0, 0, 3, 0, 0, 0,
    1, 4, 0x11, 0, 0x1f, 0, 0, 0, 3, 0, 0, 0, 0, 5, 3, 0, 0xe0, 0, 0, 0, 4, 0, 0, 0, 0, 6, 0, 0,
    0x20, 0, 0, 0, 4, 0, 0, 0, 0, 0, 0, 0, 0, 0, 0, 0, 4, 0, 0, 0, 0, 3, 4, 1, 0, 0, 0, 0, 4, 0, 0,
    0, 0x0a, 0, 0, 0, 0xff, 0xff, 0xff, 0x1f, 0x61, 0, 0, 0, 0x62, 0, 0, 0, 2, 4, 8, 0, 0xfe, 0xff,
    0xff, 0xff, 1, 0, 0, 0, 6, 0, 0, 0, 0, 0x0f, 0, 0, 0, 0, 0, 0, 0, 0, 0, 0, 7, 0, 0, 0, 0, 0, 0,
    0, 7, 0, 0, 0, 2, 0, 0, 0, 7, 0, 0, 0, 0x41, 0x42, 0x54, 0x50, 0x51, 0x52, 0x43, 0x67, 0x68,
];

/// How long the same is in version 1, without indicators and names of groups.
const LENGTH_ONE: usize = 262;

const LENGTH_ONE_UPGRADED: usize = LENGTH_ONE + 4;

/// The tables but indicators and group names in version 1.
fn full_one() -> [u8; LENGTH_ONE] {
    let mut bytes = [0; LENGTH_ONE];
    bytes[..28].copy_from_slice(&FULL[..28]);
    bytes[4] = 1;
    bytes[24] = 6;
    bytes[28..256].copy_from_slice(&FULL[32..260]);
    bytes[256..].copy_from_slice(&FULL[308..314]);
    bytes
}

#[test]
fn opens_each_kind_of_record(rt: HostRuntime) -> Result<(), Fail> {
    let view = View::open(&FULL).ok().ok_or("version 2")?;
    let counts = view.counts();
    assert!(rt; counts.types == 2 && counts.entries == 3 && counts.keys == 3);
    assert!(rt; counts.indicators == 2 && counts.group_names == 2);
    assert!(rt; view.indicator_name(0) == b"C".as_slice());
    assert!(rt; view.group_name(1) == b"gh".as_slice());
    assert!(rt; view.greatest_groups() == 2);
    assert!(rt; fault_of(&full_one()) == None);
    Ok(())
}

#[test]
fn refuses_what_is_cut_or_too_long(rt: HostRuntime) {
    let one = full_one();
    for image in [FULL.as_slice(), one.as_slice()] {
        for n in 0..image.len() {
            assert!(rt;
                fault_of(&image[..n]) == Some(ImageFault::Truncated),
                "{n} bytes"
            );
        }
        let mut long = [0; LENGTH + 1];
        let end = image.len();
        assert!(rt; end <= LENGTH);
        long[..end].copy_from_slice(image);
        assert!(rt; fault_of(&long[..end + 1]) == Some(ImageFault::Length));
    }
}

/// What stands behind the header is judged alike in both versions; the older one's header is 4 bytes shorter.
#[test]
fn records_of_the_older_version_are_judged_as_those_of_the_newer(
    rt: HostRuntime,
) -> Result<(), Fail> {
    let one = full_one();
    let mut room = [0; LENGTH_ONE_UPGRADED];
    let mut out = MemOut::new(&mut room);
    assert!(rt; upgrade(&one, &mut out) == Ok(()));
    for place in 28..LENGTH_ONE {
        for byte in 0..=255 {
            let mut older = one;
            older[place] = byte;
            let mut newer = room;
            newer[place + 4] = byte;
            assert!(rt;
                fault_of(&older) == fault_of(&newer),
                "byte {place} as {byte}"
            );
        }
    }
    Ok(())
}

#[test]
fn refuses_broken_records(rt: HostRuntime) {
    let cases = [
        (65usize, 1, None),
        (65, 4, Some(ImageFault::BadRecord(RecordKind::Entry, 0))),
        (68, 1, Some(ImageFault::BadRecord(RecordKind::Entry, 1))),
        (74, 2, Some(ImageFault::BadRecord(RecordKind::Entry, 2))),
        (
            261,
            16,
            Some(ImageFault::BadRecord(RecordKind::Indicator, 0)),
        ),
        (
            279,
            1,
            Some(ImageFault::BadRecord(RecordKind::Indicator, 1)),
        ),
        (
            302,
            9,
            Some(ImageFault::BadRecord(RecordKind::GroupName, 1)),
        ),
        (314, 0, None),
    ];
    for (place, byte, want) in cases {
        let mut bytes = FULL;
        assert!(rt; place < LENGTH);
        bytes[place] = byte;
        assert!(rt; fault_of(&bytes) == want, "byte {place} as {byte}");
    }
}

#[test]
fn upgrades_what_has_every_kind(rt: HostRuntime) -> Result<(), Fail> {
    let mut room = [0; LENGTH];
    let mut out = MemOut::new(&mut room);
    assert!(rt; upgrade(&FULL, &mut out) == Ok(()));
    assert!(rt; out.written() == FULL.as_slice());
    let one = full_one();
    let (header, rest) = one.as_slice().split_at(28.min(one.len()));
    let mut wanted = [header, [0u8; 4].as_slice(), rest].concat(rt.alloc())?;
    if let Some(version) = wanted.get_mut(4) {
        *version = 2;
    }
    assert!(rt; wanted.len() == LENGTH_ONE_UPGRADED);
    let mut room = [0; LENGTH];
    let mut out = MemOut::new(&mut room).with_most(1);
    assert!(rt; upgrade(&one, &mut out) == Ok(()));
    assert!(rt; out.written() == wanted.as_slice());
    Ok(())
}
