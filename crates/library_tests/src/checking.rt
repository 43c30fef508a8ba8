//! Tables that are checked: sound ones, and those that break a rule.
use kx_mods::Mods;
use kx_tables::*;
use std::alloc::{AllocError, Global};
use std::process::Abort;
use std::test::Fail;

#[test]
fn wraps_groups(rt: HostRuntime) {
    let cases = [
        (-1, Range::Wrap, 2),
        (i64::MIN, Range::Wrap, 1),
        (3, Range::Clamp, 2),
        (-1, Range::Clamp, 0),
        (5, Range::Redirect(1), 1),
        (5, Range::Redirect(3), 0),
        (1, Range::Redirect(2), 1),
    ];
    for (group, range, want) in cases {
        assert!(rt; wrap_group(group, 3, range) == want, "{group} {range:?}");
    }
}

/// The tables of one key `<A>` with this code, whose one level has the keysym a.
fn one_key(alloc: Global, code: u16) -> Result<RawTables, AllocError> {
    let key_type = TypeRow {
        mods: Mods::NONE,
        levels: 1,
        entries: 0,
        name_length: 9,
        first_entry: 0,
        first_name: 0,
    };
    let key = KeyRow {
        code,
        modmap: Mods::NONE,
        range: Range::Wrap,
        groups: 1,
        name_length: 1,
        first_name: 9,
        first_group: 0,
    };
    let group = GroupRow {
        key_type: 0,
        first_cell: 0,
    };
    let cell = CellRow {
        keysyms: 1,
        action: Action::None,
        first_keysym: 0,
    };
    Ok(RawTables {
        types: vec![in alloc; key_type]?,
        entries: Vec::new(alloc),
        keys: vec![in alloc; key]?,
        groups: vec![in alloc; group]?,
        cells: vec![in alloc; cell]?,
        keysyms: vec![in alloc; 0x61]?,
        indicators: Vec::new(alloc),
        group_names: Vec::new(alloc),
        names: Vec::from_slice(alloc, b"ONE_LEVELA")?,
    })
}

fn shows_one_key(rt: &impl Abort, tables: &Owned) {
    assert!(rt; tables.key_of(38) == Some(0));
    assert!(rt; tables.key_of(37) == None);
    assert!(rt; tables.greatest_groups() == 1);
    let counts = tables.counts();
    assert!(rt; counts.keys == 1 && counts.types == 1 && counts.keysyms == 1);
    assert!(rt; tables.key_name(0) == b"A".as_slice());
    assert!(rt; tables.type_name(0) == b"ONE_LEVEL".as_slice());
    assert!(rt; tables.keysym(0) == 0x61);
}

#[test]
fn takes_sound_tables(rt: HostRuntime) -> Result<(), Fail> {
    let tables = Owned::new(one_key(rt.alloc(), 38)?);
    let tables = Box::new(rt.alloc(), tables.ok().ok_or("unsound")?)?;
    shows_one_key(&rt, &tables);
    Ok(())
}

#[test]
fn refuses_unsound_tables(rt: HostRuntime) -> Result<(), Fail> {
    let key_0 = Broken {
        part: RecordKind::Key,
        index: 0,
    };
    let refused = Owned::new(one_key(rt.alloc(), 4096)?).err();
    assert!(rt; refused == Some(key_0));
    Ok(())
}

/// The tables of one key, with so many indicators.
fn with_indicators(alloc: Global, count: u32) -> Result<RawTables, AllocError> {
    let mut parts = Box::new(alloc, one_key(alloc, 38)?)?;
    for _ in 0..count {
        parts.indicators.push(IndicatorRow {
            mods: Mods::NONE,
            mod_states: States::from_mask(0),
            group_states: States::from_mask(0),
            groups: 0,
            name_length: 0,
            first_name: 10,
        })?;
    }
    Ok(Box::into_inner(parts))
}

/// What tables with so many indicators are refused for.
fn refused_for(alloc: Global, count: u32) -> Result<Option<Broken>, Fail> {
    Ok(Owned::new(with_indicators(alloc, count)?).err())
}

#[test]
fn names_the_indicator_past_the_last_place(rt: HostRuntime) -> Result<(), Fail> {
    let indicator_32 = Broken {
        part: RecordKind::Indicator,
        index: 32,
    };
    for count in [33, 65_536] {
        let refused = refused_for(rt.alloc(), count)?;
        assert!(rt; refused == Some(indicator_32), "{count}");
    }
    Ok(())
}
