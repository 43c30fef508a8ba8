//! Rows that are pushed to a builder, and the tables that it makes.
use kx_builder::{BuildFault, Builder, Indicator};
use kx_mods::Mods;
use kx_tables::{
    Action, CellRow, EntryRow, GroupNameRow, GroupRow, IndicatorRow, KeyRow, Owned, Range,
    RawTables, Rows, States, TypeRow,
};
use std::alloc::Global;
use std::test::Fail;

/// The types TWO and ONE.
fn push_types(builder: &mut Builder) -> Result<(), BuildFault> {
    let entry = EntryRow {
        mods: Mods::SHIFT,
        level: 2,
        preserve: Mods::NONE,
    };
    builder.push_type(b"TWO", Mods::SHIFT, 2, [entry].as_slice())?;
    builder.push_type(b"ONE", Mods::NONE, 1, [].as_slice())
}

/// A group of the type TWO: a and A, with Cyrillic_ef.
fn push_two_levels(builder: &mut Builder) -> Result<(), BuildFault> {
    builder.push_group(0)?;
    builder.push_cell([0x61].as_slice(), Action::None)?;
    builder.push_cell([0x41, 0xc1].as_slice(), Action::None)
}

/// `<A>` with a group of each type, and `<B>` with no group.
fn push_rows(builder: &mut Builder) -> Result<(), BuildFault> {
    push_types(builder)?;
    builder.push_key(38, b"A", Mods::NONE, Range::Wrap)?;
    push_two_levels(builder)?;
    builder.push_group(1)?;
    builder.push_cell([].as_slice(), LOCK)?;
    builder.push_key(40, b"BB", Mods::LOCK, Range::Redirect(1))
}

fn built(alloc: Global) -> Result<Builder, Fail> {
    let mut builder = Box::new(alloc, Builder::new(alloc))?;
    push_rows(&mut builder).ok().ok_or("refused")?;
    Ok(Box::into_inner(builder))
}

/// The tables of what was built. In a box, tests that hold it are proved much sooner.
fn built_parts(alloc: Global) -> Result<Box<RawTables>, Fail> {
    Ok(Box::new(alloc, built(alloc)?.into_parts())?)
}

const LOCK: Action = Action::LockMods {
    mods: Mods::LOCK,
    locks: true,
    unlocks: true,
};

#[test]
fn builds_the_rows(rt: HostRuntime) -> Result<(), Fail> {
    let parts = built_parts(rt.alloc())?;
    let two = TypeRow {
        mods: Mods::SHIFT,
        levels: 2,
        entries: 1,
        name_length: 3,
        first_entry: 0,
        first_name: 0,
    };
    let one = TypeRow {
        mods: Mods::NONE,
        levels: 1,
        entries: 0,
        name_length: 3,
        first_entry: 1,
        first_name: 3,
    };
    assert!(rt; parts.types.as_slice() == [two, one].as_slice());
    let a = KeyRow {
        code: 38,
        modmap: Mods::NONE,
        range: Range::Wrap,
        groups: 2,
        name_length: 1,
        first_name: 6,
        first_group: 0,
    };
    let b = KeyRow {
        code: 40,
        modmap: Mods::LOCK,
        range: Range::Redirect(1),
        groups: 0,
        name_length: 2,
        first_name: 7,
        first_group: 2,
    };
    assert!(rt; parts.keys.as_slice() == [a, b].as_slice());
    assert!(rt; parts.names.as_slice() == b"TWOONEABB".as_slice());
    Ok(())
}

#[test]
fn builds_the_groups(rt: HostRuntime) -> Result<(), Fail> {
    let parts = built_parts(rt.alloc())?;
    let groups = [
        GroupRow {
            key_type: 0,
            first_cell: 0,
        },
        GroupRow {
            key_type: 1,
            first_cell: 2,
        },
    ];
    assert!(rt; parts.groups.as_slice() == groups.as_slice());
    let cells = [
        CellRow {
            keysyms: 1,
            action: Action::None,
            first_keysym: 0,
        },
        CellRow {
            keysyms: 2,
            action: Action::None,
            first_keysym: 1,
        },
        CellRow {
            keysyms: 0,
            action: LOCK,
            first_keysym: 3,
        },
    ];
    assert!(rt; parts.cells.as_slice() == cells.as_slice());
    assert!(rt; parts.keysyms.as_slice() == [0x61, 0x41, 0xc1].as_slice());
    assert!(rt;
        parts.entries.len() == 1 && parts.indicators.is_empty() && parts.group_names.is_empty()
    );
    Ok(())
}

#[test]
fn builds_sound_tables(rt: HostRuntime) -> Result<(), Fail> {
    let tables = Owned::new(built(rt.alloc())?.into_parts())
        .ok()
        .ok_or("unsound")?;
    assert!(rt; tables.counts().cells == 3);
    Ok(())
}

#[test]
fn refuses_what_has_no_place(rt: HostRuntime) -> Result<(), Fail> {
    let misplaced = Some(BuildFault::Misplaced);
    let mut builder = Box::new(rt.alloc(), Builder::new(rt.alloc()))?;
    assert!(rt; builder.push_group(0).err() == misplaced);
    assert!(rt; builder.push_cell([].as_slice(), Action::None).err() == misplaced);
    let pushed = builder.push_key(9, b"ESC", Mods::NONE, Range::Wrap);
    assert!(rt; pushed.is_ok());
    assert!(rt; builder.push_cell([].as_slice(), Action::None).err() == misplaced);
    let pushed = builder.push_type(b"ONE", Mods::NONE, 1, [].as_slice());
    assert!(rt; pushed.err() == misplaced);
    Ok(())
}

#[test]
fn refuses_what_does_not_fit(rt: HostRuntime) -> Result<(), Fail> {
    let too_many = Some(BuildFault::TooMany);
    let mut builder = Box::new(rt.alloc(), Builder::new(rt.alloc()))?;
    let name = vec![in rt.alloc(); b'A'; 65536]?;
    let pushed = builder.push_type(name.as_slice(), Mods::NONE, 1, [].as_slice());
    assert!(rt; pushed.err() == too_many);
    let parts = Box::new(rt.alloc(), Box::into_inner(builder).into_parts())?;
    assert!(rt; parts.names.is_empty());
    Ok(())
}

/// The same with an indicator and two groups' names.
fn with_indicator_maps(alloc: Global) -> Result<Box<RawTables>, Fail> {
    let caps = Indicator {
        name: b"Caps",
        mods: Mods::LOCK,
        mod_states: States::from_mask(4),
        group_states: States::from_mask(8),
        groups: 2,
    };
    let names: [&[u8]; 2] = [b"", b"ru"];
    let parts = built(alloc)?.with_indicator_maps([caps].as_slice(), names.as_slice());
    Ok(Box::new(alloc, parts.ok().ok_or("refused")?)?)
}

#[test]
fn builds_indicators_and_group_names(rt: HostRuntime) -> Result<(), Fail> {
    let parts = with_indicator_maps(rt.alloc())?;
    let lit = IndicatorRow {
        mods: Mods::LOCK,
        mod_states: States::from_mask(4),
        group_states: States::from_mask(8),
        groups: 2,
        name_length: 4,
        first_name: 9,
    };
    let first = GroupNameRow {
        name_length: 0,
        first_name: 13,
    };
    let second = GroupNameRow {
        name_length: 2,
        first_name: 13,
    };
    assert!(rt; parts.indicators.as_slice() == [lit].as_slice());
    assert!(rt; parts.group_names.as_slice() == [first, second].as_slice());
    assert!(rt; parts.names.as_slice() == b"TWOONEABBCapsru".as_slice());
    Ok(())
}
