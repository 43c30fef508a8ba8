//! The printed text of tables.
use ks_core::MemOut;
use kx_builder::{BuildFault, Builder};
use kx_mods::Mods;
use kx_print::print;
use kx_tables::{Action, Owned, Range, RawTables};
use std::alloc::Global;
use std::test::Fail;

const SAMPLE: &str = "xkb_keymap {
xkb_keycodes {
<A>= 38;
};
xkb_types {
type \"ONE_LEVEL\" {
modifiers= none;
level_name[1]= \"\";
};
};
xkb_symbols {
key <A> {
type[1]= \"ONE_LEVEL\",
symbols[1]= [ a ],
actions[1]= [ NoAction() ]
};
};
};
";

/// The tables of the sample: `<A>` with the keysym a.
fn sample(alloc: Global) -> Result<Builder, BuildFault> {
    let mut builder = Builder::new(alloc);
    builder.push_type(b"ONE_LEVEL", Mods::NONE, 1, [].as_slice())?;
    builder.push_key(38, b"A", Mods::NONE, Range::Wrap)?;
    builder.push_group(0)?;
    builder.push_cell([0x61].as_slice(), Action::None)?;
    Ok(builder)
}

fn owned(parts: RawTables) -> Result<Owned, Fail> {
    Ok(Owned::new(parts).ok().ok_or("unsound")?)
}

fn sample_tables(alloc: Global) -> Result<Owned, Fail> {
    owned(sample(alloc).ok().ok_or("refused")?.into_parts())
}

/// Whether a writer that takes a byte at a time gets the sample's text.
fn prints_slowly(tables: &Owned) -> bool {
    let mut room = [0; 2048];
    let mut slow = MemOut::new(&mut room).with_most(1);
    print(tables, &mut slow).is_ok() && slow.written() == SAMPLE.as_bytes()
}

/// Whether printing fails with a writer that fails after `n` bytes, and puts a beginning of the sample's text.
fn prints_a_beginning(tables: &Owned, n: usize) -> bool {
    let mut room = [0; 2048];
    let mut broken = MemOut::new(&mut room).failing_after(n);
    print(tables, &mut broken).is_err() && SAMPLE.as_bytes().starts_with(broken.written())
}

#[test]
fn prints_to_slow_and_broken_writers(rt: HostRuntime) -> Result<(), Fail> {
    let tables = sample_tables(rt.alloc())?;
    assert!(rt; prints_slowly(&tables));
    for n in 0..SAMPLE.len() {
        assert!(rt; prints_a_beginning(&tables, n), "failing at {n}");
    }
    Ok(())
}
