//! Devices in memory, which are slow or fail, and what is put to them.
use ks_core::{BufferedOut, Feed, Lent, MemFeed, MemOut, Out, put_all};
use std::io;
use std::io::{ErrorKind, Write};
use std::process::Abort;
use std::test::Fail;

/// Asserts that two bytes are taken at most, and none once five were.
fn takes_and_fails(rt: &impl Abort) -> Result<(), Fail> {
    let mut feed = MemFeed::new(b"abcdef").with_most(2).failing_after(5);
    let mut buffer = [0u8; 4];
    assert!(rt; feed.take(&mut buffer)? == 2);
    assert!(rt; feed.take(&mut buffer[..1])? == 1);
    assert!(rt; feed.take(&mut buffer)? == 2);
    assert!(rt; buffer[0] == b'd');
    assert!(rt; feed.take(&mut [])? == 0);
    assert!(rt; feed.take(&mut buffer).is_err());
    assert!(rt; feed.take(&mut buffer).is_err());
    Ok(())
}

#[test]
fn takes_from_a_slice(rt: HostRuntime) -> Result<(), Fail> {
    takes_and_fails(&rt)?;
    let mut buffer = [0u8; 4];
    let mut feed = MemFeed::new(b"ab");
    assert!(rt; feed.take(&mut buffer)? == 2);
    assert!(rt; feed.take(&mut buffer)? == 0);
    let mut feed = MemFeed::new(b"ab").with_most(0);
    assert!(rt; feed.take(&mut buffer).is_err());
    Ok(())
}

/// Asserts that a device takes six bytes, four at a time.
fn fills(rt: &impl Abort, mut out: MemOut) -> Result<(), Fail> {
    assert!(rt; out.put(b"abcdefgh")? == 4);
    assert!(rt; out.put(b"efgh")? == 2);
    assert!(rt; out.put(b"")? == 0);
    assert!(rt; out.put(b"gh").is_err());
    assert!(rt; out.written() == b"abcdef".as_slice());
    Ok(())
}

/// Asserts that a device takes one byte and then fails.
fn fails_for_good(rt: &impl Abort, mut out: MemOut) -> Result<(), Fail> {
    assert!(rt; put_all(&mut out, b"xy").is_err());
    assert!(rt; out.written() == b"x".as_slice());
    assert!(rt; out.put(b"y").is_err());
    assert!(rt; out.put(b"")? == 0);
    assert!(rt; out.put(b"y").is_err());
    Ok(())
}

#[test]
fn puts_to_a_slice(rt: HostRuntime) -> Result<(), Fail> {
    let mut room = [0u8; 6];
    fills(&rt, MemOut::new(&mut room).with_most(4))?;
    fails_for_good(&rt, MemOut::new(&mut room).failing_after(1))?;
    let mut out = MemOut::new(&mut room).with_most(0);
    assert!(rt; out.put(b"x").is_err());
    Ok(())
}

/// Takes nothing, and says so.
#[derive(Drop)]
struct Stuck;

impl Write for Stuck {
    fn write(&mut self, _buf: &[u8]) -> io::Result<usize> {
        Ok(0)
    }

    fn flush(&mut self) -> io::Result<()> {
        Ok(())
    }
}

#[test]
fn lends_readers_and_writers(rt: HostRuntime) -> Result<(), Fail> {
    let mut feed = Lent::new(b"abc".as_slice());
    let mut buffer = [0u8; 8];
    assert!(rt; feed.take(&mut buffer)? == 3);
    assert!(rt; feed.take(&mut buffer)? == 0);
    assert!(rt; feed.failures == 0);
    let mut out = Lent::new(Vec::new(rt.alloc()));
    put_all(&mut out, b"abc")?;
    assert!(rt; out.device.as_slice() == b"abc".as_slice());
    let mut stuck = Lent::new(Stuck);
    assert!(rt; stuck.put(b"").ok() == Some(0));
    let fault = stuck.put(b"a").err().map(|fault| fault.kind());
    assert!(rt; fault == Some(ErrorKind::WriteZero));
    assert!(rt; stuck.failures == 1);
    Ok(())
}

#[test]
fn presses_pieces(rt: HostRuntime) -> Result<(), Fail> {
    let mut room = [0u8; 10000];
    let mut out = MemOut::new(&mut room).with_most(3000);
    let mut press = BufferedOut::new();
    let long = [b'x'; 5000];
    press.write(&mut out, b"ab");
    assert!(rt; out.written().len() == 0);
    press.flush(&mut out);
    assert!(rt; out.written() == b"ab".as_slice());
    press.write(&mut out, b"c");
    press.write(&mut out, &long);
    press.write(&mut out, b"d");
    press.finish(&mut out)?;
    let written = out.written();
    assert!(rt; written.len() == 5004);
    assert!(rt; &written[..4] == b"abcx".as_slice());
    assert!(rt; written[5003] == b'd');
    Ok(())
}

#[test]
fn remembers_a_fault(rt: HostRuntime) {
    let mut room = [0u8; 10];
    let mut out = MemOut::new(&mut room).failing_after(3);
    let mut press = BufferedOut::new();
    press.write(&mut out, b"abcd");
    press.flush(&mut out);
    press.write(&mut out, b"efgh");
    assert!(rt; press.finish(&mut out).is_err());
    assert!(rt; out.written() == b"abc".as_slice());
}
