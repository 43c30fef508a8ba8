//! Text in many pieces for a device, which is put in few.
ghost use Rattle.std.specs.Prelude.{◌≡◌, ◌+◌, ◌≤◌, ◌++◌, [], true, false, length};
ghost use Rattle.ks_core.specs.Device.{Puts};
ghost use Rattle.ks_core.specs.BufferedOut.{Writes, Finishes, nothing_gathered};

use crate::device::Out;
use std::io;
use std::marker::Model;

/// How many bytes are gathered before they are put.
const CHUNK: usize = 4096;

/// Puts all of the text, in as many calls as the device needs. An error is that of the call that failed.
pub fn put_all<O: Out>(out: &mut O, text: &[u8]) -> io::Result<()>
    ensures { Puts O.written O.failures out.old out.new result text.now }
{
    let mut rest = text;
    while !rest.is_empty() {
        let n = out.put(rest)?;
        rest = rest.split_at(n).1;
    }
    Ok(())
}

/// Gathers pieces of text for a device, and puts them in chunks.
///
/// A piece is taken and nothing answered. Once the device fails no more is put, and `finish` answers the error.
#[derive(Drop)]
pub struct BufferedOut {
    chunk: [u8; CHUNK],
    len: usize,
    fault: Option<io::Error>,
}

impl Model for BufferedOut {
    ghost use Rattle.std.specs.Prelude.{◌≤◌, take, is_some};
    ghost use Rattle.ks_core.specs.BufferedOut.{Gathered};

    ghost Value = { Gathered };

    ghost view = { λ s. record { waiting = take s.len s.chunk; failed = is_some s.fault } };

    ghost invariant = { λ s. s.len ≤ 4096 };
}

impl BufferedOut {
    /// A buffer with nothing gathered.
    pub fn new() -> BufferedOut
        ensures { result ≡ nothing_gathered }
    {
        BufferedOut {
            chunk: [0; CHUNK],
            len: 0,
            fault: None,
        }
    }

    /// Takes the next piece of the text.
    #[inline(always)]
    pub fn write<O: Out>(&mut self, out: &mut O, piece: &[u8])
        ensures { Writes O.written O.failures out.old self.old out.new self.new piece.now }
    {
        if piece.len() > self.room() {
            self.flush(out);
        }
        if piece.len() > self.room() {
            self.send(out, piece);
        } else {
            self.gather(piece);
        }
    }

    /// Puts what is gathered.
    pub fn flush<O: Out>(&mut self, out: &mut O)
        ensures told { Writes O.written O.failures out.old self.old out.new self.new [] }
        ensures empty { self.new.failed ≡ false → self.new.waiting ≡ [] }
    {
        if self.fault.is_none() {
            match put_all(out, &self.chunk[..self.len]) {
                Ok(()) => self.len = 0,
                Err(fault) => self.fault = Some(fault),
            }
        }
    }

    /// Puts what is gathered, and answers the first error of the device.
    pub fn finish<O: Out>(mut self, out: &mut O) -> io::Result<()>
        ensures { Finishes O.written O.failures out.old self out.new result }
    {
        self.flush(out);
        match self.fault {
            Some(fault) => Err(fault),
            None => Ok(()),
        }
    }

    /// How many more bytes can be gathered.
    fn room(&self) -> usize
        ensures { result + length self.now.waiting ≡ 4096 }
    {
        CHUNK - self.len
    }

    /// Puts a piece that nothing waits before.
    fn send<O: Out>(&mut self, out: &mut O, piece: &[u8])
        requires { self.old.failed ≡ false → self.old.waiting ≡ [] }
        ensures { Writes O.written O.failures out.old self.old out.new self.new piece.now }
    {
        if self.fault.is_none() {
            if let Err(fault) = put_all(out, piece) {
                self.fault = Some(fault);
            }
        }
    }

    /// Adds a piece to what waits.
    #[inline(always)]
    fn gather(&mut self, piece: &[u8])
        requires { length self.old.waiting + length piece.now ≤ 4096 }
        ensures still { self.old.failed ≡ true → self.new ≡ self.old }
        ensures gathered { self.old.failed ≡ false
            → self.new ≡ record { waiting = self.old.waiting ++ piece.now; failed = false } }
    {
        if self.fault.is_none() {
            let end = self.len + piece.len();
            self.chunk[self.len..end].copy_from_slice(piece);
            self.len = end;
        }
    }
}
