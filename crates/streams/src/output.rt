// Lines to a writer, through memory in which they wait.
ghost use Rattle.std.specs.Prelude.{◌≡◌, [], ◌++◌, true, false, OnOk, OnErr};
ghost use Rattle.std.specs.Io.KnownBytes.{Appends};
ghost use Rattle.streams.specs.Output.{Prints};

use std::io;
use std::io::Write;
use std::marker::Model;

// Bytes that wait to be written, in fixed memory.
#[derive(Drop)]
pub struct Waiting {
    bytes: [u8; 65536],
    len: usize,
}

impl Model for Waiting {
    ghost use Rattle.std.specs.Prelude.{ℕ, ◌≤◌, List, take};

    ghost Value = { List ℕ };

    ghost view = { λ w. take w.len w.bytes };

    ghost invariant = { λ w. w.len ≤ 65536 };
}

impl Waiting {
    pub fn new() -> Waiting
        ensures { result ≡ [] }
    {
        Waiting {
            bytes: [0; 65536],
            len: 0,
        }
    }

    // Whether there is room for more bytes; they wait too then.
    fn keep(&mut self, bytes: &[u8]) -> bool
        ensures kept { result ≡ true → self.new ≡ self.old ++ bytes.now }
        ensures full { result ≡ false → self.new ≡ self.old }
    {
        match text::put(&mut self.bytes, self.len, bytes) {
            Some(len) => {
                self.len = len;
                true
            }
            None => false,
        }
    }

    // Bytes behind those that wait. Where there is no room, those are written first, and these too where they are more than the
    // memory holds.
    pub fn print<W: Write>(&mut self, sink: &mut W, bytes: &[u8]) -> io::Result<()>
        ensures { OnOk result (Prints (W.contents sink.old) self.old bytes.now (W.contents sink.new) self.new) }
    {
        if self.keep(bytes) {
            return Ok(());
        }
        self.flush(sink)?;
        if self.keep(bytes) {
            return Ok(());
        }
        sink.write_all(bytes)
    }

    // All that wait are written, and none waits then; where that fails, they wait as before.
    pub fn flush<W: Write>(&mut self, sink: &mut W) -> io::Result<()>
        ensures written { OnOk result (Appends (W.contents sink.old) (W.contents sink.new) self.old) }
        ensures none { OnOk result (self.new ≡ []) }
        ensures failed { OnErr result (self.new ≡ self.old) }
    {
        self.write(sink)?;
        self.len = 0;
        Ok(())
    }

    fn write<W: Write>(&self, sink: &mut W) -> io::Result<()>
        ensures { OnOk result (Appends (W.contents sink.old) (W.contents sink.new) self.now) }
    {
        sink.write_all(&self.bytes[..self.len])
    }
}
