// A page of bytes that gathers small pieces for a sink.
ghost use Rattle.std.specs.Prelude.{◌≡◌, ◌≤◌, ◌+◌, [], ◌++◌, length, IsTrue, ◌↔◌, OnErr, OnOk};
ghost use Rattle.std.specs.Bool.{OnFalse};
ghost use Rattle.std.specs.Io.KnownBytes.{Appends};
ghost use Rattle.rx_io.specs.Causes.{Rose};
ghost use Rattle.rx_io.specs.Streams.{AppendsFront};
ghost use Rattle.net_text.specs.Gathered.{PutsBehind};

use rx_io::{Failed, Sink, put_all};
use std::marker::Model;

/// The most bytes that wait in a page.
const PAGE_BYTES: usize = 4096;

/// Bytes that wait for a sink, so that it is called once for many small pieces. Contracts see the bytes that wait.
#[derive(Drop)]
pub struct Page {
    bytes: [u8; PAGE_BYTES],
    count: usize,
}

impl Model for Page {
    ghost use Rattle.std.specs.Prelude.{List, ℕ, ◌≤◌, take};

    ghost Value = { List ℕ };

    ghost view = { λ p. take p.count p.bytes };

    ghost invariant = { λ p. p.count ≤ 4096 };
}

impl Page {
    /// A page in which nothing waits.
    pub fn new() -> Page
        ensures { result ≡ [] }
    {
        Page {
            bytes: [0; PAGE_BYTES],
            count: 0,
        }
    }

    /// Gives the piece to the sink, behind the bytes that wait, or lets it wait with them.
    pub fn put<K: Sink>(&mut self, sink: &mut K, piece: &[u8]) -> Result<(), Failed>
        ensures bytes { PutsBehind result (K.held sink.old) (K.held sink.new) self.old self.new
            piece.now }
        ensures never_falls { K.faults sink.old ≤ K.faults sink.new }
        ensures cause { OnErr result (Rose (K.faults sink.old) (K.faults sink.new)) }
    {
        if self.append(piece) {
            return Ok(());
        }
        self.flush(sink)?;
        if self.append(piece) {
            return Ok(());
        }
        put_all(sink, piece)
    }

    /// Gives the bytes that wait to the sink.
    pub fn flush<K: Sink>(&mut self, sink: &mut K) -> Result<(), Failed>
        ensures ok { OnOk result (Appends (K.held sink.old) (K.held sink.new) self.old) }
        ensures empty { OnOk result (self.new ≡ []) }
        ensures failed { OnErr result (AppendsFront (K.held sink.old) (K.held sink.new) self.old) }
        ensures never_falls { K.faults sink.old ≤ K.faults sink.new }
        ensures cause { OnErr result (Rose (K.faults sink.old) (K.faults sink.new)) }
    {
        put_all(sink, &self.bytes[..self.count])?;
        self.count = 0;
        Ok(())
    }

    /// Lets the piece wait too, and answers `true`, exactly where it fits.
    fn append(&mut self, piece: &[u8]) -> bool
        ensures fits { IsTrue result ↔ (length self.old + length piece.now ≤ PAGE_BYTES) }
        ensures appended { IsTrue result → self.new ≡ self.old ++ piece.now }
        ensures kept { OnFalse result (self.new ≡ self.old) }
    {
        let end = self.count + piece.len();
        if end > PAGE_BYTES {
            return false;
        }
        self.bytes[self.count..end].copy_from_slice(piece);
        self.count = end;
        true
    }
}
