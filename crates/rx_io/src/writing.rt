//! Sinks, and what writes to them.
ghost use Rattle.std.specs.Prelude.{◌≡◌, ◌≤◌, ℕ, List, OnErr, OnOk, Option};
ghost use Rattle.std.specs.Io.KnownBytes.{Appends, WriteAppends};
ghost use Rattle.std.specs.Io.{WritesAtMost};
ghost use Rattle.rx_io.specs.Causes.{Rose};
ghost use Rattle.rx_io.specs.Streams.{AppendsFront, TakesSome};

use crate::Failed;

/// What takes bytes.
pub trait Sink {
    // The bytes taken so far, where they are known.
    ghost held: { Self → Option (List ℕ) };

    // How often it has failed. The count ends at 2 ^ 64 - 1 and never falls.
    ghost faults: { Self → ℕ };

    /// Takes bytes from the front of `piece`, and answers how many: at least one, if the piece has
    /// any. `Failed` means that the sink failed and took nothing.
    fn write(&mut self, piece: &[u8]) -> Result<usize, Failed>
        ensures bound { WritesAtMost result piece.now }
        ensures some { TakesSome result piece.now }
        ensures bytes { WriteAppends (held self.old) (held self.new) result piece.now }
        ensures count { faults self.old ≤ faults self.new }
        ensures cause { OnErr result (Rose (faults self.old) (faults self.new)) }
        ensures steady { OnOk result (faults self.new ≡ faults self.old) };
}

/// Writes the whole piece, in as many calls as the sink needs. Where a call fails, the sink has taken
/// a front of the piece, perhaps nothing. Takes no memory.
pub fn put_all<K: Sink>(sink: &mut K, piece: &[u8]) -> Result<(), Failed>
    ensures ok { OnOk result (Appends (K.held sink.old) (K.held sink.new) piece.now) }
    ensures err { OnErr result (AppendsFront (K.held sink.old) (K.held sink.new) piece.now) }
    ensures count { K.faults sink.old ≤ K.faults sink.new }
    ensures cause { OnErr result (Rose (K.faults sink.old) (K.faults sink.new)) }
    ensures steady { OnOk result (K.faults sink.new ≡ K.faults sink.old) }
{
    let mut taken = 0;
    while taken < piece.len() {
        taken += sink.write(&piece[taken..])?;
    }
    Ok(())
}
