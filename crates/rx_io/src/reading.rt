//! Sources, and what reads them.
ghost use Rattle.std.specs.Prelude.{◌≡◌, ◌≤◌, ℕ, List, IfOk, OnErr, OnOk, Option, IsErrOf, vec_len};
ghost use Rattle.std.specs.Io.KnownBytes.{Consumes, IsAtEnd, ReadConsumes};
ghost use Rattle.std.specs.Io.{ReadsAtMost};
ghost use Rattle.rx_io.specs.Causes.{Rose};
ghost use Rattle.rx_io.specs.Streams.{GivesAll, IsLongerThan, LosesBeyond, LosesUpTo, read_size};

use crate::{Failed, ReadAllFault};
use std::alloc::{AllocError, Global};

/// What gives bytes.
pub trait Source {
    // The bytes still to come, where they are known.
    ghost left: { Self → Option (List ℕ) };

    // How often it has failed. The count ends at 2 ^ 64 - 1 and never falls.
    ghost faults: { Self → ℕ };

    /// Puts the next bytes at the front of `buf`, and answers how many. No byte into a buffer that
    /// has room is the end of the input. `Failed` means that the source failed and lost nothing.
    fn read(&mut self, buf: &mut [u8]) -> Result<usize, Failed>
        ensures bound { ReadsAtMost result buf.new }
        ensures bytes { ReadConsumes (left self.old) (left self.new) result buf.new }
        ensures count { faults self.old ≤ faults self.new }
        ensures cause { OnErr result (Rose (faults self.old) (faults self.new)) }
        ensures steady { OnOk result (faults self.new ≡ faults self.old) };
}

/// How many bytes `read_all` asks of a source at a time.
const READ_SIZE: usize = 65_536;

/// Reads a source to its end, and answers all its bytes.
///
/// `TooLong` comes where more than `most` bytes came before an end or a failure; the source has then
/// lost at most 65,536 bytes more than `most`. At `Failed` and `NoMemory` it has lost at most
/// `most` bytes. `Failed` comes only where the source failed in this call, and at every other answer
/// it did not fail.
pub fn read_all<S: Source>(alloc: Global, src: &mut S, most: u64) -> Result<Vec<u8>, ReadAllFault>
    ensures ok { IfOk result (λ bytes. Consumes (S.left src.old) (S.left src.new) bytes.items) }
    ensures end { OnOk result (IsAtEnd (S.left src.new)) }
    ensures within { IfOk result (λ bytes. vec_len bytes ≤ most) }
    ensures too_long { IsErrOf result ReadAllFault.TooLong
        → LosesBeyond (S.left src.old) (S.left src.new) most read_size }
    ensures failed { IsErrOf result ReadAllFault.Failed
        → LosesUpTo (S.left src.old) (S.left src.new) most }
    ensures no_memory { IsErrOf result ReadAllFault.NoMemory
        → LosesUpTo (S.left src.old) (S.left src.new) most }

    // Where the bytes are known.
    ensures whole { IfOk result (λ bytes. GivesAll (S.left src.old) (S.left src.new) bytes.items) }
    ensures longer { IsErrOf result ReadAllFault.TooLong → IsLongerThan (S.left src.old) most }

    // The source's failures.
    ensures count { S.faults src.old ≤ S.faults src.new }
    ensures cause { IsErrOf result ReadAllFault.Failed
        → Rose (S.faults src.old) (S.faults src.new) }
    ensures steady { OnOk result (S.faults src.new ≡ S.faults src.old) }
    ensures steady_too_long { IsErrOf result ReadAllFault.TooLong → S.faults src.new ≡ S.faults src.old }
    ensures steady_no_memory { IsErrOf result ReadAllFault.NoMemory → S.faults src.new ≡ S.faults src.old }
{
    let mut buffer = read_buffer(alloc)?;
    let mut bytes = Vec::new(alloc);
    loop {
        let count = src.read(&mut buffer)?;
        if count == 0 {
            return Ok(bytes);
        }
        if most - (bytes.len() as u64) < count as u64 {
            return Err(ReadAllFault::TooLong);
        }
        bytes.extend_from_slice(&buffer[..count])?;
    }
}

/// Zeros for a read to write over. It stands apart so that no other proof meets so long a list.
fn read_buffer(alloc: Global) -> Result<Vec<u8>, AllocError>
    ensures { IfOk result (λ buffer. vec_len buffer ≡ read_size) }
{
    vec![in alloc; 0; READ_SIZE]
}
