ghost use Rattle.std.specs.Prelude.{◌≡◌, ℕ, List, Option, ◌<◌, ◌≤◌, length, take, IfOk, OnOk, OnErr};
ghost use Rattle.outside_io.specs.Outside.{Gained, GainedPrefix, Rose};

use thiserror::Error;

/// The most bytes that `write_all` offers in one call.
pub const PIECE: usize = 65_536;

/// The sink took nothing of the piece.
#[derive(Clone, Copy, Debug, Drop, Error, PartialEq, Eq)]
#[error("cannot write")]
pub struct SinkFailed;

/// A place to which bytes are written in order.
pub trait Sink {
    // All that was written, where the sink tells that.
    ghost written: { Self → Option (List ℕ) };

    // The number of writes that failed, which stays at 2 ^ 64 - 1 once there.
    ghost faults: { Self → ℕ };

    /// Appends the first bytes of the piece and returns how many: at least one, where it is not empty. Refuses where it can
    /// take none, and then nothing was written.
    fn write(&mut self, piece: &[u8]) -> Result<usize, SinkFailed>
        ensures within { IfOk result (λ n. n ≤ length piece.now) }
        ensures some { IfOk result (λ n. 0 < length piece.now → 0 < n) }
        ensures gained { IfOk result (λ n. Gained (written self.old) (written self.new) (take n piece.now)) }
        ensures failed { OnErr result (Rose (faults self.old) (faults self.new)) }
        ensures unchanged { OnErr result (written self.new ≡ written self.old) }
        ensures rising { faults self.old ≤ faults self.new };
}

/// Writes all bytes, each time offering the rest up to `PIECE` bytes. Refuses where one write fails, and then some first
/// bytes were written.
pub fn write_all<K: Sink>(out: &mut K, bytes: &[u8]) -> Result<(), SinkFailed>
    ensures gained { OnOk result (Gained (K.written out.old) (K.written out.new) bytes.now) }
    ensures failed { OnErr result (Rose (K.faults out.old) (K.faults out.new)) }
    ensures prefix { OnErr result (GainedPrefix (K.written out.old) (K.written out.new) bytes.now) }
    ensures rising { K.faults out.old ≤ K.faults out.new }
{
    let mut done = 0;
    while done < bytes.len() {
        let rest = &bytes[done..];
        done += out.write(&rest[..rest.len().min(PIECE)])?;
    }
    Ok(())
}
