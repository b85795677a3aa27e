//! A sink for bytes.
ghost use Rattle.std.specs.Prelude.{◌≡◌, ℕ, ◌-◌, ◌<◌, ◌≤◌, List, Option, length, take, drop, IfOk, OnOk, OnErr};
ghost use Rattle.std.specs.Io.KnownBytes.{append_known};
ghost use Rattle.smt_io.specs.Faults.{Rose};
ghost use Rattle.smt_io.specs.Written.{AppendsPart};

use thiserror::Error;

/// A piece can't be written.
#[derive(Clone, Copy, Debug, PartialEq, Eq, Error)]
#[error("the output could not be written")]
pub struct SinkFailed;

/// What bytes are written to.
pub trait Sink {
    /// The bytes written so far. None: nothing is told about them.
    ghost contents: { Self → Option (List ℕ) };

    /// How many faults were met; at 2^64 - 1 the count stops.
    ghost faults: { Self → ℕ };

    /// Writes a front part of the piece behind what was written, and gives its length, at least 1 where
    /// the piece isn't empty. A write that fails has written nothing.
    fn write(&mut self, piece: &[u8]) -> Result<usize, SinkFailed>
        ensures bound { IfOk result (λ n. n ≤ length piece.now) }
        ensures some { IfOk result (λ n. 0 < length piece.now → 0 < n) }
        ensures appended { IfOk result (λ n. contents self.new ≡ append_known (contents self.old) (take n piece.now)) }

        // It fails only where the count rose.
        ensures failed { OnErr result (Rose (faults self.old) (faults self.new)) }
        ensures unchanged { OnErr result (contents self.new ≡ contents self.old) }
        ensures count_stays { faults self.old ≤ faults self.new };
}

/// Writes a whole piece. It answers `SinkFailed` only where the count of faults rose in the call, and
/// then a front part of the piece was written. It takes no memory.
pub fn write_all<K: Sink>(out: &mut K, piece: &[u8]) -> Result<(), SinkFailed>
    ensures appended { OnOk result (K.contents out.new ≡ append_known (K.contents out.old) piece.now) }
    ensures part { OnErr result (AppendsPart (K.contents out.old) (K.contents out.new) piece.now) }
    ensures failed { OnErr result (Rose (K.faults out.old) (K.faults out.new)) }
    ensures count_stays { K.faults out.old ≤ K.faults out.new }
{
    let mut written = 0;
    while written < piece.len() {
        written = write_on(out, piece, written)?;
    }
    Ok(())
}

// One write of what stands from `written` on in the piece. It gives the place up to which the piece is
// written then.
fn write_on<K: Sink>(out: &mut K, piece: &[u8], written: usize) -> Result<usize, SinkFailed>
    requires { written < length piece.now }
    ensures further { IfOk result (λ end. written < end) }
    ensures within { IfOk result (λ end. end ≤ length piece.now) }
    ensures appended { IfOk result (λ end. K.contents out.new ≡ append_known (K.contents out.old) (take (end - written) (drop written piece.now))) }
    ensures unchanged { OnErr result (K.contents out.new ≡ K.contents out.old) }
    ensures failed { OnErr result (Rose (K.faults out.old) (K.faults out.new)) }
    ensures count_stays { K.faults out.old ≤ K.faults out.new }
{
    Ok(written + out.write(&piece[written..])?)
}
