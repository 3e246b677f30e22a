//! Sinks, to which bytes are written in order.
ghost use Rattle.std.specs.Prelude.{ℕ, ◌<◌, ◌≤◌, List, length, take, Option, IfOk, OnOk, OnErr};
ghost use Rattle.std.specs.Io.KnownBytes.{Appends, Keeps};
ghost use Rattle.hw_io.specs.Faults.{Rose};
ghost use Rattle.hw_io.specs.Writing.{AppendsPrefix};

use crate::faults::Failed;

/// What bytes are written to.
pub trait Sink {
    // What was written, where it is told.
    ghost written: { Self → Option (List ℕ) };

    // How often a write failed. It never falls, and stays at 2^64 - 1.
    ghost faults: { Self → ℕ };

    /// Writes bytes from the front of `bytes`, and answers how many: at least one where there is
    /// one. `Failed` writes nothing, and comes only where the count of faults rose.
    fn put(&mut self, bytes: &[u8]) -> Result<usize, Failed>
        ensures fits { IfOk result (λ n. n ≤ length bytes.now) }
        ensures some { IfOk result (λ n. 0 < length bytes.now → 0 < n) }
        ensures appended { IfOk result (λ n. Appends (written self.old) (written self.new) (take n bytes.now)) }
        ensures unchanged { OnErr result (Keeps (written self.old) (written self.new)) }
        ensures failed { OnErr result (Rose (faults self.old) (faults self.new)) }
        ensures never_falls { faults self.old ≤ faults self.new };
}

/// Writes all of the bytes. At `Failed` the sink gained a prefix of them.
pub fn write_whole<S: Sink>(sink: &mut S, bytes: &[u8]) -> Result<(), Failed>
    ensures appended { OnOk result (Appends (S.written sink.old) (S.written sink.new) bytes.now) }
    ensures prefix { OnErr result (AppendsPrefix (S.written sink.old) (S.written sink.new) bytes.now) }
    ensures failed { OnErr result (Rose (S.faults sink.old) (S.faults sink.new)) }
    ensures never_falls { S.faults sink.old ≤ S.faults sink.new }
{
    let mut taken = 0;
    while taken < bytes.len() {
        taken += sink.put(&bytes[taken..])?;
    }
    Ok(())
}
