// The loop that writes a whole text.
ghost use Rattle.std.specs.Prelude.{◌≤◌, ℕ, List, OnOk, OnErr};
ghost use Rattle.rowtext.specs.Bytes.{Grows, IsProperPrefix};
ghost use Rattle.rowtext.specs.FaultCounts.{HasRisen};

use crate::{Sink, SinkFailed};

/// Writes all the bytes, in as many calls as the sink needs. It takes no memory.
///
/// After a failure the sink holds a proper prefix of them, and nothing more is written.
pub fn write_whole<K: Sink>(sink: &mut K, bytes: &[u8]) -> Result<(), SinkFailed>
    ensures whole { OnOk result (Grows (K.held sink.old) bytes.now (K.held sink.new)) }
    ensures prefix { OnErr result ((prefix : List ℕ)
        × IsProperPrefix prefix bytes.now × Grows (K.held sink.old) prefix (K.held sink.new)) }
    ensures cause { OnErr result (HasRisen (K.faults sink.old) (K.faults sink.new)) }
    ensures no_lower { K.faults sink.old ≤ K.faults sink.new }
{
    let mut at = 0;
    while at < bytes.len() {
        at += sink.write(&bytes[at..])?;
    }
    Ok(())
}
