// Where text goes to. What it holds and how often it failed are ghost, so that clauses can name the cause of an error.
ghost use Rattle.std.specs.Prelude.{◌≡◌, ◌≤◌, ◌<◌, ℕ, List, Option, length, take, IfOk, OnErr};
ghost use Rattle.rowtext.specs.Bytes.{Grows};
ghost use Rattle.rowtext.specs.FaultCounts.{Counts, HasRisen};

use thiserror::Error;

/// A sink could not take the next bytes.
#[derive(Debug, Drop, Error)]
#[error("sink failed")]
pub struct SinkFailed;

/// Takes bytes, a piece at a call.
pub trait Sink {
    /// The bytes that the sink holds, where it tells them.
    ghost held: { Self → Option (List ℕ) };

    /// How often the sink has failed, up to the last value of a `u64`.
    ghost faults: { Self → ℕ };

    /// Takes a prefix of the bytes, at least one byte where there are some, and gives its length.
    ///
    /// A sink that can take nothing fails. After a failure it holds what it held before.
    fn write(&mut self, bytes: &[u8]) -> Result<usize, SinkFailed>
        ensures count { IfOk result (λ n. n ≤ length bytes.now) }
        ensures some { IfOk result (λ n. 0 < length bytes.now → 0 < n) }
        ensures bytes { IfOk result (λ n. Grows (held self.old) (take n bytes.now) (held self.new)) }
        ensures kept { OnErr result (held self.new ≡ held self.old) }
        ensures counts { Counts (faults self.old) (faults self.new) }
        ensures cause { OnErr result (HasRisen (faults self.old) (faults self.new)) };
}
