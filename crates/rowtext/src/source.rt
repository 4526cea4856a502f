// Where bytes come from. What is left and how often it failed are ghost, so that clauses can name the cause of an error.
ghost use Rattle.std.specs.Prelude.{◌≡◌, ◌≤◌, ◌<◌, ℕ, List, Option, length, take, IfOk, OnErr};
ghost use Rattle.rowtext.specs.Bytes.{Takes, IsAtEnd};
ghost use Rattle.rowtext.specs.FaultCounts.{Counts, HasRisen};

use thiserror::Error;

/// A source could not give its next bytes.
#[derive(Debug, Drop, Error)]
#[error("source failed")]
pub struct SourceFailed;

/// Gives bytes, a piece at a call, until its end.
pub trait Source {
    /// The bytes still to come, where the source tells them.
    ghost left: { Self → Option (List ℕ) };

    /// How often the source has failed, up to the last value of a `u64`.
    ghost faults: { Self → ℕ };

    /// Puts the next bytes at the start of the buffer, and gives their number.
    ///
    /// No bytes for a buffer with room are the end of the input. After a failure the same bytes are still to come.
    fn read(&mut self, buf: &mut [u8]) -> Result<usize, SourceFailed>
        ensures count { IfOk result (λ n. n ≤ length buf.new) }
        ensures bytes { IfOk result (λ n. Takes (left self.old) (take n buf.new) (left self.new)) }
        ensures end { IfOk result (λ n. n ≡ 0 → 0 < length buf.new → IsAtEnd (left self.new)) }
        ensures kept { OnErr result (left self.new ≡ left self.old) }
        ensures counts { Counts (faults self.old) (faults self.new) }
        ensures cause { OnErr result (HasRisen (faults self.old) (faults self.new)) };
}
