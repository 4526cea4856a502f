// What the evidence of a run is judged. What rejected evidence comes to is told by the caller: after a run of all rows it may be that of
// a row with a null.
ghost use Rattle.std.specs.Prelude.{◌≡◌};
ghost use Rattle.rowloops.specs.Answers.{AttemptIs};

use colbase::{ArrayRef, RowError};

/// What a run gave.
#[derive(Drop)]
pub enum Attempt {
    /// The values, whose joined evidence is accepted.
    Values(ArrayRef),
    /// What the joined evidence of the rows that ran is judged.
    Rejected(RowError),
}

impl Attempt {
    /// The values, or what their joined evidence is judged.
    pub fn judged<V: Drop, E: FnOnce(V) -> Result<(), RowError>>(
        values: ArrayRef,
        evidence: V,
        finish_failure: E,
    ) -> Attempt
        requires { E.pre finish_failure evidence }
        ensures { AttemptIs (E.post finish_failure evidence) values result }
    {
        match finish_failure(evidence) {
            Ok(()) => Attempt::Values(values),
            Err(error) => Attempt::Rejected(error),
        }
    }
}
