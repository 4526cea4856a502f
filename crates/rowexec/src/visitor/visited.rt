// What the executing visitor answers, and what follows of it. A fault of the execution stands within, beside the counts; the visit
// itself fails only by want of memory, as a dispatch does.
ghost use Rattle.std.specs.Prelude.{◌≡◌, ◌<◌, ◌+◌, ◌^◌, ⊤, Err, Ok, None, Some, MatchOption, MatchResult};
ghost use Rattle.rowloops.specs.declared.attempt.Attempt.TheVariants.{Values};
ghost use Rattle.rowexec.specs.RowRuns.{Decides, JudgedAs};

use bitlane::NoFailure;
use colbase::{ArrayRef, Fault, Res, RowError};
use rowloops::Attempt;

/// What a visit answered, and how often it called.
#[derive(Drop)]
pub(crate) struct Visited<T> {
    /// A fault of the execution stands here.
    pub answer: Res<T>,
    /// The calls of `prepare`.
    pub prepares: u128,
    /// The calls of the callback, one for each row that ran.
    pub steps: u128,
}

impl<T> Visited<T> {
    /// A visit that ended before any row ran.
    pub(crate) fn before_the_rows(answer: Res<T>, prepares: u128) -> Visited<T>
        ensures answer { result.answer ≡ answer }
        ensures prepares { result.prepares ≡ prepares }
        ensures steps { result.steps ≡ 0 }
    {
        Visited {
            answer,
            prepares,
            steps: 0,
        }
    }

    /// The same after an earlier visit with these calls.
    pub(crate) fn after(self, prepares: u128, steps: u128) -> Visited<T>
        requires prepares { prepares + self.prepares < 2 ^ 128 }
        requires steps { steps + self.steps < 2 ^ 128 }
        ensures answer { result.answer ≡ self.answer }
        ensures prepares { result.prepares ≡ prepares + self.prepares }
        ensures steps { result.steps ≡ steps + self.steps }
    {
        Visited {
            answer: self.answer,
            prepares: prepares + self.prepares,
            steps: steps + self.steps,
        }
    }
}

impl<V: Drop> Visited<Option<(ArrayRef, V)>> {
    /// A visit whose rows ran.
    pub(crate) fn ran(answer: Res<(ArrayRef, V)>, steps: u128) -> Visited<Option<(ArrayRef, V)>>
        ensures answer { MatchResult answer (λ r. result.answer ≡ Ok (Some r)) (λ e. result.answer ≡ Err e) }
        ensures prepares { result.prepares ≡ 1 }
        ensures steps { result.steps ≡ steps }
    {
        let answer = match answer {
            Ok(joined) => Ok(Some(joined)),
            Err(fault) => Err(fault),
        };
        Visited {
            answer,
            prepares: 1,
            steps,
        }
    }

    /// The same, once the joined evidence is judged.
    pub(crate) fn judged<E: FnOnce(V) -> Result<(), RowError>>(
        self,
        finish_failure: E,
    ) -> Visited<Option<Attempt>>
        requires { MatchResult self.answer (λ o. MatchOption o ⊤ (λ r. E.pre finish_failure r.1)) (λ e. ⊤) }
        ensures answer { JudgedAs (λ v. E.post finish_failure v) self.answer result.answer }
        ensures prepares { result.prepares ≡ self.prepares }
        ensures steps { result.steps ≡ self.steps }
    {
        let told = self.answer;
        let answer = match told {
            Ok(Some((values, evidence))) => Ok(Some(Attempt::judged::<V, E>(
                values,
                evidence,
                finish_failure,
            ))),
            Ok(None) => Ok(None),
            Err(fault) => Err(fault),
        };
        Visited {
            answer,
            prepares: self.prepares,
            steps: self.steps,
        }
    }
}

impl Visited<Option<(ArrayRef, NoFailure)>> {
    /// The same as an attempt, in which nothing can be rejected.
    pub(crate) fn accepted(self) -> Visited<Option<Attempt>>
        ensures answer { MatchResult self.answer
            (λ o. MatchOption o (result.answer ≡ Ok None) (λ r. result.answer ≡ Ok (Some (Values r.0)))) (λ e. result.answer ≡ Err e) }
        ensures prepares { result.prepares ≡ self.prepares }
        ensures steps { result.steps ≡ self.steps }
    {
        let told = self.answer;
        let answer = match told {
            Ok(Some((values, NoFailure))) => Ok(Some(Attempt::Values(values))),
            Ok(None) => Ok(None),
            Err(fault) => Err(fault),
        };
        Visited {
            answer,
            prepares: self.prepares,
            steps: self.steps,
        }
    }
}

impl Visited<Option<Attempt>> {
    /// The same where no row but those that count ran, so that rejected evidence is a fault.
    pub(crate) fn decided(self) -> Visited<Option<ArrayRef>>
        ensures answer { Decides self.answer result.answer }
        ensures prepares { result.prepares ≡ self.prepares }
        ensures steps { result.steps ≡ self.steps }
    {
        let told = self.answer;
        let answer = match told {
            Ok(Some(Attempt::Values(values))) => Ok(Some(values)),
            Ok(Some(Attempt::Rejected(error))) => Err(Fault::Row(error)),
            Ok(None) => Ok(None),
            Err(fault) => Err(fault),
        };
        Visited {
            answer,
            prepares: self.prepares,
            steps: self.steps,
        }
    }
}
