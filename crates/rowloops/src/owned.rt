// The run over a domain of rows: which loop goes over the rows is chosen here, once for all functions whose callback gives one value a row.
// A run that writes into a sink needs one visitor beside `BuildRows`, with the same three arms.
ghost use Rattle.std.specs.Prelude.{◌≡◌, ◌<◌, ℕ, true};
ghost use Rattle.std.specs.Borrow.{Bor};
ghost use Rattle.rowtypes.specs.Rows.{each_length};
ghost use Rattle.rowloops.specs.Answers.{AnswersLent};
ghost use Rattle.rowloops.specs.Domain.{RunsOver, domain_of};

use crate::checked::build_checked;
use crate::domain::RowDomain;
use crate::filtered::build_filtered_rows;
use crate::valid_rows::build_valid_rows;
use bitlane::{FailureEvidence, IndexedSource};
use colbase::{ArrayRef, ExecutionCtx, Res};
use rowtypes::{ElementTuple, IndexedElementTuple, OutputElement, RowsVisitor};
use std::marker::PhantomData;

/// The values of the answers of a callback to the rows of a domain, as a column without nulls whose other rows hold the default; the
/// evidence that is joined over them; and how often the callback was called. The callback is lent the prepared value. It is owned here,
/// so that the built code needn't read it anew for each row. Whether an argument is one value or a column is told before the loop.
/// A callback that doesn't fail gives [`NoFailure`](bitlane::NoFailure), which takes no room and no step.
pub fn execute_owned<
    Args: IndexedElementTuple,
    Out: OutputElement,
    V: FailureEvidence,
    P: Drop,
    A: Fn(&P, Args::Elems) -> (Out, V),
>(
    columns: &Args::Columns,
    domain: RowDomain,
    prepared: P,
    apply: A,
    ctx: ExecutionCtx,
) -> (Res<(ArrayRef, V)>, u128)
    requires lengths { each_length (domain_of domain).width (Args.lengths columns.now) ≡ true }
    requires callable { (i : ℕ) (e : Args.Elems) (q : Bor P) → i < (domain_of domain).width → (domain_of domain).selected i ≡ true
        → Args.cells e ≡ Args.shows columns.now i → q.now ≡ prepared → A.pre apply q e }
    ensures { RunsOver V.join V.neutral (domain_of domain.entry) (λ i e. Args.cells e ≡ Args.shows columns.now i)
        (AnswersLent (A.post apply) prepared)
        Out.states Out.element_type result.0 result.1 }
{
    let visitor = BuildRows::<Args, Out, V, P, A> {
        columns,
        domain,
        prepared,
        apply,
        output: PhantomData,
        ctx,
    };
    Args::visit_rows(columns, domain.width(), visitor)
}

/// Builds a column of the values of a callback's answers, and joins their evidence.
#[derive(Drop)]
struct BuildRows<'a, Args: ElementTuple, Out, V, P, A> {
    columns: &'a Args::Columns,
    domain: RowDomain<'a>,
    prepared: P,
    apply: A,
    output: PhantomData<(Out, V)>,
    ctx: ExecutionCtx,
}

impl<
    'a,
    Args: ElementTuple,
    Out: OutputElement,
    V: FailureEvidence,
    P: Drop,
    A: Fn(&P, Args::Elems) -> (Out, V),
> RowsVisitor<Args> for BuildRows<'a, Args, Out, V, P, A> {
    ghost use Rattle.std.specs.Prelude.{◌≡◌, ◌<◌, ℕ, true};
    ghost use Rattle.std.specs.Borrow.{Bor};
    ghost use Rattle.rowloops.specs.Answers.{AnswersLent};
    ghost use Rattle.rowloops.specs.Domain.{RunsOver, domain_of};

    type Output = (Res<(ArrayRef, V)>, u128);

    ghost rows = { λ s. (domain_of s.domain).width };

    ghost may_be = { λ s i e. Args.cells e ≡ Args.shows s.columns.now i };

    ghost ready = { λ s. (i : ℕ) (e : Args.Elems) (q : Bor P) → i < (domain_of s.domain).width → (domain_of s.domain).selected i ≡ true
        → Args.cells e ≡ Args.shows s.columns.now i → q.now ≡ s.prepared → A.pre s.apply q e };

    ghost gives = { λ s r. RunsOver V.join V.neutral (domain_of s.domain) (λ i e. Args.cells e ≡ Args.shows s.columns.now i)
        (AnswersLent (A.post s.apply) s.prepared)
        Out.states Out.element_type r.0 r.1 };

    fn visit<S: IndexedSource<Item = Args::Elems> + Drop>(
        self,
        source: S,
    ) -> (Res<(ArrayRef, V)>, u128) {
        let prepared = self.prepared;
        let apply = self.apply;
        match self.domain {
            RowDomain::All(_) => {
                build_checked::<Out, V, P, S, A>(&source, prepared, apply, self.ctx)
            }
            RowDomain::Marked(marks) => {
                build_valid_rows::<Out, V, P, S, A>(&source, marks, &prepared, apply, self.ctx)
            }
            RowDomain::Filtered(marks) => {
                build_filtered_rows::<Out, V, P, S, A>(&source, marks, &prepared, apply, self.ctx)
            }
        }
    }
}
