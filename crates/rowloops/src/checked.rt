// The loop over all rows whose callback gives a value and evidence. Both are written in one pass, since two would call twice.
ghost use Rattle.std.specs.Prelude.{◌≡◌, ◌<◌, ◌≤◌, ℕ, length, slice_index_or, true, IfOk, IfErr};
ghost use Rattle.std.specs.Borrow.{Bor};
ghost use Rattle.bitlane.specs.Maps.{Joined, MapsTo};
ghost use Rattle.colbase.specs.Arrays.{dtype, len, row};
ghost use Rattle.rowloops.specs.Answers.{AnswersLent, StatesChecked};

use bitlane::{FailureEvidence, IndexedSource};
use colbase::{ArrayRef, ExecutionCtx, Fault, Res};
use rowtypes::OutputElement;
use std::alloc::{AllocError, Global};

/// The values of the answers to the items of a source as a column without nulls, the joined evidence, and how often the
/// callback was called.
pub(crate) fn build_checked<
    Out: OutputElement,
    V: FailureEvidence,
    P: Drop,
    S: IndexedSource,
    A: Fn(&P, S::Item) -> (Out, V),
>(source: &S, prepared: P, apply: A, ctx: ExecutionCtx) -> (Res<(ArrayRef, V)>, u128)
    requires callable { (i : ℕ) (x : S.Item) (q : Bor P) → i < S.count source.now → S.item_at source.now i x → q.now ≡ prepared
        → A.pre apply q x }
    ensures dtype { IfOk result.0 (λ r. dtype r.0 ≡ Out.element_type) }
    ensures len { IfOk result.0 (λ r. len r.0 ≡ S.count source.now) }
    ensures rows { IfOk result.0 (λ r. Joined V.join V.neutral (λ _. true)
        (λ i v. StatesChecked (S.item_at source.now i) (AnswersLent (A.post apply) prepared)
        Out.states (row r.0 i) v) (S.count source.now) r.1) }
    ensures errors { IfErr result.0 (λ e. e ≡ Fault.Memory) }
    ensures most { result.1 ≤ S.count source.now }
    ensures least { IfOk result.0 (λ _. S.count source.now ≤ result.1) }
{
    let collected = map_checked_collect(
        source,
        |item: S::Item| -> (Out, V)
            requires { (q : Bor P) → q.now ≡ prepared → A.pre apply q item }
            ensures { AnswersLent (A.post apply) prepared item result }
        { apply(&prepared, item) },
        ctx.alloc(),
    );
    let rows = source.len() as u128;
    match collected {
        Ok((values, evidence)) => match Out::column_of(values, ctx) {
            Ok(column) => (Ok((column, evidence)), rows),
            Err(fault) => (Err(fault), rows),
        },
        // The room is taken before the first call.
        Err(refused) => (Err(Fault::from(refused)), 0),
    }
}

/// The values of the answers of `apply` to the items, in order, in a new list, and the join of all evidence, beginning with the
/// default. The list's room is taken before the first call, and each place is written once.
fn map_checked_collect<S: IndexedSource, T: Drop, V: FailureEvidence, F: Fn(S::Item) -> (T, V)>(
    source: &S,
    apply: F,
    alloc: Global,
) -> Result<(Vec<T>, V), AllocError>
    requires callable { (i : ℕ) (x : S.Item) → i < S.count source.now → S.item_at source.now i x → F.pre apply x }
    ensures len { IfOk result (λ r. length r.0.items ≡ S.count source.now) }
    // The value at an index and the evidence that is joined for it are of one answer.
    ensures joined { IfOk result (λ r. Joined V.join V.neutral (λ _. true)
        (λ i v. (d : T) → MapsTo (S.item_at source.now i) (F.post apply) (slice_index_or r.0.items i d, v)) (S.count source.now) r.1) }
{
    let rows = source.len();
    let mut values = Vec::with_capacity(alloc, rows)?;
    let mut evidence = V::default();
    for i in 0..rows {
        let (value, failure) = apply(source.get(i));
        values.push_reserved(value);
        evidence |= failure;
    }
    Ok((values, evidence))
}
