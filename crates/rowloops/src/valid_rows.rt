// The loop over the rows that are valid of columns that hold all rows, whose callback gives a value and evidence. At the other rows
// nothing is called, and the default is written.
ghost use Rattle.std.specs.Prelude.{◌≡◌, ◌<◌, ◌≤◌, ℕ, length, count_by, slice_index_or, true, IfOk, IfErr};
ghost use Rattle.bitlane.specs.Bits.{bit};
ghost use Rattle.bitlane.specs.Maps.{Joined, MapsTo};
ghost use Rattle.colbase.specs.Arrays.{dtype, len, row};
ghost use Rattle.rowloops.specs.Answers.{StatesChecked};

use bitlane::{BitBuffer, FailureEvidence, IndexedSource};
use colbase::{ArrayRef, ExecutionCtx, Fault, Res};
use rowtypes::OutputElement;
use std::alloc::{AllocError, Global};

/// The values of the answers to the items of a source at the valid rows as a column without nulls, the joined evidence, and
/// how often the callback was called.
pub(crate) fn build_valid_rows<
    Out: OutputElement,
    V: FailureEvidence,
    P: Drop,
    S: IndexedSource,
    A: Fn(&P, S::Item) -> (Out, V),
>(
    source: &S,
    valid: &BitBuffer,
    prepared: &P,
    apply: A,
    ctx: ExecutionCtx,
) -> (Res<(ArrayRef, V)>, u128)
    requires items { S.count source.now ≡ length valid.now }
    requires callable { (i : ℕ) (x : S.Item) → i < length valid.now → bit valid.now i ≡ true → S.item_at source.now i x
        → A.pre apply prepared x }
    ensures dtype { IfOk result.0 (λ r. dtype r.0 ≡ Out.element_type) }
    ensures len { IfOk result.0 (λ r. len r.0 ≡ length valid.now) }
    ensures rows { IfOk result.0 (λ r. Joined V.join V.neutral (bit valid.now)
        (λ i v. StatesChecked (S.item_at source.now i) (λ x a. A.post apply prepared.entry x a) Out.states (row r.0 i) v)
        (length valid.now) r.1) }
    ensures errors { IfErr result.0 (λ e. e ≡ Fault.Memory) }
    ensures most { result.1 ≤ count_by (λ b. b) valid.now }
    ensures least { IfOk result.0 (λ _. count_by (λ b. b) valid.now ≤ result.1) }
{
    let collected = map_checked_valid_collect(
        source,
        valid,
        |item: S::Item| -> (Out, V)
            requires { A.pre apply prepared item }
            ensures { A.post apply prepared.entry item result }
        { apply(prepared, item) },
        ctx.alloc(),
    );
    match collected {
        Ok((values, evidence, calls)) => match Out::column_of(values, ctx) {
            Ok(column) => (Ok((column, evidence)), calls as u128),
            Err(fault) => (Err(fault), calls as u128),
        },
        // The room is taken before the first call.
        Err(refused) => (Err(Fault::from(refused)), 0),
    }
}

/// The values of the answers of `apply` to the items at the true bits, each at its item's index among defaults, in a new list;
/// the join of their evidence, beginning with the default; and how often `apply` was called. The list's room is taken before
/// the first call, and each place is written once.
fn map_checked_valid_collect<
    S: IndexedSource,
    T: Default + Drop,
    V: FailureEvidence,
    F: Fn(S::Item) -> (T, V),
>(source: &S, valid: &BitBuffer, apply: F, alloc: Global) -> Result<(Vec<T>, V, usize), AllocError>
    requires items { S.count source.now ≡ length valid.now }
    requires callable { (i : ℕ) (x : S.Item) → i < length valid.now → bit valid.now i ≡ true → S.item_at source.now i x → F.pre apply x }
    ensures len { IfOk result (λ r. length r.0.items ≡ length valid.now) }
    // The value at an index and the evidence that is joined for it are of one answer.
    ensures joined { IfOk result (λ r. Joined V.join V.neutral (bit valid.now)
        (λ i v. (d : T) → MapsTo (S.item_at source.now i) (F.post apply) (slice_index_or r.0.items i d, v)) (length valid.now) r.1) }
    ensures calls { IfOk result (λ r. r.2 ≡ count_by (λ b. b) valid.now) }
{
    let rows = valid.len();
    let mut values = Vec::with_capacity(alloc, rows)?;
    let mut evidence = V::default();
    let mut calls = 0;
    for i in 0..rows {
        if valid.value(i) {
            let (value, failure) = apply(source.get(i));
            values.push_reserved(value);
            evidence |= failure;
            calls += 1;
        } else {
            values.push_reserved(T::default());
        }
    }
    Ok((values, evidence, calls))
}
