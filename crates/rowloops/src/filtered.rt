// The loop over arguments that were filtered to the valid rows, whose callback gives a value and evidence. Each answer is written at
// the row that its arguments were filtered from.
ghost use Rattle.std.specs.Prelude.{◌≡◌, ◌<◌, ◌≤◌, ℕ, length, count_by, slice_index_or, true, IfOk, IfErr};
ghost use Rattle.bitlane.specs.Maps.{Joined, MapsTo};
ghost use Rattle.colbase.specs.Arrays.{dtype, len, row};
ghost use Rattle.coltypes.specs.Keep.{place};
ghost use Rattle.rowloops.specs.Answers.{StatesChecked};

use bitlane::{BitBuffer, FailureEvidence, IndexedSource};
use colbase::{ArrayRef, ExecutionCtx, Fault, Res};
use rowtypes::{OutputBuffer, OutputElement};

/// The values of the answers to the items of a source at the valid rows, one item for each, as a column without nulls; the
/// joined evidence; and how often the callback was called.
pub(crate) fn build_filtered_rows<
    Out: OutputElement,
    V: FailureEvidence,
    P: Drop,
    S: IndexedSource,
    A: Fn(&P, S::Item) -> (Out, V),
>(
    source: &S,
    valid: &BitBuffer,
    prepared: &P,
    apply: A,
    ctx: ExecutionCtx,
) -> (Res<(ArrayRef, V)>, u128)
    requires items { S.count source.now ≡ count_by (λ b. b) valid.now }
    requires callable { (j : ℕ) (x : S.Item) → j < count_by (λ b. b) valid.now → S.item_at source.now j x → A.pre apply prepared x }
    ensures dtype { IfOk result.0 (λ r. dtype r.0 ≡ Out.element_type) }
    ensures len { IfOk result.0 (λ r. len r.0 ≡ length valid.now) }
    ensures rows { IfOk result.0 (λ r. Joined V.join V.neutral (λ _. true)
        (λ j v. StatesChecked (S.item_at source.now j) (λ x a. A.post apply prepared.entry x a)
        Out.states (row r.0 (place valid.now j)) v) (count_by (λ b. b) valid.now) r.1) }
    ensures errors { IfErr result.0 (λ e. e ≡ Fault.Memory) }
    ensures most { result.1 ≤ count_by (λ b. b) valid.now }
    ensures least { IfOk result.0 (λ _. count_by (λ b. b) valid.now ≤ result.1) }
{
    let rows = valid.len();
    // The places are taken before the first call.
    let mut buffer = match Out::with_capacity(rows, ctx) {
        Ok(buffer) => buffer,
        Err(fault) => return (Err(fault), 0),
    };
    let evidence = map_checked_filtered_into(
        source,
        valid,
        buffer.slots(),
        |item: S::Item| -> (Out, V)
            requires { A.pre apply prepared item }
            ensures { A.post apply prepared.entry item result }
        { apply(prepared, item) },
    );
    let steps = source.len() as u128;
    match buffer.finish(rows, ctx) {
        Ok(values) => (Ok((values, evidence)), steps),
        Err(fault) => (Err(fault), steps),
    }
}

/// Writes the value of the answer of `apply` to each item, in order, at the place of the next true bit, leaves the other places
/// as they are, and answers the join of the evidence, beginning with the default.
fn map_checked_filtered_into<
    S: IndexedSource,
    T: Drop,
    V: FailureEvidence,
    F: Fn(S::Item) -> (T, V),
>(source: &S, valid: &BitBuffer, out: &mut [T], apply: F) -> V
    requires items { S.count source.now ≡ count_by (λ b. b) valid.now }
    requires places { length out.old ≡ length valid.now }
    requires callable { (j : ℕ) (x : S.Item) → j < count_by (λ b. b) valid.now → S.item_at source.now j x → F.pre apply x }
    // The value at a place and the evidence that is joined for it are of one answer.
    ensures { Joined V.join V.neutral (λ _. true)
        (λ j v. (d : T) → MapsTo (S.item_at source.now j) (F.post apply) (slice_index_or out.new (place valid.now j) d, v))
        (count_by (λ b. b) valid.now) result }
{
    let mut evidence = V::default();
    let mut item = 0;
    for index in valid.set_indices() {
        let (value, failure) = apply(source.get(item));
        out[index] = value;
        evidence |= failure;
        item += 1;
    }
    evidence
}
