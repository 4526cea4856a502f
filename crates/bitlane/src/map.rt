// Loops over items that are read by their index, in a form that LLVM vectorises.
ghost use Rattle.std.specs.Prelude.{◌≡◌, ◌<◌, ℕ, length, slice_index_or, true, IfOk};
ghost use Rattle.bitlane.specs.Maps.{MapsTo, Joined};

use crate::collect::collect_indices;
use crate::failure_evidence::FailureEvidence;
use crate::indexed_source::IndexedSource;
use std::alloc::{AllocError, Global};

/// The answers of `apply` to the items, in order, in a new list. Its room is taken before the first call, and each place is
/// written once.
pub fn map_collect<S: IndexedSource, T: Drop, F: Fn(S::Item) -> T>(
    source: &S,
    apply: F,
    alloc: Global,
) -> Result<Vec<T>, AllocError>
    requires callable { (i : ℕ) (x : S.Item) → i < S.count source.now → S.item_at source.now i x → F.pre apply x }
    ensures len { IfOk result (λ v. length v.items ≡ S.count source.now) }
    ensures items { IfOk result (λ v. (i : ℕ) (d : T) → i < S.count source.now → MapsTo (S.item_at source.now i) (F.post apply) (slice_index_or v.items i d)) }
{
    collect_indices(
        alloc,
        source.len(),
        |index: usize| -> T
            requires within { index < S.count source.now }
            requires callable { (x : S.Item) → S.item_at source.now index x → F.pre apply x }
            ensures { MapsTo (S.item_at source.entry.now index) (F.post apply) result }
        { apply(source.get(index)) },
    )
}

/// Writes the answer of `apply` to each item at the item's index.
pub fn map_into<S: IndexedSource, T: Drop, F: Fn(S::Item) -> T>(source: &S, out: &mut [T], apply: F)
    requires len { length out.old ≡ S.count source.now }
    requires callable { (i : ℕ) (x : S.Item) → i < S.count source.now → S.item_at source.now i x → F.pre apply x }
    ensures { (i : ℕ) (d : T) → i < S.count source.now → MapsTo (S.item_at source.now i) (F.post apply) (slice_index_or out.new i d) }
{
    for i in 0..source.len() {
        out[i] = apply(source.get(i));
    }
}

/// Writes the value of each answer of `apply` at the item's index, and answers the join of all evidence, beginning
/// with the default.
pub fn map_checked_into<S: IndexedSource, T: Drop, E: FailureEvidence, F: Fn(S::Item) -> (T, E)>(
    source: &S,
    out: &mut [T],
    apply: F,
) -> E
    requires len { length out.old ≡ S.count source.now }
    requires callable { (i : ℕ) (x : S.Item) → i < S.count source.now → S.item_at source.now i x → F.pre apply x }
    // The value at an index and the evidence that is joined for it are of one answer.
    ensures { Joined E.join E.neutral (λ _. true) (λ i e. (d : T) → MapsTo (S.item_at source.now i) (F.post apply) (slice_index_or out.new i d, e)) (S.count source.now) result }
{
    let mut evidence = E::default();
    for i in 0..source.len() {
        let (value, failure) = apply(source.get(i));
        out[i] = value;
        evidence |= failure;
    }
    evidence
}
