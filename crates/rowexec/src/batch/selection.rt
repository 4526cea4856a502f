// Which rows of a batch run, by its policy, its constants and its nulls. The choice is a value, so that its contract stands apart from
// those of the runs.
ghost use Rattle.std.specs.Prelude.{◌≡◌, ◌<◌, ℕ, false, is_some, length, true};
ghost use Rattle.bitlane.specs.Bits.{bit};
ghost use Rattle.coltypes.specs.declared.validity.Validity.TheVariants.{Array};
ghost use Rattle.coltypes.specs.Valid.{Covers, valid_at};
ghost use Rattle.rowexec.specs.Rows.{EachHasRows, full_cells};
ghost use Rattle.rowexec.specs.Selections.{Selected, SelectedValid};

use super::one_row::is_one_row;
use bitlane::BitBuffer;
use colbase::{ArrayRef, Validity};
use rowplan::RowPolicy;

/// The rows of a batch that run.
#[derive(Drop)]
pub(super) enum Selection {
    /// One row, which stands for all.
    One,
    All,
    /// All, where a rejected run of them is looked at again.
    Attempt,
    /// The rows at which no argument is null, which are marked true. There is another row too.
    Valid(BitBuffer),
    /// None, since some argument is null at each.
    Nothing,
}

/// Selects the rows that the policy runs of a batch whose full rows are told.
pub(super) fn select_rows(
    policy: RowPolicy,
    columns: &[ArrayRef],
    row_count: usize,
    full: &Validity,
) -> Selection
    requires rows { EachHasRows row_count columns.now }
    requires covers { Covers full.now row_count }
    requires tells { (i : ℕ) → i < row_count → valid_at full.now i ≡ is_some (full_cells columns.now i) }
    ensures { Selected policy row_count columns.now result }
{
    if is_one_row(columns, row_count) {
        return Selection::One;
    }
    match policy {
        RowPolicy::Dense => Selection::All,
        RowPolicy::DenseWithRetry => match full {
            Validity::NonNullable | Validity::AllValid => Selection::All,
            Validity::AllInvalid | Validity::Array(_) => Selection::Attempt,
        },
        RowPolicy::ValidOnly => select_valid(full, row_count),
    }
}

/// The rows that are valid, by no attempt.
pub(super) fn select_valid(full: &Validity, row_count: usize) -> Selection
    requires { Covers full.now row_count }
    ensures { SelectedValid full.now row_count result }
{
    match full {
        Validity::NonNullable | Validity::AllValid => Selection::All,
        Validity::AllInvalid if row_count == 0 => Selection::All,
        Validity::AllInvalid => Selection::Nothing,
        Validity::Array(bits) => select_marked(bits),
    }
}

// The rows that are marked true.
fn select_marked(bits: &BitBuffer) -> Selection
    ensures { SelectedValid (Array bits.now) (length bits.now) result }
{
    if is_each(bits, true) {
        return Selection::All;
    }
    if is_each(bits, false) {
        return Selection::Nothing;
    }
    Selection::Valid(bits.share())
}

// Whether each mark is this one. It looks no further than at the first other.
fn is_each(bits: &BitBuffer, mark: bool) -> bool
    ensures each { result ≡ true → (i : ℕ) → i < length bits.now → bit bits.now i ≡ mark }
    ensures other { result ≡ false → ((i : ℕ) → i < length bits.now → bit bits.now i ≡ mark) → ⊥ }
{
    for index in 0..bits.len() {
        if bits.value(index) != mark {
            return false;
        }
    }
    true
}
