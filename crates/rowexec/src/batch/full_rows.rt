// The rows at which no argument is null. No row beside them can be answered with a value.
ghost use Rattle.std.specs.Prelude.{◌≡◌, ◌<◌, ℕ, true, None, is_some, IfOk, IfErr};
ghost use Rattle.coltypes.specs.Valid.{Covers, valid_at, validity_nullability};
ghost use Rattle.rowplan.specs.Outputs.{any_nullable};
ghost use Rattle.rowexec.specs.Rows.{EachHasRows, full_cells, some_all_null, types_of};

use colbase::{ArrayRef, ExecutionCtx, Fault, Nullability, Res, Validity, ValidityKind};

/// Which rows are full: the conjunction of the columns' validities.
pub(super) fn full_rows(columns: &[ArrayRef], row_count: usize, ctx: ExecutionCtx) -> Res<Validity>
    requires { EachHasRows row_count columns.now }
    ensures tells { IfOk result (λ v. (i : ℕ) → i < row_count → valid_at v i ≡ is_some (full_cells columns.now i)) }
    ensures covers { IfOk result (λ v. Covers v row_count) }
    ensures nullable { IfOk result (λ v. validity_nullability v ≡ Nullability.Nullable → any_nullable (types_of columns.now) ≡ true) }
    ensures errors { IfErr result (λ e. e ≡ Fault.Memory) }
{
    let Some((first, others)) = columns.split_first() else {
        return Ok(Validity::NonNullable);
    };
    let validity = full_rows(others, row_count, ctx)?;
    let own = first.validity();
    own.and(&validity, ctx)
}

/// Whether some column is told to be null at each row, so that no row is full.
pub(super) fn is_some_all_null(columns: &[ArrayRef], row_count: usize) -> bool
    requires { EachHasRows row_count columns.now }
    ensures told { result ≡ some_all_null columns.now }
    ensures nullable { result ≡ true → any_nullable (types_of columns.now) ≡ true }
    ensures none { result ≡ true → (i : ℕ) → i < row_count → full_cells columns.now i ≡ None }
{
    let Some((first, others)) = columns.split_first() else {
        return false;
    };
    let validity = first.validity();
    if let ValidityKind::AllNull = validity.kind() {
        return true;
    }
    is_some_all_null(others, row_count)
}
