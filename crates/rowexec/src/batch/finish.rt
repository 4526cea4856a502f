// From the values of all rows to the column that a batch answers: the mask of the full rows, and the nullability that is stated,
// which goes by the types of the arguments and not by their nulls.
ghost use Rattle.std.specs.Prelude.{◌≡◌, ◌<◌, ℕ, true, None, IfOk, IfErr};
ghost use Rattle.colbase.specs.Arrays.{dtype, len, row};
ghost use Rattle.coltypes.specs.LogicalType.{nullability_of};
ghost use Rattle.coltypes.specs.LogicalTypeOf.{logical_type};
ghost use Rattle.coltypes.specs.Valid.{Covers, valid_at, validity_nullability};
ghost use Rattle.rowplan.specs.Outputs.{made_nullable};
ghost use Rattle.rowexec.specs.Masks.{null_unless};
ghost use Rattle.rowexec.specs.Rows.{IsConstant};

use colbase::{
    ArrayRef, ConstantArray, DType, ExecutionCtx, Fault, Nullability, Res, Scalar, Validity,
};

/// The values with a null at each row that isn't full, in their type made nullable where some argument's type is. No value
/// is copied.
pub(super) fn mask_rows(
    values: ArrayRef,
    full: &Validity,
    nullable: bool,
    ctx: ExecutionCtx,
) -> Res<ArrayRef>
    requires covers { Covers full.now (len values) }
    requires nulls { validity_nullability full.now ≡ Nullability.Nullable → nullable ≡ true }
    ensures dtype { IfOk result (λ a. dtype a ≡ made_nullable nullable (dtype values)) }
    ensures len { IfOk result (λ a. len a ≡ len values) }
    ensures rows { IfOk result (λ a. (i : ℕ) → i < len values → row a i ≡ null_unless (valid_at full.now i) (row values i)) }
    ensures errors { IfErr result (λ e. e ≡ Fault.Memory) }
{
    match full {
        Validity::NonNullable => made_nullable(values, nullable, ctx),
        Validity::AllValid => made_nullable(values, nullable, ctx),
        Validity::Array(bits) => values.mask(bits, ctx),
        Validity::AllInvalid => {
            let dtype = values.dtype().with_nullability(Nullability::Nullable, ctx)?;
            null_column(dtype, values.len(), ctx)
        }
    }
}

// The values in their type made nullable, or as they are.
fn made_nullable(values: ArrayRef, nullable: bool, ctx: ExecutionCtx) -> Res<ArrayRef>
    ensures dtype { IfOk result (λ a. dtype a ≡ made_nullable nullable (dtype values)) }
    ensures len { IfOk result (λ a. len a ≡ len values) }
    ensures rows { IfOk result (λ a. (i : ℕ) → i < len values → row a i ≡ row values i) }
    ensures errors { IfErr result (λ e. e ≡ Fault.Memory) }
{
    if nullable {
        return values.cast(Nullability::Nullable, ctx);
    }
    Ok(values)
}

/// A column that is null at each row, as a constant.
pub(super) fn null_column(stated: DType, row_count: usize, ctx: ExecutionCtx) -> Res<ArrayRef>
    requires { nullability_of (logical_type stated) ≡ Nullability.Nullable }
    ensures dtype { IfOk result (λ a. dtype a ≡ logical_type stated) }
    ensures len { IfOk result (λ a. len a ≡ row_count) }
    ensures rows { IfOk result (λ a. (i : ℕ) → row a i ≡ None) }
    ensures constant { IfOk result IsConstant }
    ensures errors { IfErr result (λ e. e ≡ Fault.Memory) }
{
    ConstantArray::try_new(Scalar::null(stated), row_count, ctx)
}
