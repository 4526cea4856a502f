// Outputs of truth values. A loop writes bytes, and the column packs them into bits.
ghost use Rattle.std.specs.Prelude.{◌≡◌, ◌<◌, ℕ, map, IfOk, IfErr};
ghost use Rattle.coltypes.specs.declared.dtype.Nullability.TheVariants.{NonNullable as not_nullable};
ghost use Rattle.coltypes.specs.Cell.{truth};
ghost use Rattle.colbase.specs.Arrays.{column};
ghost use Rattle.coltypes.specs.LogicalType.{bool as bool_type};
ghost use Rattle.rowouts.specs.Outputs.{full_column};

use super::{ColumnValue, OutputElement, OutputSlots};
use bitlane::BitBuffer;
use colbase::{ArrayRef, BoolArray, DType, ExecutionCtx, Fault, Nullability, Res, Validity};

impl ColumnValue for bool {
    ghost use Rattle.coltypes.specs.declared.dtype.Nullability.TheVariants.{NonNullable};
    ghost use Rattle.coltypes.specs.Cell.{truth};
    ghost use Rattle.coltypes.specs.LogicalType as type;

    ghost value_cell = { truth };

    ghost value_type = { type.bool NonNullable };

    fn column_of(values: Vec<bool>, ctx: ExecutionCtx) -> Res<ArrayRef>
        ensures column { IfOk result (λ a. column a ≡ full_column (bool_type not_nullable) (map truth values.items)) }
        ensures errors { IfErr result (λ e. e ≡ Fault.Memory) }
    {
        let bits = BitBuffer::from_vec(ctx.alloc(), values)?;
        BoolArray::try_new(bits, Validity::NonNullable, ctx)
    }
}

/// Truth values.
impl OutputElement for bool {
    ghost use Rattle.std.specs.Prelude.{false, refl};
    ghost use Rattle.coltypes.specs.declared.dtype.Nullability.TheVariants.{NonNullable};
    ghost use Rattle.coltypes.specs.Cell.{truth};
    ghost use Rattle.coltypes.specs.LogicalType as type;

    type Buffer = OutputSlots<bool>;

    ghost states = { truth };

    ghost element_type = { type.bool NonNullable };

    ghost placeholder = { false };

    ghost value_states = { λ x. refl };

    ghost value_has_type = { refl };

    ghost default_is_placeholder = { λ x h. h };

    ghost buffer_states = { λ x. refl };

    ghost buffer_type = { refl };

    fn element_dtype() -> DType {
        DType::Bool(Nullability::NonNullable)
    }

    fn with_capacity(rows: usize, ctx: ExecutionCtx) -> Res<OutputSlots<bool>> {
        Ok(OutputSlots {
            items: Vec::from_elem(ctx.alloc(), false, rows)?,
        })
    }
}
