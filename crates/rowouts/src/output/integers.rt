// Outputs of the eight integers, by one impl of each trait over any native integer.
ghost use Rattle.std.specs.Prelude.{◌≡◌, map, IfOk, IfErr};
ghost use Rattle.coltypes.specs.declared.dtype.Nullability.TheVariants.{NonNullable as not_nullable};
ghost use Rattle.coltypes.specs.Cell.{number};
ghost use Rattle.colbase.specs.Arrays.{column};
ghost use Rattle.coltypes.specs.LogicalType.{primitive};
ghost use Rattle.rowouts.specs.Outputs.{full_column};

use super::{ColumnValue, OutputElement, OutputSlots};
use colbase::{
    ArrayRef, Buffer, DType, ExecutionCtx, Fault, NativeInt, Nullability, PrimitiveArray, Res,
    Validity,
};

/// An integer type, as far as outputs need it. It is a trait of this crate, so that the impls for all of its types can
/// stand beside those for other types.
pub trait OutputInt: NativeInt + Default {
    ghost use Rattle.std.specs.Prelude.{◌≡◌};

    ghost zero: { Self };

    ghost default_is_zero: { (x : Self) → Self.is_default x → x ≡ zero };

    // A clone is the value itself.
    ghost cloned: { (x y : Self) → Self.is_clone x y → y ≡ x };
}

impl<T: OutputInt> ColumnValue for T {
    ghost use Rattle.coltypes.specs.declared.dtype.Nullability.TheVariants.{NonNullable};
    ghost use Rattle.coltypes.specs.Cell.{number};
    ghost use Rattle.coltypes.specs.LogicalType as type;

    ghost value_cell = { λ x. number (T.number x) };

    ghost value_type = { type.primitive T.ptype NonNullable };

    fn column_of(values: Vec<T>, ctx: ExecutionCtx) -> Res<ArrayRef>
        ensures column { IfOk result (λ a. column a ≡ full_column (primitive T.ptype not_nullable) (map (λ x. number (T.number x)) values.items)) }
        ensures errors { IfErr result (λ e. e ≡ Fault.Memory) }
    {
        PrimitiveArray::try_new(Buffer::from_vec(values, ctx)?, Validity::NonNullable, ctx)
    }
}

/// Numbers of the type.
impl<T: OutputInt> OutputElement for T {
    ghost use Rattle.std.specs.Prelude.{refl};
    ghost use Rattle.coltypes.specs.declared.dtype.Nullability.TheVariants.{NonNullable};
    ghost use Rattle.coltypes.specs.Cell.{number};
    ghost use Rattle.coltypes.specs.LogicalType as type;

    type Buffer = OutputSlots<T>;

    ghost states = { λ x. number (T.number x) };

    ghost element_type = { type.primitive T.ptype NonNullable };

    ghost placeholder = { T.zero };

    ghost value_states = { λ x. refl };

    ghost value_has_type = { refl };

    ghost default_is_placeholder = { T.default_is_zero };

    ghost buffer_states = { λ x. refl };

    ghost buffer_type = { refl };

    fn element_dtype() -> DType {
        DType::Primitive(T::integer_type(), Nullability::NonNullable)
    }

    fn with_capacity(rows: usize, ctx: ExecutionCtx) -> Res<OutputSlots<T>> {
        Ok(OutputSlots {
            items: Vec::from_elem(ctx.alloc(), T::default(), rows)?,
        })
    }
}
