// The columns that tests read. Each says of its type what an element's call requires, so that a test needs no proof.
ghost use Rattle.std.specs.Prelude.{◌≡◌, true, length, IfOk, IsSome};
ghost use Rattle.coltypes.specs.declared.dtype.PType.TheVariants.{I64, U8};
ghost use Rattle.colbase.specs.Arrays.{constant_cell, dtype};
ghost use Rattle.coltypes.specs.LogicalType.{primitive};
ghost use Rattle.coltypes.specs.LogicalTypeOf.{extension_type, logical_type};
ghost use Rattle.rowelems.specs.Reading.{is_bool, is_integer, is_timestamp};

use bitlane::BitBuffer;
use colbase::{
    ArrayRef, BoolArray, Buffer, ConstantArray, DType, ExecutionCtx, ExtDType, ExtensionArray,
    Nullability, PType, PrimitiveArray, Res, Scalar, TimeUnit, Validity,
};
use std::test::Fail;

/// 1, 2.
pub fn one_and_two(ctx: ExecutionCtx) -> Result<ArrayRef, Fail>
    ensures { IfOk result (λ a. is_integer I64 (dtype a) ≡ true) }
{
    let values = Buffer::from_vec(vec![in ctx.alloc(); 1i64, 2]?, ctx)?;
    Ok(PrimitiveArray::try_new(values, Validity::NonNullable, ctx)?)
}

/// 1 and a null, at which 5 is stored.
pub fn one_and_null(ctx: ExecutionCtx) -> Result<ArrayRef, Fail>
    ensures { IfOk result (λ a. is_integer I64 (dtype a) ≡ true) }
{
    let values = Buffer::from_vec(vec![in ctx.alloc(); 1i64, 5]?, ctx)?;
    let valid = BitBuffer::from_vec(ctx.alloc(), vec![in ctx.alloc(); true, false]?)?;
    Ok(PrimitiveArray::try_new(values, Validity::Array(valid), ctx)?)
}

/// The same number in each row.
pub fn repeated(value: i64, rows: usize, ctx: ExecutionCtx) -> Res<ArrayRef>
    ensures accepted { IfOk result (λ a. is_integer I64 (dtype a) ≡ true) }
    ensures constant { IfOk result (λ a. IsSome (constant_cell a)) }
{
    let scalar = Scalar::int(value.into(), PType::I64, Nullability::NonNullable);
    ConstantArray::try_new(scalar, rows, ctx)
}

/// The same byte in each row.
pub fn repeated_byte(value: u8, rows: usize, ctx: ExecutionCtx) -> Res<ArrayRef>
    ensures accepted { IfOk result (λ a. is_integer U8 (dtype a) ≡ true) }
    ensures constant { IfOk result (λ a. IsSome (constant_cell a)) }
{
    let scalar = Scalar::int(value.into(), PType::U8, Nullability::NonNullable);
    ConstantArray::try_new(scalar, rows, ctx)
}

/// 2, a null at which 200 is stored, and 3.
pub fn two_null_and_three(ctx: ExecutionCtx) -> Result<ArrayRef, Fail>
    ensures { IfOk result (λ a. is_integer U8 (dtype a) ≡ true) }
{
    let values = Buffer::from_vec(vec![in ctx.alloc(); 2u8, 200, 3]?, ctx)?;
    let valid = BitBuffer::from_vec(ctx.alloc(), vec![in ctx.alloc(); true, false, true]?)?;
    Ok(PrimitiveArray::try_new(values, Validity::Array(valid), ctx)?)
}

/// True, false.
pub fn true_and_false(ctx: ExecutionCtx) -> Result<ArrayRef, Fail>
    ensures { IfOk result (λ a. is_bool (dtype a) ≡ true) }
{
    let bits = BitBuffer::from_vec(ctx.alloc(), vec![in ctx.alloc(); true, false]?)?;
    Ok(BoolArray::try_new(bits, Validity::NonNullable, ctx)?)
}

/// The type of timestamps in seconds.
fn seconds(ctx: ExecutionCtx) -> Res<ExtDType>
    ensures accepted { IfOk result (λ e. is_timestamp (extension_type e) ≡ true) }
    ensures storage { IfOk result (λ e. logical_type e.storage ≡ primitive I64 Nullability.NonNullable) }
{
    let storage = DType::Primitive(PType::I64, Nullability::NonNullable);
    ExtDType::try_new(
        "vortex.timestamp",
        Some(TimeUnit::Seconds),
        None,
        storage,
        ctx,
    )
}

/// 30 in two rows, as timestamps over a constant.
pub fn thirty_seconds(ctx: ExecutionCtx) -> Res<ArrayRef>
    ensures accepted { IfOk result (λ a. is_timestamp (dtype a) ≡ true) }
    ensures constant { IfOk result (λ a. IsSome (constant_cell a)) }
{
    let scalar = Scalar::int(30, PType::I64, Nullability::NonNullable);
    let storage = ConstantArray::try_new(scalar, 2, ctx)?;
    ExtensionArray::try_new(seconds(ctx)?, storage, ctx)
}
