// The layout of the answer to a batch of constants, and the calls that such a batch takes.
use crate::columns::{
    answers, constant, constant_byte, is_constant, masked, no_row, nulls, numbers, one, took, two,
};
use colbase::{
    ArrayRef, ConstantArray, DType, EmptyOptions, ExecutionCtx, ExtDType, ExtensionArray,
    MaskedArray, Nullability, PType, Scalar, TimeUnit, Validity,
};
use rowcases::Flags;
use rowexec::{Counted, execute_rows, execute_rows_counted};
use rowsample::{CheckedAdd, Truncate, TruncateOptions, WrappingAdd};
use std::test::Fail;

fn sum(first: ArrayRef, second: ArrayRef, rows: usize, ctx: ExecutionCtx) -> Result<Counted, Fail> {
    let args = two(first, second, rows, ctx)?;
    Ok(execute_rows_counted(&WrappingAdd, &EmptyOptions, &args, ctx))
}

#[test]
fn two_constants(rt: HostRuntime) -> Result<(), Fail> {
    let ctx = ExecutionCtx::new(rt.alloc());
    let two = constant(2, Nullability::NonNullable, 3, ctx)?;
    let three = constant(3, Nullability::NonNullable, 3, ctx)?;
    let told = sum(two, three, 3, ctx)?;
    assert!(rt; answers(&told, &[Some(5), Some(5), Some(5)], ctx)?);
    assert!(rt; is_constant(&told) && took(&told, 1, 1));
    Ok(())
}

#[test]
fn a_constant_whose_type_is_nullable(rt: HostRuntime) -> Result<(), Fail> {
    let ctx = ExecutionCtx::new(rt.alloc());
    let two = constant(2, Nullability::Nullable, 2, ctx)?;
    let three = constant(3, Nullability::NonNullable, 2, ctx)?;
    let told = sum(two, three, 2, ctx)?;
    assert!(rt; is_constant(&told) && took(&told, 1, 1));
    Ok(())
}

#[test]
fn nulls_beside_values(rt: HostRuntime) -> Result<(), Fail> {
    let ctx = ExecutionCtx::new(rt.alloc());
    let second = numbers(&[1, 1], Validity::NonNullable, ctx)?;
    let told = sum(nulls(2, ctx)?, second, 2, ctx)?;
    assert!(rt; answers(&told, &[None, None], ctx)?);
    assert!(rt; is_constant(&told) && took(&told, 0, 0));
    Ok(())
}

#[test]
fn a_constant_under_a_mask(rt: HostRuntime) -> Result<(), Fail> {
    let ctx = ExecutionCtx::new(rt.alloc());
    let first = masked(constant(4, Nullability::NonNullable, 2, ctx)?, 1, ctx)?;
    let second = constant(1, Nullability::NonNullable, 2, ctx)?;
    let told = sum(first, second, 2, ctx)?;
    assert!(rt; answers(&told, &[Some(5), None], ctx)?);
    assert!(rt; !is_constant(&told) && took(&told, 1, 2));
    Ok(())
}

#[test]
fn evidence_under_nulls_alone(rt: HostRuntime) -> Result<(), Fail> {
    let ctx = ExecutionCtx::new(rt.alloc());
    let child = numbers(&[i64::MAX, i64::MAX], Validity::NonNullable, ctx)?;
    let first = MaskedArray::try_new(child, no_row(2, ctx)?, ctx)?;
    let second = constant(1, Nullability::NonNullable, 2, ctx)?;
    let args = two(first, second, 2, ctx)?;
    let told = execute_rows_counted(&CheckedAdd, &EmptyOptions, &args, ctx);
    assert!(rt; answers(&told, &[None, None], ctx)?);
    assert!(rt; is_constant(&told));
    Ok(())
}

#[test]
fn one_call_for_a_constant(rt: HostRuntime) -> Result<(), Fail> {
    let ctx = ExecutionCtx::new(rt.alloc());
    let function = Flags::new();
    let args = one(constant_byte(0, 5, ctx)?, 5, ctx)?;
    let told = execute_rows_counted(&function, &EmptyOptions, &args, ctx);
    assert!(rt; is_constant(&told));
    assert!(rt; took(&told, 1, 1) && function.calls() == 1);
    Ok(())
}

/// The second 125 in each row, as timestamps.
fn seconds(rows: usize, ctx: ExecutionCtx) -> Result<ArrayRef, Fail> {
    let storage = DType::Primitive(PType::I64, Nullability::NonNullable);
    let dtype = ExtDType::try_new(
        "vortex.timestamp",
        Some(TimeUnit::Seconds),
        None,
        storage,
        ctx,
    )?;
    let second = Scalar::int(125, PType::I64, Nullability::NonNullable);
    let values = ConstantArray::try_new(second, rows, ctx)?;
    Ok(ExtensionArray::try_new(dtype, values, ctx)?)
}

#[test]
fn a_constant_under_a_label(rt: HostRuntime) -> Result<(), Fail> {
    let ctx = ExecutionCtx::new(rt.alloc());
    let args = one(seconds(2, ctx)?, 2, ctx)?;
    let minutes = TruncateOptions { ticks: 60 };
    let answer = execute_rows(&Truncate, &minutes, &args, ctx)?;
    assert!(rt; answer.as_constant().is_some());
    Ok(())
}
