// Worked batches, with the calls that the callback counts where it does.
use crate::columns::{all_but, answers, bytes, numbers, took, two};
use bitlane::BitBuffer;
use colbase::{ArrayRef, EmptyOptions, ExecutionArgs, ExecutionCtx, ScalarValue, Validity};
use rowcases::Seven;
use rowexec::execute_rows_counted;
use rowsample::{CheckedAdd, Rescale, WrappingAdd};
use std::test::Fail;

#[test]
fn a_function_without_arguments(rt: HostRuntime) -> Result<(), Fail> {
    let ctx = ExecutionCtx::new(rt.alloc());
    let function = Seven::new();
    let args = ExecutionArgs::new(Vec::new(rt.alloc()), 3);
    let told = execute_rows_counted(&function, &EmptyOptions, &args, ctx);
    assert!(rt; answers(&told, &[Some(7), Some(7), Some(7)], ctx)?);
    assert!(rt; took(&told, 1, 3) && function.calls() == 3);
    Ok(())
}

#[test]
fn a_function_of_no_rows(rt: HostRuntime) -> Result<(), Fail> {
    let ctx = ExecutionCtx::new(rt.alloc());
    let function = Seven::new();
    let args = ExecutionArgs::new(Vec::new(rt.alloc()), 0);
    let told = execute_rows_counted(&function, &EmptyOptions, &args, ctx);
    assert!(rt; answers(&told, &[], ctx)?);
    assert!(rt; took(&told, 1, 0) && function.calls() == 0);
    Ok(())
}

// All rows run, that with the null too.
#[test]
fn a_null_beside_values(rt: HostRuntime) -> Result<(), Fail> {
    let ctx = ExecutionCtx::new(rt.alloc());
    let first = numbers(&[1, 99, i64::MAX], all_but(1, 3, ctx)?, ctx)?;
    let second = numbers(&[10, 20, 1], Validity::NonNullable, ctx)?;
    let args = two(first, second, 3, ctx)?;
    let told = execute_rows_counted(&WrappingAdd, &EmptyOptions, &args, ctx);
    assert!(rt; answers(&told, &[Some(11), None, Some(i64::MIN)], ctx)?);
    assert!(rt; took(&told, 1, 3));
    Ok(())
}

// 5, null, 7 by the scales 2, null over a number that is no scale, 3: the rows without a null run, on columns that are filtered to them.
#[test]
fn a_null_that_stores_no_scale(rt: HostRuntime) -> Result<(), Fail> {
    let ctx = ExecutionCtx::new(rt.alloc());
    let values = numbers(&[5, 0, 7], all_but(1, 3, ctx)?, ctx)?;
    let scales = bytes(&[2, 200, 3], all_but(1, 3, ctx)?, ctx)?;
    let args = two(values, scales, 3, ctx)?;
    let told = execute_rows_counted(&Rescale, &EmptyOptions, &args, ctx);
    assert!(rt; answers(&told, &[Some(500), None, Some(7000)], ctx)?);
    assert!(rt; took(&told, 1, 2));
    Ok(())
}

// Ten rows of numbers, with a null at the rows that leave a remainder, over a stored number.
fn generated(
    values: &[i64; 10],
    divisor: usize,
    remainder: usize,
    ctx: ExecutionCtx,
) -> Result<ArrayRef, Fail> {
    let marks = BitBuffer::collect_bool_in(
        ctx.alloc(),
        10,
        |i| i.checked_rem(divisor) != Some(remainder),
    )?;
    numbers(values, Validity::Array(marks), ctx)
}

// Whether the rows have this sum, with as many nulls.
fn sums_to(array: &ArrayRef, sum: i128, nulls: usize, ctx: ExecutionCtx) -> Result<bool, Fail> {
    let mut total: i128 = 0;
    let mut missing: usize = 0;
    for i in 0..array.len() {
        let scalar = array.scalar_at(i, ctx)?;
        match scalar.value() {
            Some(ScalarValue::Int(value)) => total = total.saturating_add(*value),
            _ => missing = missing.saturating_add(1),
        }
    }
    Ok(total == sum && missing == nulls)
}

// The evidence of row 3, a null, is rejected, and the six rows without a null run again.
#[test]
fn ten_rows_with_nulls_on_both_sides(rt: HostRuntime) -> Result<(), Fail> {
    let ctx = ExecutionCtx::new(rt.alloc());
    let lhs = [0, 37, 74, i64::MAX, 148, 185, 222, 259, i64::MAX, 333];
    let rhs = [0, 1, 1, 3, 4, 5, 6, 7, 8, 1];
    let args = two(
        generated(&lhs, 5, 3, ctx)?,
        generated(&rhs, 7, 2, ctx)?,
        10,
        ctx,
    )?;
    let told = execute_rows_counted(&CheckedAdd, &EmptyOptions, &args, ctx);
    assert!(rt; took(&told, 2, 16));
    assert!(rt; sums_to(&told.answer?, 874, 4, ctx)?);
    Ok(())
}
