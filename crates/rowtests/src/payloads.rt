// What an answer stores under its nulls, which no clause says: at a run of all rows what the callback gave for what the columns
// store, and at a run of the full rows the default of the output.
use crate::columns::{all_but, constant, has_rows, numbers, stores, two};
use colbase::{EmptyOptions, ExecutionArgs, ExecutionCtx, Nullability};
use rowexec::execute_rows;
use rowsample::{CheckedAdd, WrappingAdd};
use std::test::Fail;

// 1, a null over the largest number, and 3, beside the constant 1.
fn largest_under_a_null(ctx: ExecutionCtx) -> Result<ExecutionArgs, Fail> {
    let first = numbers(&[1, i64::MAX, 3], all_but(1, 3, ctx)?, ctx)?;
    two(
        first,
        constant(1, Nullability::NonNullable, 3, ctx)?,
        3,
        ctx,
    )
}

#[test]
fn a_sum_under_a_null(rt: HostRuntime) -> Result<(), Fail> {
    let ctx = ExecutionCtx::new(rt.alloc());
    let sums = execute_rows(
        &WrappingAdd,
        &EmptyOptions,
        &largest_under_a_null(ctx)?,
        ctx,
    )?;
    assert!(rt; stores(&sums, &[2, i64::MIN, 4]));
    Ok(())
}

// The sum that overflows isn't left behind: the full rows run again, in a column of their own.
#[test]
fn a_checked_sum_that_overflows_under_a_null(rt: HostRuntime) -> Result<(), Fail> {
    let ctx = ExecutionCtx::new(rt.alloc());
    let sums = execute_rows(&CheckedAdd, &EmptyOptions, &largest_under_a_null(ctx)?, ctx)?;
    assert!(rt; has_rows(&sums, &[Some(2), None, Some(4)], ctx)?);
    assert!(rt; stores(&sums, &[2, 0, 4]));
    Ok(())
}
