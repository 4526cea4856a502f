// Batches of functions whose rows run only where no argument is null, over the columns as they are and over filtered ones.
use crate::columns::{all_but, answers, bytes, no_row, numbers, one, took, two};
use colbase::{EmptyOptions, ExecutionCtx, Validity};
use rowcases::{Lengths, Scales};
use rowexec::execute_rows_counted;
use std::test::Fail;

// The length that is noted is that of the whole column.
#[test]
fn a_column_that_is_decoded_with_its_nulls(rt: HostRuntime) -> Result<(), Fail> {
    let ctx = ExecutionCtx::new(rt.alloc());
    let function = Lengths::new();
    let args = one(numbers(&[1, 99, 3], all_but(1, 3, ctx)?, ctx)?, 3, ctx)?;
    let told = execute_rows_counted(&function, &EmptyOptions, &args, ctx);
    assert!(rt; answers(&told, &[Some(1), None, Some(3)], ctx)?);
    assert!(rt; took(&told, 1, 2) && function.calls() == 2);
    assert_eq!(rt; function.seen(), 3);
    Ok(())
}

#[test]
fn columns_that_are_filtered(rt: HostRuntime) -> Result<(), Fail> {
    let ctx = ExecutionCtx::new(rt.alloc());
    let function = Scales::new();
    let first = bytes(&[2, 200, 3], all_but(1, 3, ctx)?, ctx)?;
    let second = bytes(&[0, 200, 0], all_but(1, 3, ctx)?, ctx)?;
    let args = two(first, second, 3, ctx)?;
    let told = execute_rows_counted(&function, &EmptyOptions, &args, ctx);
    assert!(rt; answers(&told, &[Some(2), None, Some(3)], ctx)?);
    assert!(rt; took(&told, 1, 2) && function.calls() == 2);
    Ok(())
}

#[test]
fn nulls_under_an_array(rt: HostRuntime) -> Result<(), Fail> {
    let ctx = ExecutionCtx::new(rt.alloc());
    let function = Scales::new();
    let first = bytes(&[200, 200], no_row(2, ctx)?, ctx)?;
    let second = bytes(&[1, 1], Validity::NonNullable, ctx)?;
    let args = two(first, second, 2, ctx)?;
    let told = execute_rows_counted(&function, &EmptyOptions, &args, ctx);
    assert!(rt; answers(&told, &[None, None], ctx)?);
    assert!(rt; took(&told, 0, 0) && function.calls() == 0);
    Ok(())
}
