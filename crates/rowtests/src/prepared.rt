// What a prepared visit is given, and how often.
use crate::columns::{all_but, bytes, constant, nulls, numbers, one, took, two};
use colbase::{ArrayRef, EmptyOptions, ExecutionArgs, ExecutionCtx, Nullability, Validity};
use rowcases::{Deferral, Small, SumPrepared};
use rowexec::{execute_rows, execute_rows_counted};
use std::test::Fail;

fn nines(rows: usize, ctx: ExecutionCtx) -> Result<ArrayRef, Fail> {
    constant(9, Nullability::NonNullable, rows, ctx)
}

/// What `prepare` is given for two columns.
type Known = Option<(Option<i64>, Option<i64>)>;

fn known(args: &ExecutionArgs, ctx: ExecutionCtx) -> Result<Known, Fail> {
    let function = SumPrepared::new();
    let _ = execute_rows(&function, &EmptyOptions, args, ctx)?;
    Ok(function.seen())
}

#[test]
fn the_constant_beside_a_column(rt: HostRuntime) -> Result<(), Fail> {
    let ctx = ExecutionCtx::new(rt.alloc());
    let first = numbers(&[1, 2], Validity::NonNullable, ctx)?;
    let args = two(first, nines(2, ctx)?, 2, ctx)?;
    assert!(rt; known(&args, ctx)? == Some((None, Some(9))));
    Ok(())
}

#[test]
fn both_constants(rt: HostRuntime) -> Result<(), Fail> {
    let ctx = ExecutionCtx::new(rt.alloc());
    let args = two(nines(3, ctx)?, nines(3, ctx)?, 3, ctx)?;
    assert!(rt; known(&args, ctx)? == Some((Some(9), Some(9))));
    Ok(())
}

#[test]
fn no_column(rt: HostRuntime) -> Result<(), Fail> {
    let ctx = ExecutionCtx::new(rt.alloc());
    let first = numbers(&[1, 2], Validity::NonNullable, ctx)?;
    let second = numbers(&[3, 4], Validity::AllValid, ctx)?;
    let args = two(first, second, 2, ctx)?;
    assert!(rt; known(&args, ctx)? == Some((None, None)));
    Ok(())
}

#[test]
fn nothing_where_a_column_is_null(rt: HostRuntime) -> Result<(), Fail> {
    let ctx = ExecutionCtx::new(rt.alloc());
    let args = two(nulls(3, ctx)?, nines(3, ctx)?, 3, ctx)?;
    assert!(rt; known(&args, ctx)?.is_none());
    Ok(())
}

// Whether `prepare` counts as many calls as are told, where evidence is left under a null.
fn prepared_twice(visit: Deferral, ctx: ExecutionCtx) -> Result<bool, Fail> {
    let function = Small::new(visit);
    let values = bytes(&[1, 200, 7], all_but(1, 3, ctx)?, ctx)?;
    let args = one(values, 3, ctx)?;
    let told = execute_rows_counted(&function, &EmptyOptions, &args, ctx);
    Ok(took(&told, 2, 5) && function.prepares() == 2)
}

#[test]
fn once_more_after_a_rejected_run(rt: HostRuntime) -> Result<(), Fail> {
    let ctx = ExecutionCtx::new(rt.alloc());
    assert!(rt; prepared_twice(Deferral::Prepared, ctx)?);
    assert!(rt; prepared_twice(Deferral::PreparedBool, ctx)?);
    Ok(())
}
