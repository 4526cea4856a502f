// Batches whose failures are evidence: what is told of the rows without a null, and the calls that both runs take.
use crate::columns::{
    all_but, answers, bytes, constant_byte, is_constant, masked, no_row, one, took,
};
use colbase::{ArrayRef, EmptyOptions, ExecutionCtx, Fault, RowError, Validity};
use rowcases::Flags;
use rowexec::{Counted, execute_rows_counted};
use std::test::Fail;

// The answer to one column, whose steps are as many as the callback counted.
fn flags(values: ArrayRef, ctx: ExecutionCtx) -> Result<Counted, Fail> {
    let function = Flags::new();
    let rows = values.len();
    let told = execute_rows_counted(&function, &EmptyOptions, &one(values, rows, ctx)?, ctx);
    if told.steps != function.calls() as u128 {
        return Err(Fail::from("another number of steps than calls"));
    }
    Ok(told)
}

fn fails(told: &Counted, code: u32) -> bool {
    match &told.answer {
        Ok(_) => false,
        Err(fault) => *fault == Fault::Row(RowError(code)),
    }
}

#[test]
fn a_flag_under_a_null(rt: HostRuntime) -> Result<(), Fail> {
    let ctx = ExecutionCtx::new(rt.alloc());
    let told = flags(bytes(&[0, 4, 0], all_but(1, 3, ctx)?, ctx)?, ctx)?;
    assert!(rt; answers(&told, &[Some(0), None, Some(0)], ctx)?);
    assert!(rt; took(&told, 2, 5));
    Ok(())
}

// The error joins the rows without a null, and those alone.
#[test]
fn flags_beside_a_null(rt: HostRuntime) -> Result<(), Fail> {
    let ctx = ExecutionCtx::new(rt.alloc());
    let told = flags(bytes(&[1, 4, 2], all_but(1, 3, ctx)?, ctx)?, ctx)?;
    assert!(rt; fails(&told, 3) && took(&told, 2, 5));
    Ok(())
}

#[test]
fn flags_without_nulls(rt: HostRuntime) -> Result<(), Fail> {
    let ctx = ExecutionCtx::new(rt.alloc());
    let told = flags(bytes(&[1, 2], Validity::NonNullable, ctx)?, ctx)?;
    assert!(rt; fails(&told, 3) && took(&told, 1, 2));
    Ok(())
}

#[test]
fn flags_under_nulls_alone(rt: HostRuntime) -> Result<(), Fail> {
    let ctx = ExecutionCtx::new(rt.alloc());
    let told = flags(bytes(&[1, 2], no_row(2, ctx)?, ctx)?, ctx)?;
    assert!(rt; answers(&told, &[None, None], ctx)?);
    assert!(rt; is_constant(&told) && took(&told, 1, 2));
    Ok(())
}

// A constant shows its value under a mask too.
#[test]
fn a_masked_constant_with_a_flag(rt: HostRuntime) -> Result<(), Fail> {
    let ctx = ExecutionCtx::new(rt.alloc());
    let told = flags(masked(constant_byte(8, 2, ctx)?, 0, ctx)?, ctx)?;
    assert!(rt; fails(&told, 8) && took(&told, 2, 3));
    Ok(())
}

#[test]
fn a_constant_with_a_flag(rt: HostRuntime) -> Result<(), Fail> {
    let ctx = ExecutionCtx::new(rt.alloc());
    let told = flags(constant_byte(8, 5, ctx)?, ctx)?;
    assert!(rt; fails(&told, 8) && took(&told, 1, 1));
    Ok(())
}
