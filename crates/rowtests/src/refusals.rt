// Batches that are refused: one of each kind, and which of several arguments is named.
use crate::columns::{all_but, bytes, numbers, one, two};
use colbase::{ArrayRef, EmptyOptions, ExecutionArgs, ExecutionCtx, Fault, Validity};
use rowcases::{Labelled, Picky, Scales};
use rowexec::execute_rows;
use rowsample::WrappingAdd;
use std::test::Fail;

#[test]
fn another_number_of_columns(rt: HostRuntime) {
    let ctx = ExecutionCtx::new(rt.alloc());
    let args = ExecutionArgs::new(Vec::new(rt.alloc()), 3);
    let told = execute_rows(&WrappingAdd, &EmptyOptions, &args, ctx).err();
    let wanted = Fault::Arity {
        expected: 2,
        actual: 0,
    };
    assert!(rt; told == Some(wanted));
}

#[test]
fn a_column_of_another_length(rt: HostRuntime) -> Result<(), Fail> {
    let ctx = ExecutionCtx::new(rt.alloc());
    let first = numbers(&[1, 2], Validity::NonNullable, ctx)?;
    let second = numbers(&[1], Validity::NonNullable, ctx)?;
    let args = two(first, second, 2, ctx)?;
    let told = execute_rows(&WrappingAdd, &EmptyOptions, &args, ctx).err();
    let wanted = Fault::InputLength {
        index: 1,
        length: 1,
        row_count: 2,
    };
    assert!(rt; told == Some(wanted));
    Ok(())
}

// One argument of one row.
fn one_row(ctx: ExecutionCtx) -> Result<ExecutionArgs, Fail> {
    one(numbers(&[1], Validity::NonNullable, ctx)?, 1, ctx)
}

#[test]
fn a_call_that_is_not_taken(rt: HostRuntime) -> Result<(), Fail> {
    let ctx = ExecutionCtx::new(rt.alloc());
    let told = execute_rows(&Picky, &EmptyOptions, &one_row(ctx)?, ctx).err();
    assert!(rt; told == Some(Fault::Refused));
    Ok(())
}

#[test]
fn a_label_over_another_type(rt: HostRuntime) -> Result<(), Fail> {
    let ctx = ExecutionCtx::new(rt.alloc());
    let told = execute_rows(&Labelled, &EmptyOptions, &one_row(ctx)?, ctx).err();
    assert!(rt; told == Some(Fault::OutputType));
    Ok(())
}

// The fault of the scales 19, 1 beside a column.
fn unread(second: ArrayRef, ctx: ExecutionCtx) -> Result<Option<Fault>, Fail> {
    let first = bytes(&[19, 1], Validity::NonNullable, ctx)?;
    let args = two(first, second, 2, ctx)?;
    Ok(execute_rows(&Scales::new(), &EmptyOptions, &args, ctx).err())
}

#[test]
fn the_lowest_column_without_a_null(rt: HostRuntime) -> Result<(), Fail> {
    let ctx = ExecutionCtx::new(rt.alloc());
    let second = bytes(&[0, 19], Validity::NonNullable, ctx)?;
    assert!(rt; unread(second, ctx)? == Some(Fault::Decode { index: 0 }));
    Ok(())
}

// The null beside 19 leaves that row out.
#[test]
fn the_lowest_column_that_was_filtered(rt: HostRuntime) -> Result<(), Fail> {
    let ctx = ExecutionCtx::new(rt.alloc());
    let second = bytes(&[0, 19], all_but(0, 2, ctx)?, ctx)?;
    assert!(rt; unread(second, ctx)? == Some(Fault::Decode { index: 1 }));
    Ok(())
}
