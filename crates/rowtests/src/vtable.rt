// A row function as a scalar function of an engine, and the engine that counts its calls.
use crate::columns::{all_but, has_rows, numbers, two};
use colbase::{
    DType, EmptyOptions, ExecutionArgs, ExecutionCtx, Mask, Nullability, PType, Validity,
};
use rowexec::{CallEngine, RowEngine, RowFnVTable};
use rowplan::RowFn;
use rowsample::{CheckedAdd, WrappingAdd};
use std::test::Fail;

// Three rows of two columns, the first of which is null in the middle.
fn with_a_null(ctx: ExecutionCtx) -> Result<ExecutionArgs, Fail> {
    let first = numbers(&[1, 99, 3], all_but(1, 3, ctx)?, ctx)?;
    let second = numbers(&[10, 20, 30], Validity::NonNullable, ctx)?;
    two(first, second, 3, ctx)
}

#[test]
fn executes(rt: HostRuntime) -> Result<(), Fail> {
    let ctx = ExecutionCtx::new(rt.alloc());
    let sums = RowFnVTable(WrappingAdd).execute(&EmptyOptions, &with_a_null(ctx)?, ctx)?;
    assert!(rt; has_rows(&sums, &[Some(11), None, Some(33)], ctx)?);
    Ok(())
}

#[test]
fn counts_its_calls(rt: HostRuntime) -> Result<(), Fail> {
    let ctx = ExecutionCtx::new(rt.alloc());
    let mut engine = CallEngine::new();
    let sums = engine.execute(&WrappingAdd, &EmptyOptions, &with_a_null(ctx)?, ctx)?;
    assert!(rt; has_rows(&sums, &[Some(11), None, Some(33)], ctx)?);
    assert_eq!(rt; engine.calls(), 1);
    Ok(())
}

fn is_marked(mask: &Mask, row: usize) -> bool {
    row < mask.len() && mask.value(row)
}

#[test]
fn marks_the_full_rows(rt: HostRuntime) -> Result<(), Fail> {
    let ctx = ExecutionCtx::new(rt.alloc());
    let mask = RowFnVTable(WrappingAdd).validity(&with_a_null(ctx)?, ctx)?;
    assert!(rt; is_marked(&mask, 0) && !is_marked(&mask, 1) && is_marked(&mask, 2));
    Ok(())
}

// Three rows of two columns, of which the first is null in its first row and the second in its last.
fn with_a_null_in_each(ctx: ExecutionCtx) -> Result<ExecutionArgs, Fail> {
    let first = numbers(&[99, 2, 3], all_but(0, 3, ctx)?, ctx)?;
    let second = numbers(&[10, 20, 99], all_but(2, 3, ctx)?, ctx)?;
    two(first, second, 3, ctx)
}

#[test]
fn marks_the_rows_that_are_full_in_both_columns(rt: HostRuntime) -> Result<(), Fail> {
    let ctx = ExecutionCtx::new(rt.alloc());
    let mask = RowFnVTable(WrappingAdd).validity(&with_a_null_in_each(ctx)?, ctx)?;
    assert!(rt; !is_marked(&mask, 0) && is_marked(&mask, 1) && !is_marked(&mask, 2));
    Ok(())
}

#[test]
fn states_its_type(rt: HostRuntime) -> Result<(), Fail> {
    let number = DType::Primitive(PType::I64, Nullability::NonNullable);
    let nullable = DType::Primitive(PType::I64, Nullability::Nullable);
    let types = [nullable.share(), number];
    let ctx = ExecutionCtx::new(rt.alloc());
    let stated = RowFnVTable(WrappingAdd).return_dtype(&EmptyOptions, &types, ctx)?;
    assert!(rt; stated == nullable);
    Ok(())
}

// No clause says the texts.
#[test]
fn tells_its_names(rt: HostRuntime) {
    assert_eq!(rt; WrappingAdd.id(), "wrapping_add");
    assert_eq!(rt; RowFnVTable(WrappingAdd).child_name(0), "lhs");
    assert_eq!(rt; RowFnVTable(WrappingAdd).child_name(1), "rhs");
}

#[test]
fn tells_how_many_arguments_it_takes(rt: HostRuntime) {
    assert_eq!(rt; RowFnVTable(WrappingAdd).arity(), 2);
}

#[test]
fn tells_what_a_row_may_do(rt: HostRuntime) {
    assert!(rt; RowFnVTable(WrappingAdd).is_strict());
    assert!(rt; RowFnVTable(WrappingAdd).is_infallible());
    assert!(rt; !RowFnVTable(CheckedAdd).is_infallible());
}
