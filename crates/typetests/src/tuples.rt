// Decoded tuples, each at concrete elements: the values that are known before a row is read, and decoding with nulls.
use crate::columns::{one_and_null, one_and_two, repeated, repeated_byte};
use crate::generic::{has_rows_with_nulls, rows_of};
use colbase::ExecutionCtx;
use rowtypes::{Both, DecimalScale};
use std::test::Fail;

#[test]
fn a_column_beside_a_constant(rt: HostRuntime) -> Result<(), Fail> {
    let ctx = ExecutionCtx::new(rt.alloc());
    let columns = [one_and_two(ctx)?, repeated(9, 2, ctx)?];
    let (rows, known) = rows_of::<(i64, i64)>(&columns, 2, ctx)?;
    assert!(rt; rows.as_slice() == [(1, 9), (2, 9)].as_slice());
    assert_eq!(rt; known, (None, Some(9)));
    Ok(())
}

#[test]
fn a_column_beside_a_constant_in_two_parts(rt: HostRuntime) -> Result<(), Fail> {
    let ctx = ExecutionCtx::new(rt.alloc());
    let columns = [one_and_two(ctx)?, repeated(9, 2, ctx)?];
    let (rows, known) = rows_of::<Both<(i64,), (i64,)>>(&columns, 2, ctx)?;
    assert!(rt; rows.as_slice() == [((1,), (9,)), ((2,), (9,))].as_slice());
    assert_eq!(rt; known, ((None,), (Some(9),)));
    Ok(())
}

#[test]
fn a_column_with_its_nulls(rt: HostRuntime) -> Result<(), Fail> {
    let ctx = ExecutionCtx::new(rt.alloc());
    let columns = [one_and_null(ctx)?];
    let told = has_rows_with_nulls::<(i64,)>(&columns, 2, ctx)?;
    assert_eq!(rt; told, Some(true));
    Ok(())
}

#[test]
fn a_number_beside_a_scale(rt: HostRuntime) -> Result<(), Fail> {
    let ctx = ExecutionCtx::new(rt.alloc());
    let columns = [one_and_null(ctx)?, repeated_byte(2, 2, ctx)?];
    let told = has_rows_with_nulls::<(i64, DecimalScale)>(&columns, 2, ctx)?;
    assert_eq!(rt; told, None);
    Ok(())
}
