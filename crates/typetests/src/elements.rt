// Elements, each called at a column that it reads: an answer of want of memory meets each clause, and so does an element
// that lends no slice.
ghost use Rattle.std.specs.Prelude.{◌≡◌, true, IsSome};
ghost use Rattle.colbase.specs.Arrays.{constant_cell, dtype};

use crate::columns::{
    one_and_null, repeated, repeated_byte, thirty_seconds, true_and_false, two_null_and_three,
};
use colbase::{ArrayRef, ExecutionCtx, Fault, Res};
use rowtypes::{DecimalScale, InputElement, TimestampRow};
use std::test::Fail;

/// The values that an element gives at each row.
fn decoded<E: InputElement>(array: &ArrayRef, ctx: ExecutionCtx) -> Result<Vec<E::Elem>, Fail>
    requires { E.accepts (dtype array.now) ≡ true }
{
    let mut values = Vec::new(ctx.alloc());
    let column = E::decode(array, ctx)?;
    for index in 0..E::column_len(&column) {
        values.push(E::get(&column, index))?;
    }
    Ok(values)
}

/// How many rows an element gives where an array is decoded with its nulls. None where it isn't.
fn rows_with_nulls<E: InputElement>(array: &ArrayRef, ctx: ExecutionCtx) -> Res<Option<usize>>
    requires { E.accepts (dtype array.now) ≡ true }
{
    Ok(E::decode_null_tolerant(array, ctx)?.map(|column| E::column_len(&column)))
}

/// Whether an element lends the values of a column side by side.
fn lends<E: InputElement>(array: &ArrayRef, ctx: ExecutionCtx) -> Res<bool>
    requires { E.accepts (dtype array.now) ≡ true }
{
    let column = E::decode(array, ctx)?;
    Ok(E::values(&column).is_some())
}

/// The value that an element gives for a batch constant.
fn constant_of<E: InputElement>(array: &ArrayRef, ctx: ExecutionCtx) -> Res<E::Elem>
    requires accepted { E.accepts (dtype array.now) ≡ true }
    requires constant { IsSome (constant_cell array.now) }
{
    let constant = E::decode_constant(array, ctx)?;
    Ok(E::get_constant(&constant))
}

#[test]
fn numbers(rt: HostRuntime) -> Result<(), Fail> {
    let ctx = ExecutionCtx::new(rt.alloc());
    let values = decoded::<i64>(&one_and_null(ctx)?, ctx)?;
    assert!(rt; values.as_slice() == [1, 5].as_slice());
    Ok(())
}

#[test]
fn numbers_in_other_ways(rt: HostRuntime) -> Result<(), Fail> {
    let ctx = ExecutionCtx::new(rt.alloc());
    let array = one_and_null(ctx)?;
    assert_eq!(rt; rows_with_nulls::<i64>(&array, ctx)?, Some(2));
    assert!(rt; lends::<i64>(&array, ctx)?);
    Ok(())
}

#[test]
fn a_number_in_each_row(rt: HostRuntime) -> Result<(), Fail> {
    let ctx = ExecutionCtx::new(rt.alloc());
    let array = repeated(5, 2, ctx)?;
    assert_eq!(rt; constant_of::<i64>(&array, ctx)?, 5);
    Ok(())
}

#[test]
fn truth_values(rt: HostRuntime) -> Result<(), Fail> {
    let ctx = ExecutionCtx::new(rt.alloc());
    let values = decoded::<bool>(&true_and_false(ctx)?, ctx)?;
    assert!(rt; values.as_slice() == [true, false].as_slice());
    Ok(())
}

#[test]
fn scales(rt: HostRuntime) -> Result<(), Fail> {
    let ctx = ExecutionCtx::new(rt.alloc());
    let values = decoded::<DecimalScale>(&two_null_and_three(ctx)?, ctx)?;
    assert!(rt; values.as_slice() == [2, 0, 3].as_slice());
    Ok(())
}

#[test]
fn scales_are_lent(rt: HostRuntime) -> Result<(), Fail> {
    let ctx = ExecutionCtx::new(rt.alloc());
    assert!(rt; lends::<DecimalScale>(&two_null_and_three(ctx)?, ctx)?);
    Ok(())
}

#[test]
fn a_number_above_the_highest_scale(rt: HostRuntime) -> Result<(), Fail> {
    let ctx = ExecutionCtx::new(rt.alloc());
    let told = DecimalScale::decode(&repeated_byte(19, 2, ctx)?, ctx).err();
    assert!(rt; told == Some(Fault::Decode { index: 0 }));
    Ok(())
}

#[test]
fn timestamps(rt: HostRuntime) -> Result<(), Fail> {
    let ctx = ExecutionCtx::new(rt.alloc());
    let values = decoded::<TimestampRow>(&thirty_seconds(ctx)?, ctx)?;
    assert!(rt; values.as_slice() == [30, 30].as_slice());
    Ok(())
}

#[test]
fn timestamps_in_other_ways(rt: HostRuntime) -> Result<(), Fail> {
    let ctx = ExecutionCtx::new(rt.alloc());
    let array = thirty_seconds(ctx)?;
    assert_eq!(rt; constant_of::<TimestampRow>(&array, ctx)?, 30);
    assert!(rt; lends::<TimestampRow>(&array, ctx)?);
    Ok(())
}
