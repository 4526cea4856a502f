// Loops over the rows of tuples of each length, with constants between columns: each runs over a source of its own type.
use crate::columns::{one_and_two, repeated, repeated_byte, true_and_false};
use crate::generic::{answers, answers_by_index};
use colbase::{ArrayRef, ExecutionCtx, NativeInt};
use rowtypes::Both;
use std::test::Fail;

/// Whether these are the numbers of a column that is there.
fn has_numbers(column: &Option<ArrayRef>, numbers: &[i64]) -> bool {
    match column {
        Some(array) => match i64::values_of(array) {
            Some(values) => values.as_slice() == numbers,
            None => false,
        },
        None => false,
    }
}

#[test]
fn no_argument(rt: HostRuntime) -> Result<(), Fail> {
    let ctx = ExecutionCtx::new(rt.alloc());
    let sevens = answers::<(), i64, _>(&[], 2, |()| 7, ctx)?;
    assert!(rt; has_numbers(&sevens, &[7, 7]));
    Ok(())
}

#[test]
fn one_argument(rt: HostRuntime) -> Result<(), Fail> {
    let ctx = ExecutionCtx::new(rt.alloc());
    let columns = [one_and_two(ctx)?];
    let twice = answers::<(i64,), i64, _>(&columns, 2, |(x,)| x.wrapping_add(x), ctx)?;
    assert!(rt; has_numbers(&twice, &[2, 4]));
    Ok(())
}

#[test]
fn one_argument_read_at_its_index(rt: HostRuntime) -> Result<(), Fail> {
    let ctx = ExecutionCtx::new(rt.alloc());
    let columns = [one_and_two(ctx)?];
    let twice = answers_by_index::<(i64,), i64, _>(&columns, 2, |(x,)| x.wrapping_add(x), ctx)?;
    assert!(rt; has_numbers(&twice, &[2, 4]));
    Ok(())
}

#[test]
fn two_arguments(rt: HostRuntime) -> Result<(), Fail> {
    let ctx = ExecutionCtx::new(rt.alloc());
    let columns = [one_and_two(ctx)?, repeated(9, 2, ctx)?];
    let sums = answers::<(i64, i64), i64, _>(&columns, 2, |(x, y)| x.wrapping_add(y), ctx)?;
    assert!(rt; has_numbers(&sums, &[10, 11]));
    Ok(())
}

#[test]
fn two_parts(rt: HostRuntime) -> Result<(), Fail> {
    let ctx = ExecutionCtx::new(rt.alloc());
    let columns = [one_and_two(ctx)?, repeated_byte(9, 2, ctx)?];
    let add = |((x,), (y,)): ((i64,), (u8,))| x.wrapping_add(y.into());
    let sums = answers::<Both<(i64,), (u8,)>, i64, _>(&columns, 2, add, ctx)?;
    assert!(rt; has_numbers(&sums, &[10, 11]));
    Ok(())
}

#[test]
fn three_arguments(rt: HostRuntime) -> Result<(), Fail> {
    let ctx = ExecutionCtx::new(rt.alloc());
    let columns = [
        one_and_two(ctx)?,
        repeated(9, 2, ctx)?,
        true_and_false(ctx)?,
    ];
    let add = |(x, y, more): (i64, i64, bool)| if more { x.wrapping_add(y) } else { x };
    let sums = answers::<(i64, i64, bool), i64, _>(&columns, 2, add, ctx)?;
    assert!(rt; has_numbers(&sums, &[10, 2]));
    Ok(())
}

#[test]
fn four_arguments(rt: HostRuntime) -> Result<(), Fail> {
    let ctx = ExecutionCtx::new(rt.alloc());
    let columns = [
        one_and_two(ctx)?,
        repeated(3, 2, ctx)?,
        repeated_byte(2, 2, ctx)?,
        true_and_false(ctx)?,
    ];
    let add = |(x, y, z, more): (i64, i64, u8, bool)| {
        let product = y.wrapping_mul(z.into());
        if more { x.wrapping_add(product) } else { x }
    };
    let sums = answers::<(i64, i64, u8, bool), i64, _>(&columns, 2, add, ctx)?;
    assert!(rt; has_numbers(&sums, &[7, 2]));
    Ok(())
}
