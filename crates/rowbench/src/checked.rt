// Whole calls of the program's row functions whose failures are evidence.
use crate::batches::{number_at, rising, tenths};
use crate::tuples::two_columns;
use colbase::{
    ArrayRef, Buffer, ConstantArray, DType, EmptyOptions, ExecutionArgs, ExecutionCtx, ExtDType,
    ExtensionArray, Nullability, PType, PrimitiveArray, Res, Scalar, TimeUnit, Validity,
};
use rowexec::execute_rows;
use rowsample::{CheckedAdd, Rescale, Truncate, TruncateOptions};
use rowtypes::{InputElement, TimestampRow};
use std::alloc::{AllocError, Global};

/// The numbers 0, 1 and so on, with the greatest number stored under a null at every tenth row.
fn greatest_under_nulls(rows: usize, ctx: ExecutionCtx) -> Res<ArrayRef> {
    let mut values = Vec::from_elem(ctx.alloc(), 0i64, rows)?;
    for i in 0..values.len() {
        values[i] = if i % 10 == 3 { i64::MAX } else { i as i64 };
    }
    PrimitiveArray::try_new(Buffer::from_vec(values, ctx)?, tenths(rows, 3, ctx)?, ctx)
}

/// The scale 3 in each row.
fn threes(rows: usize, ctx: ExecutionCtx) -> Res<ArrayRef> {
    let three = Scalar::int(3, PType::U8, Nullability::NonNullable);
    ConstantArray::try_new(three, rows, ctx)
}

/// Two columns of `rows` numbers: without nulls (0), with nulls in the first over small numbers (1) or over the greatest
/// number (2), or without nulls beside a constant scale.
fn columns(rows: usize, shape: u8, ctx: ExecutionCtx) -> Res<ExecutionArgs> {
    let first = match shape {
        1 => rising(rows, tenths(rows, 3, ctx)?, ctx)?,
        2 => greatest_under_nulls(rows, ctx)?,
        _ => rising(rows, Validity::NonNullable, ctx)?,
    };
    let second = match shape {
        0 | 1 | 2 => rising(rows, Validity::NonNullable, ctx)?,
        _ => threes(rows, ctx)?,
    };
    let columns = two_columns(first, second, ctx.alloc())?;
    Ok(ExecutionArgs::new(columns, rows))
}

/// The answers to two columns, which are executed anew in each round: the total over the rounds of the number in the row
/// of that round.
pub fn checked_in_rounds(alloc: Global, rows: usize, rounds: usize, shape: u8) -> Res<i64> {
    let ctx = ExecutionCtx::new(alloc);
    let args = columns(rows, shape, ctx)?;
    let mut total = 0i64;
    for round in 0..rounds {
        let answer = match shape {
            0 | 1 | 2 => execute_rows(&CheckedAdd, &EmptyOptions, &args, ctx)?,
            _ => execute_rows(&Rescale, &EmptyOptions, &args, ctx)?,
        };
        total = total.wrapping_add(number_at(&answer, round));
    }
    Ok(total)
}

fn one_column(column: ArrayRef, alloc: Global) -> Result<Vec<ArrayRef>, AllocError> {
    let mut columns = Vec::with_capacity(alloc, 1)?;
    columns.push(column)?;
    Ok(columns)
}

/// The seconds 0, 1 and so on, as timestamps.
fn seconds(rows: usize, ctx: ExecutionCtx) -> Res<ExecutionArgs> {
    let storage = DType::Primitive(PType::I64, Nullability::NonNullable);
    let dtype = ExtDType::try_new(
        "vortex.timestamp",
        Some(TimeUnit::Seconds),
        None,
        storage,
        ctx,
    )?;
    let times = ExtensionArray::try_new(dtype, rising(rows, Validity::NonNullable, ctx)?, ctx)?;
    Ok(ExecutionArgs::new(one_column(times, ctx.alloc())?, rows))
}

/// The second in a row of timestamps, and 0 where there is none.
fn second_at(times: &ArrayRef, row: usize, ctx: ExecutionCtx) -> Res<i64> {
    if TimestampRow::validate(times.dtype()).is_err() {
        return Ok(0);
    }
    let seconds = TimestampRow::decode(times, ctx)?;
    Ok(match seconds.as_slice().get(row) {
        Some(second) => *second,
        None => 0,
    })
}

/// As [`checked_in_rounds`], for timestamps that are truncated to minutes.
pub fn truncated_in_rounds(alloc: Global, rows: usize, rounds: usize) -> Res<i64> {
    let ctx = ExecutionCtx::new(alloc);
    let args = seconds(rows, ctx)?;
    let minutes = TruncateOptions { ticks: 60 };
    let mut total = 0i64;
    for round in 0..rounds {
        let answer = execute_rows(&Truncate, &minutes, &args, ctx)?;
        total = total.wrapping_add(second_at(&answer, round, ctx)?);
    }
    Ok(total)
}
