// Whole calls of row functions that don't fail, over columns that are made here.
use crate::tuples::two_columns;
use bitlane::BitBuffer;
use colbase::{
    ArrayRef, Buffer, ConstantArray, EmptyOptions, ExecutionArgs, ExecutionCtx, NativeInt,
    Nullability, PType, PrimitiveArray, Res, Scalar, ScalarValue, Validity,
};
use rowcases::{SumPrepared, SumValid};
use rowexec::execute_rows;
use rowsample::WrappingAdd;
use std::alloc::Global;

/// The numbers 0, 1 and so on.
pub fn rising(rows: usize, validity: Validity, ctx: ExecutionCtx) -> Res<ArrayRef> {
    let mut values = Vec::from_elem(ctx.alloc(), 0i64, rows)?;
    for i in 0..values.len() {
        values[i] = i as i64;
    }
    PrimitiveArray::try_new(Buffer::from_vec(values, ctx)?, validity, ctx)
}

/// Null at every tenth row, beginning with the row at `first`.
pub fn tenths(rows: usize, first: usize, ctx: ExecutionCtx) -> Res<Validity> {
    let bits = BitBuffer::collect_bool_in(ctx.alloc(), rows, |i| i % 10 != first)?;
    Ok(Validity::Array(bits))
}

/// A number from 0 to 9 that is pseudorandom in the row: the mix of `splitmix64`.
fn pseudorandom_digit(row: usize) -> u64 {
    let start = (row as u64).wrapping_mul(0x9E37_79B9_7F4A_7C15);
    let first = (start ^ (start >> 30)).wrapping_mul(0xBF58_476D_1CE4_E5B9);
    let second = (first ^ (first >> 27)).wrapping_mul(0x94D0_49BB_1331_11EB);
    (second ^ (second >> 31)) % 10
}

/// Null at about `nulls` rows in ten, at pseudorandom places.
fn scattered(rows: usize, nulls: u64, ctx: ExecutionCtx) -> Res<Validity> {
    let bits = BitBuffer::collect_bool_in(ctx.alloc(), rows, |i| pseudorandom_digit(i) >= nulls)?;
    Ok(Validity::Array(bits))
}

/// The number 9 in each row.
fn nines(rows: usize, ctx: ExecutionCtx) -> Res<ArrayRef> {
    let nine = Scalar::int(9, PType::I64, Nullability::NonNullable);
    ConstantArray::try_new(nine, rows, ctx)
}

/// Two columns of `rows` numbers: with nulls in the first (0) or in both (1), a column without nulls beside a constant (2, 4),
/// pseudorandom nulls in the first (5, 6), or two constants.
fn columns(rows: usize, shape: u8, ctx: ExecutionCtx) -> Res<ExecutionArgs> {
    let first = match shape {
        0 | 1 => rising(rows, tenths(rows, 3, ctx)?, ctx)?,
        2 | 4 => rising(rows, Validity::NonNullable, ctx)?,
        5 => rising(rows, scattered(rows, 1, ctx)?, ctx)?,
        6 => rising(rows, scattered(rows, 9, ctx)?, ctx)?,
        _ => nines(rows, ctx)?,
    };
    let second = match shape {
        0 | 5 | 6 => rising(rows, Validity::NonNullable, ctx)?,
        1 => rising(rows, tenths(rows, 7, ctx)?, ctx)?,
        _ => nines(rows, ctx)?,
    };
    let columns = two_columns(first, second, ctx.alloc())?;
    Ok(ExecutionArgs::new(columns, rows))
}

/// The number in a row, and 0 where it is null.
pub fn number_at(array: &ArrayRef, row: usize) -> i64 {
    if row >= array.len() || !array.is_valid(row) {
        return 0;
    }
    if let Some(constant) = array.as_constant() {
        return match constant.value() {
            Some(ScalarValue::Int(number)) => i64::try_from(*number).unwrap_or(0),
            _ => 0,
        };
    }
    match i64::values_of(array) {
        Some(values) => match values.as_slice().get(row) {
            Some(number) => *number,
            None => 0,
        },
        None => 0,
    }
}

/// The sums of two columns, which are executed anew in each round: the total over the rounds of the number in the row
/// of that round.
pub fn executed_in_rounds(alloc: Global, rows: usize, rounds: usize, shape: u8) -> Res<i64> {
    let ctx = ExecutionCtx::new(alloc);
    let args = columns(rows, shape, ctx)?;
    let prepared = SumPrepared::new();
    let mut total = 0i64;
    for round in 0..rounds {
        let sums = match shape {
            4 => execute_rows(&prepared, &EmptyOptions, &args, ctx)?,
            5 | 6 => execute_rows(&SumValid, &EmptyOptions, &args, ctx)?,
            _ => execute_rows(&WrappingAdd, &EmptyOptions, &args, ctx)?,
        };
        total = total.wrapping_add(number_at(&sums, round));
    }
    Ok(total)
}
