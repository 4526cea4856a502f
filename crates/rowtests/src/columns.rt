// Columns that tests make and read, and what they ask of an answer.
use bitlane::BitBuffer;
use colbase::{
    ArrayRef, Buffer, ConstantArray, DType, ExecutionArgs, ExecutionCtx, MaskedArray, NativeInt,
    Nullability, PType, PrimitiveArray, Scalar, ScalarValue, Validity,
};
use rowexec::Counted;
use std::test::Fail;

pub fn numbers(values: &[i64], validity: Validity, ctx: ExecutionCtx) -> Result<ArrayRef, Fail> {
    let values = Buffer::from_vec(Vec::from_slice(ctx.alloc(), values)?, ctx)?;
    Ok(PrimitiveArray::try_new(values, validity, ctx)?)
}

/// A column of numbers of 8 bits.
pub fn bytes(values: &[u8], validity: Validity, ctx: ExecutionCtx) -> Result<ArrayRef, Fail> {
    let values = Buffer::from_vec(Vec::from_slice(ctx.alloc(), values)?, ctx)?;
    Ok(PrimitiveArray::try_new(values, validity, ctx)?)
}

/// The validity that is false at one of these rows.
pub fn all_but(null: usize, rows: usize, ctx: ExecutionCtx) -> Result<Validity, Fail> {
    let bits = BitBuffer::collect_bool_in(ctx.alloc(), rows, |i| i != null)?;
    Ok(Validity::Array(bits))
}

/// The validity that is false at each of these rows.
pub fn no_row(rows: usize, ctx: ExecutionCtx) -> Result<Validity, Fail> {
    let bits = BitBuffer::collect_bool_in(ctx.alloc(), rows, |_| false)?;
    Ok(Validity::Array(bits))
}

/// A constant of numbers.
pub fn constant(
    value: i64,
    nullability: Nullability,
    rows: usize,
    ctx: ExecutionCtx,
) -> Result<ArrayRef, Fail> {
    let scalar = Scalar::int(value as i128, PType::I64, nullability);
    Ok(ConstantArray::try_new(scalar, rows, ctx)?)
}

/// A constant of numbers of 8 bits.
pub fn constant_byte(value: u8, rows: usize, ctx: ExecutionCtx) -> Result<ArrayRef, Fail> {
    let scalar = Scalar::int(value as i128, PType::U8, Nullability::NonNullable);
    Ok(ConstantArray::try_new(scalar, rows, ctx)?)
}

/// A constant of nulls, in the type of numbers.
pub fn nulls(rows: usize, ctx: ExecutionCtx) -> Result<ArrayRef, Fail> {
    let null = Scalar::null(DType::Primitive(PType::I64, Nullability::Nullable));
    Ok(ConstantArray::try_new(null, rows, ctx)?)
}

/// The column under a mask that is false at one row.
pub fn masked(child: ArrayRef, null: usize, ctx: ExecutionCtx) -> Result<ArrayRef, Fail> {
    let validity = all_but(null, child.len(), ctx)?;
    Ok(MaskedArray::try_new(child, validity, ctx)?)
}

pub fn one(only: ArrayRef, rows: usize, ctx: ExecutionCtx) -> Result<ExecutionArgs, Fail> {
    let mut columns = Vec::new(ctx.alloc());
    columns.push(only)?;
    Ok(ExecutionArgs::new(columns, rows))
}

pub fn two(
    first: ArrayRef,
    second: ArrayRef,
    rows: usize,
    ctx: ExecutionCtx,
) -> Result<ExecutionArgs, Fail> {
    let mut columns = Vec::new(ctx.alloc());
    columns.push(first)?;
    columns.push(second)?;
    Ok(ExecutionArgs::new(columns, rows))
}

/// Whether the column has these numbers as its rows.
pub fn has_rows(array: &ArrayRef, rows: &[Option<i64>], ctx: ExecutionCtx) -> Result<bool, Fail> {
    if array.len() != rows.len() {
        return Ok(false);
    }
    for i in 0..array.len() {
        let scalar = array.scalar_at(i, ctx)?;
        let same = match (scalar.value(), &rows[i]) {
            (None, None) => true,
            (Some(ScalarValue::Int(value)), Some(wanted)) => *value == *wanted as i128,
            _ => false,
        };
        if !same {
            return Ok(false);
        }
    }
    Ok(true)
}

/// Whether these numbers are stored in the column, under its nulls too.
pub fn stores(array: &ArrayRef, numbers: &[i64]) -> bool {
    match i64::values_of(array) {
        Some(values) => values.as_slice() == numbers,
        None => false,
    }
}

/// Whether the answer has these numbers as its rows.
pub fn answers(told: &Counted, rows: &[Option<i64>], ctx: ExecutionCtx) -> Result<bool, Fail> {
    match &told.answer {
        Ok(answer) => has_rows(answer, rows, ctx),
        Err(_) => Ok(false),
    }
}

/// Whether the call told these counts.
pub fn took(told: &Counted, prepares: u128, steps: u128) -> bool {
    told.prepares == prepares && told.steps == steps
}

/// Whether the answer is one value for the batch.
pub fn is_constant(told: &Counted) -> bool {
    match &told.answer {
        Ok(answer) => answer.as_constant().is_some(),
        Err(_) => false,
    }
}
