// Columns of three rows in each layout, and the comparison of a column's rows with a list.
use bitlane::BitBuffer;
use colbase::{
    ArrayRef, BoolArray, Buffer, ConstantArray, DType, ExecutionCtx, ExtDType, ExtensionArray,
    MaskedArray, Nullability, PType, PrimitiveArray, Res, Scalar, ScalarValue, Validity,
};

/// The rows of each layout of [`layouts`], a truth value as 0 or 1.
pub const ROWS: [[Option<i128>; 3]; 5] = [
    [Some(1), None, Some(3)],
    [Some(1), None, Some(0)],
    [Some(7), Some(7), Some(7)],
    [Some(5), None, Some(6)],
    [Some(1), None, Some(3)],
];

/// The validity of these marks.
pub fn marked(marks: &[bool], ctx: ExecutionCtx) -> Res<Validity> {
    Ok(Validity::Array(truths(marks, ctx)?))
}

/// The bit buffer of these truth values.
pub fn truths(values: &[bool], ctx: ExecutionCtx) -> Res<BitBuffer> {
    let values = Vec::from_slice(ctx.alloc(), values)?;
    Ok(BitBuffer::from_vec(ctx.alloc(), values)?)
}

/// A column of numbers.
pub fn numbers(values: &[i64], validity: Validity, ctx: ExecutionCtx) -> Res<ArrayRef> {
    let values = Buffer::from_vec(Vec::from_slice(ctx.alloc(), values)?, ctx)?;
    PrimitiveArray::try_new(values, validity, ctx)
}

fn primitive(ctx: ExecutionCtx) -> Res<ArrayRef> {
    numbers(&[1, 2, 3], marked(&[true, false, true], ctx)?, ctx)
}

fn boolean(ctx: ExecutionCtx) -> Res<ArrayRef> {
    let valid = marked(&[true, false, true], ctx)?;
    BoolArray::try_new(truths(&[true, true, false], ctx)?, valid, ctx)
}

fn constant(ctx: ExecutionCtx) -> Res<ArrayRef> {
    let seven = Scalar::int(7, PType::I64, Nullability::NonNullable);
    ConstantArray::try_new(seven, 3, ctx)
}

fn masked(ctx: ExecutionCtx) -> Res<ArrayRef> {
    let child = numbers(&[5, 9, 6], Validity::NonNullable, ctx)?;
    MaskedArray::try_new(child, marked(&[true, false, true], ctx)?, ctx)
}

fn extension(ctx: ExecutionCtx) -> Res<ArrayRef> {
    let storage = DType::Primitive(PType::I64, Nullability::Nullable);
    let ext = ExtDType::try_new("vortex.date", None, None, storage, ctx)?;
    ExtensionArray::try_new(ext, primitive(ctx)?, ctx)
}

/// A column of each layout.
pub fn layouts(ctx: ExecutionCtx) -> Res<[ArrayRef; 5]> {
    Ok([
        primitive(ctx)?,
        boolean(ctx)?,
        constant(ctx)?,
        masked(ctx)?,
        extension(ctx)?,
    ])
}

fn number_of(scalar: &Scalar) -> Option<i128> {
    match scalar.value() {
        Some(ScalarValue::Int(number)) => Some(*number),
        Some(ScalarValue::Bool(truth)) => Some(i128::from(*truth)),
        _ => None,
    }
}

/// Whether the column has these rows.
pub fn shows(array: &ArrayRef, rows: &[Option<i128>], ctx: ExecutionCtx) -> Res<bool> {
    if array.len() != rows.len() {
        return Ok(false);
    }
    for i in 0..rows.len() {
        if number_of(&array.scalar_at(i, ctx)?) != rows[i] {
            return Ok(false);
        }
    }
    Ok(true)
}
