// The text of a column. Where numbers of 64 bits are stored for the rows they are lent once, and of any other layout each row is
// read as a scalar: both give the rows as the array's own calls state them.
ghost use Rattle.std.specs.Prelude.{◌≡◌, ◌++◌, ◌<◌, length, true, option_map, IfErr, IfOk, IfSome, OnOk};
ghost use Rattle.std.specs.List.{flat_map};
ghost use Rattle.coltypes.specs.declared.fault.Fault.TheVariants.{Memory};
ghost use Rattle.coltypes.specs.declared.dtype.PType.TheVariants.{I64};
ghost use Rattle.coltypes.specs.declared.dtype.Nullability.TheVariants.{Nullable};
ghost use Rattle.coltypes.specs.Cell.{number};
ghost use Rattle.coltypes.specs.LogicalType.{primitive};
ghost use Rattle.colbase.specs.Arrays.{column, dtype, len, row, rows};
ghost use Rattle.coltypes.specs.Scalars.{scalar_cell, scalar_type};
ghost use Rattle.rowjson.specs.Text.{text, line, cell_text, is_printed};
ghost use Rattle.rowjson.specs.Shows.{Shows, unnamed};

use colbase::{ArrayRef, ExecutionCtx, PrimitiveValues, Res, Scalar, ScalarValue};
use std::alloc::AllocError;
use types::push_type_line;

mod types;

/// Room for a row's line, to begin with.
const ROOM_PER_ROW: usize = 8;

/// Appends the line of a number or a null.
fn push_line(out: &mut Vec<u8>, cell: Option<i64>) -> Result<(), AllocError>
    ensures { OnOk result (out.new.items ≡ out.old.items ++ line (cell_text (primitive I64 Nullable) (option_map number cell))) }
{
    let Some(value) = cell else {
        return out.extend_from_slice(b"null\n");
    };
    let mut digits = itoa::Buffer::new();
    out.extend_from_slice(digits.format(value).as_bytes())?;
    out.push(b'\n')?;
    Ok(())
}

/// The same of a number that a scalar holds.
fn push_wide_line(out: &mut Vec<u8>, cell: Option<i128>) -> Result<(), AllocError>
    ensures { OnOk result (out.new.items ≡ out.old.items ++ line (cell_text (primitive I64 Nullable) (option_map number cell))) }
{
    let Some(value) = cell else {
        return out.extend_from_slice(b"null\n");
    };
    let mut digits = itoa::Buffer::new();
    out.extend_from_slice(digits.format(value).as_bytes())?;
    out.push(b'\n')?;
    Ok(())
}

/// The storage of an extension, and another array itself.
fn unnamed(array: &ArrayRef) -> &ArrayRef
    ensures { result.now ≡ unnamed array.now }
{
    match array.ext_storage() {
        Some(storage) => storage,
        None => array,
    }
}

/// The numbers of 64 bits that are stored for the rows, where the layout has such.
fn stored_numbers(array: &ArrayRef) -> Option<&[i64]>
    ensures { IfSome result (λ numbers. Shows array.now numbers.now) }
{
    match unnamed(array).values()? {
        PrimitiveValues::I64(numbers) => Some(numbers.as_slice()),
        _ => None,
    }
}

/// The number or null of a row.
fn cell_at(array: &ArrayRef, values: &[i64], index: usize) -> Option<i64>
    requires shows { Shows array.now values.now }
    requires within { index < length values.now }
    ensures { option_map number result ≡ row array.now index }
{
    if array.is_valid(index) {
        Some(values[index])
    } else {
        None
    }
}

/// Appends a line for each row, whose numbers are lent.
fn push_stored(out: &mut Vec<u8>, array: &ArrayRef, values: &[i64]) -> Result<(), AllocError>
    requires { Shows array.now values.now }
    ensures { OnOk result (out.new.items ≡ out.old.items ++ flat_map (λ cell. line (cell_text (dtype array.now) cell)) (rows array.now)) }
{
    for i in 0..values.len() {
        push_line(out, cell_at(array, values, i))?;
    }
    Ok(())
}

/// The number or null that a scalar is.
fn number_of(scalar: &Scalar) -> Option<i128>
    requires { is_printed (scalar_type scalar.now) ≡ true }
    ensures { option_map number result ≡ scalar_cell scalar.now }
{
    scalar.checks();
    match scalar.value()? {
        ScalarValue::Int(number) => Some(*number),
        _ => None,
    }
}

/// The number or null of a row, read as a scalar.
fn scalar_number(array: &ArrayRef, index: usize, ctx: ExecutionCtx) -> Res<Option<i128>>
    requires printed { is_printed (dtype array.now) ≡ true }
    requires within { index < len array.now }
    ensures cell { IfOk result (λ cell. option_map number cell ≡ row array.now index) }
    ensures errors { IfErr result (λ e. e ≡ Memory) }
{
    let scalar = array.scalar_at(index, ctx)?;
    Ok(number_of(&scalar))
}

/// Appends a line for each row, each read as a scalar.
fn push_scalars(out: &mut Vec<u8>, array: &ArrayRef, ctx: ExecutionCtx) -> Res<()>
    requires { is_printed (dtype array.now) ≡ true }
    ensures lines { OnOk result (out.new.items ≡ out.old.items ++ flat_map (λ cell. line (cell_text (dtype array.now) cell)) (rows array.now)) }
    ensures errors { IfErr result (λ e. e ≡ Memory) }
{
    for i in 0..array.len() {
        push_wide_line(out, scalar_number(array, i, ctx)?)?;
    }
    Ok(())
}

/// Appends a line for each row.
fn push_rows(out: &mut Vec<u8>, array: &ArrayRef, ctx: ExecutionCtx) -> Res<()>
    requires { is_printed (dtype array.now) ≡ true }
    ensures lines { OnOk result (out.new.items ≡ out.old.items ++ flat_map (λ cell. line (cell_text (dtype array.now) cell)) (rows array.now)) }
    ensures errors { IfErr result (λ e. e ≡ Memory) }
{
    match stored_numbers(array) {
        Some(values) => Ok(push_stored(out, array, values)?),
        None => push_scalars(out, array, ctx),
    }
}

/// The text of a column of numbers of 64 bits, or of an extension over such, of any layout: its type's line, and a line for each row.
pub fn text_of(array: &ArrayRef, ctx: ExecutionCtx) -> Res<Vec<u8>>
    requires { is_printed (dtype array.now) ≡ true }
    ensures printed { IfOk result (λ v. v.items ≡ text (column array.now)) }
    ensures errors { IfErr result (λ e. e ≡ Memory) }
{
    let room = array.len().saturating_mul(ROOM_PER_ROW);
    let mut out = Vec::with_capacity(ctx.alloc(), room)?;
    push_type_line(&mut out, array.dtype())?;
    push_rows(&mut out, array, ctx)?;
    Ok(out)
}
