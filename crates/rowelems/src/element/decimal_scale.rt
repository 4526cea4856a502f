// The element of decimal scales. What is stored under a null may be no scale, so it is neither read nor shown.
ghost use Rattle.std.specs.Prelude.{◌≡◌, ◌<◌, ◌≤◌, ◌⊎◌, ℕ, length, true, slice_index_or, IfOk, IfErr};
ghost use Rattle.bitlane.specs.Bits.{bit};
ghost use Rattle.coltypes.specs.declared.dtype.PType.TheVariants as ptype;
ghost use Rattle.coltypes.specs.declared.values.PrimitiveValues.TheVariants as values;
ghost use Rattle.coltypes.specs.Cell.{Cell, number};
ghost use Rattle.colbase.specs.Arrays.{dtype, len, MustRead};
ghost use Rattle.coltypes.specs.Masks.{mask_bits};
ghost use Rattle.coltypes.specs.Values.{number_at};
ghost use Rattle.rowelems.specs.Elements.{shown_scale};
ghost use Rattle.rowelems.specs.Reading.{is_integer, IsScale, DecodeCause};
ghost use Rattle.rowelems.specs.Scales.{is_read, number_or_zero, ScaleCause};

use super::InputElement;
use super::integer::{constant_number, decode_numbers};
use crate::batch::has_batch_value;
use colbase::{ArrayRef, Buffer, DType, ExecutionCtx, Fault, Mask, PType, Res};

const MAX_SCALE: u8 = 18;

/// The scale of a decimal: a number of 8 bits from 0 to 18. Zero is shown under nulls, whatever is stored there, and no
/// column is decoded with its nulls. Decoding fails where a number that is not null is above 18, and where the value of
/// a batch constant is. It copies the numbers only where a row is null. This project's own.
pub struct DecimalScale;

impl InputElement for DecimalScale {
    ghost use Rattle.std.specs.Prelude.{length, true, false, pos};
    ghost use Rattle.coltypes.specs.declared.dtype.PType.TheVariants as ptype;
    ghost use Rattle.coltypes.specs.declared.values.PrimitiveValues.TheVariants as values;
    ghost use Rattle.coltypes.specs.Cell.{number};
    ghost use Rattle.coltypes.specs.Values.{number_at};
    ghost use Rattle.rowelems.specs.Elements.{shown_scale};
    ghost use Rattle.rowelems.specs.Reading.{is_integer, IsScale};
    ghost use Rattle.rowelems.specs.Shown.{shown_by_constant, shown_by_row};

    type Column = Buffer<u8>;

    type Constant = u8;

    type Elem = u8;

    const DENSE_SAFE: bool = false;

    const DECODE_INFALLIBLE: bool = false;

    ghost DENSE_SAFE = { false };

    ghost DECODE_INFALLIBLE = { false };

    ghost accepts = { is_integer ptype.U8 };

    ghost reads = { IsScale };

    ghost shown = { shown_scale };

    ghost cell = { λ x. number (pos x) };

    ghost count = { λ c. length c };

    ghost shows = { λ c i. number (number_at (values.U8 c) i) };

    ghost constant_cell = { λ x. number (pos x) };

    ghost null_tolerant = { λ a. false };

    ghost shown_constant = { shown_by_constant (λ a i. number (pos 0)) };

    ghost shown_row = { shown_by_row (λ a i. number (pos 0)) };

    fn validate(dtype: &DType) -> Res<()> {
        match dtype {
            DType::Primitive(PType::U8, _) => Ok(()),
            _ => Err(Fault::Dtype { index: 0 }),
        }
    }

    fn decode(array: &ArrayRef, ctx: ExecutionCtx) -> Res<Buffer<u8>> {
        decode_scales(array, ctx)
    }

    fn decode_constant(array: &ArrayRef, _ctx: ExecutionCtx) -> Res<u8> {
        checked_scale(constant_number(array))
    }

    fn can_decode_null_tolerant(_array: &ArrayRef) -> bool {
        false
    }

    fn decode_null_tolerant(_array: &ArrayRef, _ctx: ExecutionCtx) -> Res<Option<Buffer<u8>>> {
        Ok(None)
    }

    fn column_len(column: &Buffer<u8>) -> usize {
        column.len()
    }

    fn get(column: &Buffer<u8>, index: usize) -> u8 {
        column.as_slice()[index]
    }

    fn get_constant(constant: &u8) -> u8 {
        *constant
    }

    fn values(column: &Buffer<u8>) -> Option<&[u8]> {
        Some(column.as_slice())
    }

    fn again(value: &u8) -> u8 {
        *value
    }
}

// The payload with zeros under nulls. It shares the array's buffer where no row is null.
fn decode_scales(array: &ArrayRef, ctx: ExecutionCtx) -> Res<Buffer<u8>>
    requires { is_integer ptype.U8 (dtype array.now) ≡ true }
    ensures len { IfOk result (λ c. length c ≡ len array.now) }
    ensures same { IfOk result (λ c. (i : ℕ) → i < len array.now → number (number_at (values.U8 c) i) ≡ shown_scale array.now i) }
    ensures read { IfOk result (λ c. (x : Cell) → MustRead array.now x → IsScale x) }
    ensures errors { IfErr result (λ e. DecodeCause IsScale array.now e) }
{
    let numbers = decode_numbers(array, ctx)?;
    let read = read_rows(array);
    if let Mask::AllTrue(_) = read {
        check_scales(numbers.as_slice())?;
        return Ok(numbers);
    }
    scales_of(numbers.as_slice(), &read, ctx)
}

// The rows that show what is stored: each row of a batch constant that is not null, and else those that are not null.
fn read_rows(array: &ArrayRef) -> Mask
    ensures rows { length (mask_bits result) ≡ len array.now }
    ensures tells { (i : ℕ) → i < len array.now → bit (mask_bits result) i ≡ is_read array.now i }
{
    if has_batch_value(array) {
        return Mask::AllTrue(array.len());
    }
    array.validity().execute_mask(array.len())
}

// Refuses numbers of which one is no scale.
fn check_scales(numbers: &[u8]) -> Res<()>
    ensures read { IfOk result (λ _. (i : ℕ) → i < length numbers.now → slice_index_or numbers.now i 0 ≤ 18) }
    ensures errors { IfErr result (λ e. ScaleCause (λ i. true) numbers.now e) }
{
    for number in numbers {
        checked_scale(*number)?;
    }
    Ok(())
}

// The numbers at the rows that are read, and zero at the others. Refuses a number that is read and is no scale.
fn scales_of(numbers: &[u8], read: &Mask, ctx: ExecutionCtx) -> Res<Buffer<u8>>
    requires { length (mask_bits read.now) ≡ length numbers.now }
    ensures len { IfOk result (λ c. length c ≡ length numbers.now) }
    ensures same { IfOk result (λ c. (i : ℕ) → i < length numbers.now → slice_index_or c i 0 ≡ number_or_zero (bit (mask_bits read.now) i) (slice_index_or numbers.now i 0)) }
    ensures read { IfOk result (λ c. (i : ℕ) → i < length numbers.now → slice_index_or c i 0 ≤ 18) }
    ensures errors { IfErr result (λ e. (e ≡ Fault.Memory) ⊎ ScaleCause (λ i. bit (mask_bits read.now) i) numbers.now e) }
{
    let mut scales = Vec::from_elem(ctx.alloc(), 0, numbers.len())?;
    write_scales(numbers, read, scales.as_mut_slice())?;
    Buffer::from_vec(scales, ctx)
}

// Writes the number at each row that is read, and zero at the others.
fn write_scales(numbers: &[u8], read: &Mask, scales: &mut [u8]) -> Res<()>
    requires rows { length (mask_bits read.now) ≡ length numbers.now }
    requires places { length scales.old ≡ length numbers.now }
    ensures len { length scales.new ≡ length numbers.now }
    ensures same { IfOk result (λ _. (i : ℕ) → i < length numbers.now → slice_index_or scales.new i 0 ≡ number_or_zero (bit (mask_bits read.now) i) (slice_index_or numbers.now i 0)) }
    ensures read { IfOk result (λ _. (i : ℕ) → i < length numbers.now → slice_index_or scales.new i 0 ≤ 18) }
    ensures errors { IfErr result (λ e. ScaleCause (λ i. bit (mask_bits read.now) i) numbers.now e) }
{
    for i in 0..numbers.len() {
        scales[i] = scale_or_zero(numbers[i], read.value(i))?;
    }
    Ok(())
}

// The number where it is read, and else zero.
fn scale_or_zero(number: u8, read: bool) -> Res<u8>
    ensures same { IfOk result (λ s. s ≡ number_or_zero read number) }
    ensures read { IfOk result (λ s. s ≤ 18) }
    ensures errors { IfErr result (λ e. (e ≡ Fault.Decode 0) × (read ≡ true) × (18 < number)) }
{
    if read { checked_scale(number) } else { Ok(0) }
}

// Refuses a number that is no scale.
fn checked_scale(number: u8) -> Res<u8>
    ensures same { IfOk result (λ s. s ≡ number) }
    ensures read { IfOk result (λ s. s ≤ 18) }
    ensures errors { IfErr result (λ e. (e ≡ Fault.Decode 0) × (18 < number)) }
{
    if number > MAX_SCALE {
        return Err(Fault::Decode { index: 0 });
    }
    Ok(number)
}
