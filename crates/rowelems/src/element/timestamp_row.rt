// The element of timestamps. It reads the payload of the 64-bit storage below the masks and the extension; a constant
// may be of the extension type itself.
ghost use Rattle.std.specs.Prelude.{◌≡◌, ◌<◌, ℕ, length, true, bytes_eq, Some, IsSome, IfOk, IfErr};
ghost use Rattle.coltypes.specs.declared.dtype.PType.TheVariants as ptype;
ghost use Rattle.coltypes.specs.declared.values.PrimitiveValues.TheVariants as values;
ghost use Rattle.coltypes.specs.Cell.{Cell, number};
ghost use Rattle.colbase.specs.Arrays.{dtype, len, MustRead, constant_cell as cell_of_constant};
ghost use Rattle.coltypes.specs.LogicalTypeOf.{extension_type, logical_type};
ghost use Rattle.coltypes.specs.Values.{number_at};
ghost use Rattle.rowelems.specs.Elements.{shown_number};
ghost use Rattle.rowelems.specs.Reading.{is_integer, is_time_unit, is_timestamp, timestamp_name, IsNumberOf};

use super::InputElement;
use super::integer::{checks, constant_number, filled, stored_number, stored_numbers};
use crate::batch::below_masks;
use colbase::{ArrayRef, Buffer, DType, ExecutionCtx, ExtDType, Fault, Name, PType, Res, TimeUnit};

const TIMESTAMP: &str = "vortex.timestamp";

/// A timestamp, as its count of a unit that is not days. Under nulls the stored count is shown, and zero where none is stored.
/// The zone of its type is not looked at. This project's own.
pub struct TimestampRow;

impl InputElement for TimestampRow {
    ghost use Rattle.std.specs.Prelude.{length, true, pos};
    ghost use Rattle.coltypes.specs.declared.dtype.PType.TheVariants as ptype;
    ghost use Rattle.coltypes.specs.declared.values.PrimitiveValues.TheVariants as values;
    ghost use Rattle.coltypes.specs.Cell.{number};
    ghost use Rattle.coltypes.specs.Values.{number_at};
    ghost use Rattle.rowelems.specs.Elements.{shown_number};
    ghost use Rattle.rowelems.specs.Reading.{is_timestamp, IsNumberOf};
    ghost use Rattle.rowelems.specs.Shown.{stored_or, shown_by_constant, shown_by_row};

    type Column = Buffer<i64>;

    type Constant = i64;

    type Elem = i64;

    const DENSE_SAFE: bool = true;

    const DECODE_INFALLIBLE: bool = true;

    ghost DENSE_SAFE = { true };

    ghost DECODE_INFALLIBLE = { true };

    ghost accepts = { is_timestamp };

    ghost reads = { IsNumberOf ptype.I64 };

    ghost shown = { shown_number };

    ghost cell = { λ x. number x };

    ghost count = { λ c. length c };

    ghost shows = { λ c i. number (number_at (values.I64 c) i) };

    ghost constant_cell = { λ x. number x };

    ghost null_tolerant = { λ a. true };

    ghost shown_constant = { shown_by_constant (stored_or (number (pos 0))) };

    ghost shown_row = { shown_by_row (stored_or (number (pos 0))) };

    fn validate(dtype: &DType) -> Res<()> {
        if is_accepted(dtype) {
            Ok(())
        } else {
            Err(Fault::Dtype { index: 0 })
        }
    }

    fn decode(array: &ArrayRef, ctx: ExecutionCtx) -> Res<Buffer<i64>> {
        decode_timestamps(array, ctx)
    }

    fn decode_constant(array: &ArrayRef, _ctx: ExecutionCtx) -> Res<i64> {
        Ok(constant_timestamp(array))
    }

    fn can_decode_null_tolerant(_array: &ArrayRef) -> bool {
        true
    }

    fn decode_null_tolerant(array: &ArrayRef, ctx: ExecutionCtx) -> Res<Option<Buffer<i64>>> {
        Ok(Some(decode_timestamps(array, ctx)?))
    }

    fn column_len(column: &Buffer<i64>) -> usize {
        column.len()
    }

    fn get(column: &Buffer<i64>, index: usize) -> i64 {
        column.as_slice()[index]
    }

    fn get_constant(constant: &i64) -> i64 {
        *constant
    }

    fn values(column: &Buffer<i64>) -> Option<&[i64]> {
        Some(column.as_slice())
    }

    fn again(value: &i64) -> i64 {
        *value
    }
}

fn is_accepted(dtype: &DType) -> bool
    ensures { result ≡ is_timestamp (logical_type dtype.now) }
{
    match dtype {
        DType::Extension(ext) => {
            is_named(&ext.name) && is_unit(ext.unit) && is_wide(ext.storage.get())
        }
        _ => false,
    }
}

fn is_named(name: &Name) -> bool
    ensures { result ≡ bytes_eq name.now timestamp_name }
{
    name.as_bytes() == TIMESTAMP.as_bytes()
}

fn is_unit(unit: Option<TimeUnit>) -> bool
    ensures { result ≡ is_time_unit unit }
{
    match unit {
        None => false,
        Some(TimeUnit::Days) => false,
        Some(_) => true,
    }
}

fn is_wide(storage: &DType) -> bool
    ensures { result ≡ is_integer ptype.I64 (logical_type storage.now) }
{
    match storage {
        DType::Primitive(PType::I64, _) => true,
        _ => false,
    }
}

// The payload of an array of timestamps. It shares the buffer of the storage; a constant is written out.
fn decode_timestamps(array: &ArrayRef, ctx: ExecutionCtx) -> Res<Buffer<i64>>
    requires { is_timestamp (dtype array.now) ≡ true }
    ensures len { IfOk result (λ c. length c ≡ len array.now) }
    ensures same { IfOk result (λ c. (i : ℕ) → i < len array.now → number (number_at (values.I64 c) i) ≡ shown_number array.now i) }
    ensures read { IfOk result (λ c. (x : Cell) → MustRead array.now x → IsNumberOf ptype.I64 x) }
    ensures dense { IfOk result (λ c. (i : ℕ) → i < len array.now → IsNumberOf ptype.I64 (shown_number array.now i)) }
    ensures errors { IfErr result (λ e. e ≡ Fault.Memory) }
{
    let values = stored_timestamps(array, ctx)?;
    checks(values.as_slice());
    Ok(values)
}

fn stored_timestamps(array: &ArrayRef, ctx: ExecutionCtx) -> Res<Buffer<i64>>
    requires { is_timestamp (dtype array.now) ≡ true }
    ensures len { IfOk result (λ c. length c ≡ len array.now) }
    ensures same { IfOk result (λ c. (i : ℕ) → i < len array.now → number (number_at (values.I64 c) i) ≡ shown_number array.now i) }
    ensures errors { IfErr result (λ e. e ≡ Fault.Memory) }
{
    let outer = below_masks(array);
    outer.checks();
    match outer.ext_storage() {
        Some(storage) => stored_numbers(storage, ctx),
        None => filled(stored_number(outer), array.len(), ctx),
    }
}

fn constant_timestamp(array: &ArrayRef) -> i64
    requires accepted { is_timestamp (dtype array.now) ≡ true }
    requires constant { IsSome (cell_of_constant array.now) }
    ensures { cell_of_constant array.now ≡ Some (number result) }
{
    let outer = below_masks(array);
    outer.checks();
    match outer.ext_storage() {
        Some(storage) => constant_number(storage),
        None => stored_number(outer),
    }
}
