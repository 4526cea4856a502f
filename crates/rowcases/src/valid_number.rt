// The element of `SumValid`.
ghost use Rattle.std.specs.Prelude.{◌≡◌, length};

use colbase::{ArrayRef, Buffer, DType, ExecutionCtx, Res};
use rowtypes::InputElement;

/// Numbers that count as stored only where they aren't null, so that no row with a null runs. Each column is decoded with its
/// nulls.
pub struct ValidNumber;

impl InputElement for ValidNumber {
    ghost use Rattle.std.specs.Prelude.{length, true, false, pos};
    ghost use Rattle.coltypes.specs.declared.dtype.PType.TheVariants as ptype;
    ghost use Rattle.coltypes.specs.declared.values.PrimitiveValues.TheVariants as values;
    ghost use Rattle.coltypes.specs.Cell.{number};
    ghost use Rattle.coltypes.specs.Values.{number_at};
    ghost use Rattle.rowelems.specs.Elements.{shown_number};
    ghost use Rattle.rowelems.specs.Reading.{is_integer, IsNumberOf};
    ghost use Rattle.rowelems.specs.Shown.{stored_or, shown_by_constant, shown_by_row};

    type Column = Buffer<i64>;

    type Constant = i64;

    type Elem = i64;

    const DENSE_SAFE: bool = false;

    const DECODE_INFALLIBLE: bool = true;

    ghost DENSE_SAFE = { false };

    ghost DECODE_INFALLIBLE = { true };

    ghost accepts = { is_integer ptype.I64 };

    ghost reads = { IsNumberOf ptype.I64 };

    ghost shown = { shown_number };

    ghost cell = { λ x. number x };

    ghost count = { λ c. length c };

    ghost shows = { λ c i. number (number_at (values.I64 c) i) };

    ghost constant_cell = { λ x. number x };

    ghost null_tolerant = { λ a. true };

    ghost shown_constant = { shown_by_constant (stored_or (number (pos 0))) };

    ghost shown_row = { shown_by_row (stored_or (number (pos 0))) };

    fn validate(dtype: &DType) -> Res<()> {
        <i64 as InputElement>::validate(dtype)
    }

    fn decode(array: &ArrayRef, ctx: ExecutionCtx) -> Res<Buffer<i64>> {
        <i64 as InputElement>::decode(array, ctx)
    }

    fn decode_constant(array: &ArrayRef, ctx: ExecutionCtx) -> Res<i64> {
        <i64 as InputElement>::decode_constant(array, ctx)
    }

    fn can_decode_null_tolerant(_array: &ArrayRef) -> bool {
        true
    }

    fn decode_null_tolerant(array: &ArrayRef, ctx: ExecutionCtx) -> Res<Option<Buffer<i64>>> {
        <i64 as InputElement>::decode_null_tolerant(array, ctx)
    }

    fn column_len(column: &Buffer<i64>) -> usize {
        column.len()
    }

    fn get(column: &Buffer<i64>, index: usize) -> i64 {
        <i64 as InputElement>::get(column, index)
    }

    fn get_constant(constant: &i64) -> i64 {
        *constant
    }

    fn values(column: &Buffer<i64>) -> Option<&[i64]> {
        <i64 as InputElement>::values(column)
    }

    fn again(value: &i64) -> i64 {
        *value
    }
}
