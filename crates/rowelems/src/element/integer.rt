// The elements of the eight integers, by one impl: it reads the payload of an array below its masks, and the value of
// a constant, over any native integer.
ghost use Rattle.std.specs.Prelude.{◌≡◌, ◌<◌, ℕ, IsTrue, length, pos, true, replicate, Some, IsSome, IfOk, IfErr};
ghost use Rattle.coltypes.specs.Cell.{Cell, number};
ghost use Rattle.colbase.specs.Arrays.{dtype, len, MustRead, constant_cell as cell_of_constant};
ghost use Rattle.colbase.specs.Layouts.{is_constant};
ghost use Rattle.coltypes.specs.Fits.{in_range, storage_type};
ghost use Rattle.coltypes.specs.LogicalTypeOf.{logical_type};
ghost use Rattle.coltypes.specs.Values.{number_at, count};
ghost use Rattle.rowelems.specs.Elements.{shown_number};
ghost use Rattle.rowelems.specs.Reading.{is_integer, IsNumberOf};
ghost use Rattle.rowelems.specs.Shown.{stored_or};

use super::InputElement;
use crate::batch::below_masks;
use colbase::{ArrayRef, Buffer, DType, ExecutionCtx, Fault, NativeInt, PType, Res, ScalarValue};

/// An integer type, as far as decoding needs it. It is a trait of this crate, so that the impl for all of its types can
/// stand beside those for other types.
pub trait ElementInt: NativeInt {
    ghost use Rattle.std.specs.Prelude.{◌≡◌, IsTrue};
    ghost use Rattle.coltypes.specs.Fits.{in_range};

    /// A number in the type's range.
    fn from_number(number: i128) -> Self
        requires { IsTrue (in_range Self.ptype number) }
        ensures { Self.number result ≡ number };

    /// Says that the value is in the type's range. Costs nothing.
    fn check(self)
        ensures { IsTrue (in_range Self.ptype (Self.number self)) };

    // A clone is the value itself.
    ghost cloned: { (x y : Self) → Self.is_clone x y → y ≡ x };
}

/// Numbers of the type. Under nulls the stored number is shown, and zero where none is stored.
impl<T: ElementInt> InputElement for T {
    ghost use Rattle.std.specs.Prelude.{length, true, pos};
    ghost use Rattle.coltypes.specs.Cell.{number};
    ghost use Rattle.coltypes.specs.Values.{number_at};
    ghost use Rattle.rowelems.specs.Elements.{shown_number};
    ghost use Rattle.rowelems.specs.Reading.{is_integer, IsNumberOf};
    ghost use Rattle.rowelems.specs.Shown.{stored_or, shown_by_constant, shown_by_row};

    type Column = Buffer<T>;

    type Constant = T;

    type Elem = T;

    const DENSE_SAFE: bool = true;

    const DECODE_INFALLIBLE: bool = true;

    ghost DENSE_SAFE = { true };

    ghost DECODE_INFALLIBLE = { true };

    ghost accepts = { is_integer T.ptype };

    ghost reads = { IsNumberOf T.ptype };

    ghost shown = { shown_number };

    ghost cell = { λ x. number (T.number x) };

    ghost count = { λ c. length c };

    ghost shows = { λ c i. number (number_at (T.stored c) i) };

    ghost constant_cell = { λ x. number (T.number x) };

    ghost null_tolerant = { λ a. true };

    ghost shown_constant = { shown_by_constant (stored_or (number (pos 0))) };

    ghost shown_row = { shown_by_row (stored_or (number (pos 0))) };

    fn validate(dtype: &DType) -> Res<()> {
        if is_integer(dtype, T::integer_type()) {
            Ok(())
        } else {
            Err(Fault::Dtype { index: 0 })
        }
    }

    fn decode(array: &ArrayRef, ctx: ExecutionCtx) -> Res<Buffer<T>> {
        decode_numbers(array, ctx)
    }

    fn decode_constant(array: &ArrayRef, _ctx: ExecutionCtx) -> Res<T> {
        let value: T = constant_number(array);
        value.check();
        Ok(value)
    }

    fn can_decode_null_tolerant(_array: &ArrayRef) -> bool {
        true
    }

    fn decode_null_tolerant(array: &ArrayRef, ctx: ExecutionCtx) -> Res<Option<Buffer<T>>> {
        Ok(Some(decode_numbers(array, ctx)?))
    }

    fn column_len(column: &Buffer<T>) -> usize {
        column.len()
    }

    fn get(column: &Buffer<T>, index: usize) -> T {
        column.as_slice()[index]
    }

    fn get_constant(constant: &T) -> T {
        *constant
    }

    fn values(column: &Buffer<T>) -> Option<&[T]> {
        Some(column.as_slice())
    }

    fn again(value: &T) -> T {
        *value
    }
}

// Whether the type is this integer type, nullable or not.
fn is_integer(dtype: &DType, ptype: PType) -> bool
    ensures { result ≡ is_integer ptype (logical_type dtype.now) }
{
    match dtype {
        DType::Primitive(stated, _) => ptype == *stated,
        _ => false,
    }
}

/// The same value in each row.
pub(crate) fn filled<T: ElementInt>(value: T, rows: usize, ctx: ExecutionCtx) -> Res<Buffer<T>>
    ensures value { IfOk result (λ b. b ≡ replicate rows value) }
    ensures errors { IfErr result (λ e. e ≡ Fault.Memory) }
{
    Buffer::from_vec(Vec::from_elem(ctx.alloc(), value, rows)?, ctx)
}

/// The payload of an array of this integer type. It shares the array's buffer; a constant is written out.
pub(crate) fn decode_numbers<T: ElementInt>(array: &ArrayRef, ctx: ExecutionCtx) -> Res<Buffer<T>>
    requires { is_integer T.ptype (dtype array.now) ≡ true }
    ensures len { IfOk result (λ c. length c ≡ len array.now) }
    ensures same { IfOk result (λ c. (i : ℕ) → i < len array.now → number (number_at (T.stored c) i) ≡ shown_number array.now i) }
    ensures read { IfOk result (λ c. (x : Cell) → MustRead array.now x → IsNumberOf T.ptype x) }
    ensures dense { IfOk result (λ c. (i : ℕ) → i < len array.now → IsNumberOf T.ptype (shown_number array.now i)) }
    ensures errors { IfErr result (λ e. e ≡ Fault.Memory) }
{
    let values = stored_numbers::<T>(array, ctx)?;
    checks(values.as_slice());
    Ok(values)
}

/// Says that each value is in the type's range. The loop has no effect, and none is left in the built code.
pub(crate) fn checks<T: ElementInt>(values: &[T])
    ensures { (i : ℕ) → i < length values.now → IsTrue (in_range T.ptype (number_at (T.stored values.now) i)) }
{
    for value in values {
        value.check();
    }
}

/// The numbers of [`decode_numbers`], with nothing said of their range.
pub(crate) fn stored_numbers<T: ElementInt>(array: &ArrayRef, ctx: ExecutionCtx) -> Res<Buffer<T>>
    requires { is_integer T.ptype (dtype array.now) ≡ true }
    ensures len { IfOk result (λ c. length c ≡ len array.now) }
    ensures same { IfOk result (λ c. (i : ℕ) → i < len array.now → number (number_at (T.stored c) i) ≡ shown_number array.now i) }
    ensures errors { IfErr result (λ e. e ≡ Fault.Memory) }
{
    let stored = below_masks(array);
    match T::values_of(stored) {
        Some(values) => Ok(values.share()),
        None => filled(stored_number(stored), array.len(), ctx),
    }
}

/// The value of a constant, and zero for a null. The constant may be of an extension type.
pub(crate) fn stored_number<T: ElementInt>(array: &ArrayRef) -> T
    requires accepted { is_integer T.ptype (storage_type (dtype array.now)) ≡ true }
    requires constant { is_constant array.now ≡ true }
    ensures { (i : ℕ) → stored_or (number (pos 0)) array.now i ≡ number (T.number result) }
{
    let Some(scalar) = array.as_constant() else {
        unreachable!()
    };
    scalar.checks();
    match scalar.value() {
        Some(ScalarValue::Int(value)) => T::from_number(*value),
        None => T::from_number(0),
        _ => unreachable!(),
    }
}

/// The value of a batch constant of this integer type.
pub(crate) fn constant_number<T: ElementInt>(array: &ArrayRef) -> T
    requires accepted { is_integer T.ptype (dtype array.now) ≡ true }
    requires constant { IsSome (cell_of_constant array.now) }
    ensures { cell_of_constant array.now ≡ Some (number (T.number result)) }
{
    stored_number::<T>(below_masks(array))
}
