// The element of truth values. It reads the payload below the masks, with its nulls: each stored bit is a truth value.
ghost use Rattle.std.specs.Prelude.{◌≡◌, ◌<◌, ℕ, length, true, false, replicate, Some, IsSome, IfOk, IfErr};
ghost use Rattle.bitlane.specs.Bits.{bit};
ghost use Rattle.coltypes.specs.Cell.{Cell, truth};
ghost use Rattle.colbase.specs.Arrays.{dtype, len, MustRead, constant_cell as cell_of_constant};
ghost use Rattle.colbase.specs.Layouts.{is_constant};
ghost use Rattle.rowelems.specs.Elements.{shown_truth};
ghost use Rattle.rowelems.specs.Reading.{is_bool, IsTruth};
ghost use Rattle.rowelems.specs.Shown.{stored_or};

use super::InputElement;
use crate::batch::below_masks;
use bitlane::BitBuffer;
use colbase::{ArrayRef, DType, ExecutionCtx, Fault, Res, ScalarValue};

/// Truth values. Under nulls the stored value is shown, and false where none is stored.
impl InputElement for bool {
    ghost use Rattle.std.specs.Prelude.{length, true, false};
    ghost use Rattle.bitlane.specs.Bits.{bit};
    ghost use Rattle.coltypes.specs.Cell.{truth};
    ghost use Rattle.rowelems.specs.Elements.{shown_truth};
    ghost use Rattle.rowelems.specs.Reading.{is_bool, IsTruth};
    ghost use Rattle.rowelems.specs.Shown.{stored_or, shown_by_constant, shown_by_row};

    type Column = BitBuffer;

    type Constant = bool;

    type Elem = bool;

    const DENSE_SAFE: bool = true;

    const DECODE_INFALLIBLE: bool = true;

    ghost DENSE_SAFE = { true };

    ghost DECODE_INFALLIBLE = { true };

    ghost accepts = { is_bool };

    ghost reads = { IsTruth };

    ghost shown = { shown_truth };

    ghost cell = { truth };

    ghost count = { λ c. length c };

    ghost shows = { λ c i. truth (bit c i) };

    ghost constant_cell = { truth };

    ghost null_tolerant = { λ a. true };

    ghost shown_constant = { shown_by_constant (stored_or (truth false)) };

    ghost shown_row = { shown_by_row (stored_or (truth false)) };

    fn validate(dtype: &DType) -> Res<()> {
        match dtype {
            DType::Bool(_) => Ok(()),
            _ => Err(Fault::Dtype { index: 0 }),
        }
    }

    fn decode(array: &ArrayRef, ctx: ExecutionCtx) -> Res<BitBuffer> {
        decode_bits(array, ctx)
    }

    fn decode_constant(array: &ArrayRef, _ctx: ExecutionCtx) -> Res<bool> {
        Ok(constant_bit(array))
    }

    fn can_decode_null_tolerant(_array: &ArrayRef) -> bool {
        true
    }

    fn decode_null_tolerant(array: &ArrayRef, ctx: ExecutionCtx) -> Res<Option<BitBuffer>> {
        Ok(Some(decode_bits(array, ctx)?))
    }

    fn column_len(column: &BitBuffer) -> usize {
        column.len()
    }

    fn get(column: &BitBuffer, index: usize) -> bool {
        column.value(index)
    }

    fn get_constant(constant: &bool) -> bool {
        *constant
    }

    fn values(_column: &BitBuffer) -> Option<&[bool]> {
        None
    }

    fn again(value: &bool) -> bool {
        *value
    }
}

// The payload of an array of truth values. It shares the array's buffer; a constant is written out.
fn decode_bits(array: &ArrayRef, ctx: ExecutionCtx) -> Res<BitBuffer>
    requires { is_bool (dtype array.now) ≡ true }
    ensures len { IfOk result (λ c. length c ≡ len array.now) }
    ensures same { IfOk result (λ c. (i : ℕ) → i < len array.now → truth (bit c i) ≡ shown_truth array.now i) }
    ensures read { IfOk result (λ c. (x : Cell) → MustRead array.now x → IsTruth x) }
    ensures errors { IfErr result (λ e. e ≡ Fault.Memory) }
{
    let stored = below_masks(array);
    match stored.bits() {
        Some(bits) => Ok(bits.share()),
        None => filled_bits(stored_bit(stored), array.len(), ctx),
    }
}

// The same value in each row.
fn filled_bits(value: bool, rows: usize, ctx: ExecutionCtx) -> Res<BitBuffer>
    ensures value { IfOk result (λ c. c ≡ replicate rows value) }
    ensures errors { IfErr result (λ e. e ≡ Fault.Memory) }
{
    let bits = if value {
        BitBuffer::new_set(ctx.alloc(), rows)?
    } else {
        BitBuffer::new_unset(ctx.alloc(), rows)?
    };
    Ok(bits)
}

// The value of a constant, and false for a null.
fn stored_bit(array: &ArrayRef) -> bool
    requires accepted { is_bool (dtype array.now) ≡ true }
    requires constant { is_constant array.now ≡ true }
    ensures { (i : ℕ) → stored_or (truth false) array.now i ≡ truth result }
{
    let Some(scalar) = array.as_constant() else {
        unreachable!()
    };
    scalar.checks();
    match scalar.value() {
        Some(ScalarValue::Bool(value)) => *value,
        None => false,
        _ => unreachable!(),
    }
}

fn constant_bit(array: &ArrayRef) -> bool
    requires accepted { is_bool (dtype array.now) ≡ true }
    requires constant { IsSome (cell_of_constant array.now) }
    ensures { cell_of_constant array.now ≡ Some (truth result) }
{
    stored_bit(below_masks(array))
}
