// Columns of whole numbers, by one impl of `ColumnValue` for the eight integer types.
ghost use Rattle.std.specs.Prelude.{◌≡◌};
ghost use Rattle.serde_json.specs.View.{view, items_view};
ghost use Rattle.colbase.specs.Arrays.{primitive};
ghost use Rattle.rowjson.specs.Columns.{laid_out, integer_array, primitive_in};
ghost use Rattle.rowjson.specs.Reading.{Gives};

use super::types::{as_integer_type, type_in};
use super::validity::{has_keys_and_valid, valid_in};
use super::values::{ColumnValue, array_of};
use crate::tree::{Stop, array_in};
use colbase::{
    ArrayRef, Buffer, ExecutionCtx, NativeInt, Nullability, PType, PrimitiveArray, Validity,
};
use serde_json::Value;

/// An integer type whose values a column lists.
pub(super) trait ColumnInt: NativeInt {
    ghost use Rattle.std.specs.Prelude.{◌≡◌, Option};
    ghost use Rattle.serde_json.specs.Data.{Data};
    ghost use Rattle.serde_json.specs.View.{view};

    // The number of the type that is stated.
    ghost number_in: { Data → Option Self };

    ghost zero: { Self };

    fn number_in(value: &Value) -> Option<Self>
        ensures { result ≡ number_in (view value.now) };

    fn zero() -> Self
        ensures { result ≡ zero };
}

impl<T: ColumnInt> ColumnValue for T {
    ghost use Rattle.colbase.specs.Arrays.{primitive};

    ghost states = { T.number_in };

    ghost under_null = { T.zero };

    ghost layout = { λ xs v. primitive (T.stored xs) v };

    fn read(value: &Value) -> Option<T> {
        T::number_in(value)
    }

    fn under_null() -> T {
        T::zero()
    }

    fn array(values: Vec<T>, validity: Validity, ctx: ExecutionCtx) -> Result<ArrayRef, Stop>
        ensures { Gives (λ a. a) result (laid_out (λ xs v. primitive (T.stored xs) v) values.items validity) }
    {
        let values = Buffer::from_vec(values, ctx)?;
        Ok(PrimitiveArray::try_new(values, validity, ctx)?)
    }
}

/// The array of whole numbers of an integer type.
fn integer_array(
    ptype: PType,
    items: &[Value],
    nullability: Nullability,
    valid: Option<Validity>,
    ctx: ExecutionCtx,
) -> Result<ArrayRef, Stop>
    ensures { Gives (λ a. a) result (integer_array ptype nullability valid (items_view items.now)) }
{
    match ptype {
        PType::I8 => array_of::<i8>(items, nullability, valid, ctx),
        PType::I16 => array_of::<i16>(items, nullability, valid, ctx),
        PType::I32 => array_of::<i32>(items, nullability, valid, ctx),
        PType::I64 => array_of::<i64>(items, nullability, valid, ctx),
        PType::U8 => array_of::<u8>(items, nullability, valid, ctx),
        PType::U16 => array_of::<u16>(items, nullability, valid, ctx),
        PType::U32 => array_of::<u32>(items, nullability, valid, ctx),
        PType::U64 => array_of::<u64>(items, nullability, valid, ctx),
    }
}

/// A column of the primitive layout.
#[tactic(auto, unfolding(crate::specs::Columns::primitive_in))]
pub(super) fn primitive_in(value: &Value, ctx: ExecutionCtx) -> Result<ArrayRef, Stop>
    ensures { Gives (λ a. a) result (primitive_in (view value.now)) }
{
    let dtype = type_in(value, ctx)?;
    let (ptype, nullability) = as_integer_type(&dtype).ok_or(Stop::NoBatch)?;
    let items = array_in(value, "values").ok_or(Stop::NoBatch)?;
    let valid = valid_in(value, nullability, ctx)?;
    if !has_keys_and_valid(&valid, 3, value) {
        return Err(Stop::NoBatch);
    }
    integer_array(ptype, items, nullability, valid, ctx)
}
