// Columns of truth values. They share the reading of values with whole numbers by the trait `ColumnValue`.
ghost use Rattle.serde_json.specs.View.{view};
ghost use Rattle.rowjson.specs.Columns.{laid_out, bool_in};
ghost use Rattle.rowjson.specs.Reading.{Gives};

use super::types::{as_bool_type, type_in};
use super::validity::{has_keys_and_valid, valid_in};
use super::values::{ColumnValue, array_of};
use crate::tree::{Stop, array_in};
use bitlane::BitBuffer;
use colbase::{ArrayRef, BoolArray, ExecutionCtx, Validity};
use serde_json::Value;

impl ColumnValue for bool {
    ghost use Rattle.std.specs.Prelude.{false};
    ghost use Rattle.serde_json.specs.Find.{as_bool};
    ghost use Rattle.colbase.specs.Arrays.{bool};

    ghost states = { as_bool };

    ghost under_null = { false };

    ghost layout = { λ xs v. bool xs v };

    fn read(value: &Value) -> Option<bool> {
        value.as_bool()
    }

    fn under_null() -> bool {
        false
    }

    fn array(values: Vec<bool>, validity: Validity, ctx: ExecutionCtx) -> Result<ArrayRef, Stop>
        ensures { Gives (λ a. a) result (laid_out (λ xs v. bool xs v) values.items validity) }
    {
        let bits = BitBuffer::from_vec(ctx.alloc(), values)?;
        Ok(BoolArray::try_new(bits, validity, ctx)?)
    }
}

/// A column of the boolean layout.
#[tactic(auto, unfolding(crate::specs::Columns::bool_in))]
pub(super) fn bool_in(value: &Value, ctx: ExecutionCtx) -> Result<ArrayRef, Stop>
    ensures { Gives (λ a. a) result (bool_in (view value.now)) }
{
    let dtype = type_in(value, ctx)?;
    let nullability = as_bool_type(&dtype).ok_or(Stop::NoBatch)?;
    let items = array_in(value, "values").ok_or(Stop::NoBatch)?;
    let valid = valid_in(value, nullability, ctx)?;
    if !has_keys_and_valid(&valid, 3, value) {
        return Err(Stop::NoBatch);
    }
    array_of::<bool>(items, nullability, valid, ctx)
}
