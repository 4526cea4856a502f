// Columns of one scalar in each row, whose number of rows is stated and so has a limit of its own.
ghost use Rattle.serde_json.specs.View.{view};
ghost use Rattle.rowjson.specs.Columns.{constant_in};
ghost use Rattle.rowjson.specs.Reading.{Gives};

use super::MAX_ROWS;
use super::scalars::scalar_in;
use super::types::type_in;
use crate::tree::{Stop, has_keys, number_in};
use colbase::{ArrayRef, ConstantArray, ExecutionCtx};
use serde_json::Value;

/// A column of the constant layout.
#[tactic(auto, unfolding(crate::specs::Columns::constant_in))]
pub(super) fn constant_in(value: &Value, ctx: ExecutionCtx) -> Result<ArrayRef, Stop>
    ensures { Gives (λ a. a) result (constant_in (view value.now)) }
{
    let dtype = type_in(value, ctx)?;
    let stated = value.get("value").ok_or(Stop::NoBatch)?;
    let scalar = scalar_in(&dtype, stated).ok_or(Stop::NoBatch)?;
    let rows = number_in(value, "len").ok_or(Stop::NoBatch)?;
    if !has_keys(value, 4) || rows > MAX_ROWS {
        return Err(Stop::NoBatch);
    }
    Ok(ConstantArray::try_new(scalar, rows as usize, ctx)?)
}
