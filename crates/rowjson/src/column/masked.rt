// Columns whose rows are null where a validity says so, over a child that has no null.
ghost use Rattle.serde_json.specs.View.{view};
ghost use Rattle.rowjson.specs.Columns.{masked_by, masked_in};
ghost use Rattle.rowjson.specs.Reading.{Gives};

use super::validity::{has_keys_and_valid, valid_in};
use crate::tree::Stop;
use colbase::{ArrayRef, ExecutionCtx, MaskedArray, Nullability, Validity};
use serde_json::Value;

fn masked_by(child: ArrayRef, validity: Validity, ctx: ExecutionCtx) -> Result<ArrayRef, Stop>
    ensures { Gives (λ a. a) result (masked_by child validity) }
{
    Ok(MaskedArray::try_new(child, validity, ctx)?)
}

/// A column of the masked layout over this child.
#[tactic(auto, unfolding(crate::specs::Columns::masked_in))]
pub(super) fn masked_in(value: &Value, child: ArrayRef, ctx: ExecutionCtx) -> Result<ArrayRef, Stop>
    ensures { Gives (λ a. a) result (masked_in (view value.now) child) }
{
    // The mask may hold nulls whatever the child's type is.
    let valid = valid_in(value, Nullability::Nullable, ctx)?;
    if !has_keys_and_valid(&valid, 2, value) {
        return Err(Stop::NoBatch);
    }
    masked_by(child, valid.unwrap_or(Validity::AllValid), ctx)
}
