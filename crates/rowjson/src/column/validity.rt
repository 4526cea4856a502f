// The validity of a column, by the key `valid` or by the nulls among its values.
ghost use Rattle.std.specs.Prelude.{◌≡◌, IfOk};
ghost use Rattle.std.specs.List.{list_all};
ghost use Rattle.serde_json.specs.Find.{as_bool, as_str};
ghost use Rattle.serde_json.specs.View.{view, items_view};
ghost use Rattle.rowjson.specs.Columns.{is_text, stated_validity, valid_in, has_keys_and_valid, marked};
ghost use Rattle.rowjson.specs.Objects.{all_in};
ghost use Rattle.rowjson.specs.Reading.{Gives};

use crate::tree::{Stop, has_keys};
use bitlane::BitBuffer;
use colbase::{ExecutionCtx, Nullability, Validity};
use serde_json::Value;
use std::alloc::{AllocError, Global};

/// Whether the value is this text.
fn is_text(value: &Value, word: &str) -> bool
    ensures { result ≡ is_text word.now (as_str (view value.now)) }
{
    match value.as_str() {
        Some(text) => text == word,
        None => false,
    }
}

fn truth_values(alloc: Global, items: &[Value]) -> Result<Vec<bool>, Stop>
    ensures { Gives (λ v. v.items) result (all_in as_bool (items_view items.now)) }
{
    let mut values = Vec::with_capacity(alloc, items.len())?;
    for item in items {
        let Some(value) = item.as_bool() else {
            return Err(Stop::NoBatch);
        };
        values.push(value)?;
    }
    Ok(values)
}

/// The validity that the value of the key `valid` states.
#[tactic(auto, unfolding(crate::specs::Columns::stated_validity))]
pub(super) fn stated_validity(value: &Value, ctx: ExecutionCtx) -> Result<Validity, Stop>
    ensures { Gives (λ v. v) result (stated_validity (view value.now)) }
{
    if is_text(value, "none") {
        return Ok(Validity::AllInvalid);
    }
    let items = value.as_array().ok_or(Stop::NoBatch)?;
    let marks = truth_values(ctx.alloc(), items)?;
    Ok(Validity::Array(BitBuffer::from_vec(ctx.alloc(), marks)?))
}

/// The validity by the key `valid`, where the object has the key.
#[tactic(auto, unfolding(crate::specs::Columns::valid_in))]
pub(super) fn valid_in(
    value: &Value,
    nullability: Nullability,
    ctx: ExecutionCtx,
) -> Result<Option<Validity>, Stop>
    ensures { Gives (λ v. v) result (valid_in nullability (view value.now)) }
{
    let Some(valid) = value.get("valid") else {
        return Ok(None);
    };
    match nullability {
        Nullability::NonNullable => Err(Stop::NoBatch),
        Nullability::Nullable => Ok(Some(stated_validity(valid, ctx)?)),
    }
}

/// Whether the value is an object with so many keys besides `valid`.
pub(super) fn has_keys_and_valid(valid: &Option<Validity>, count: u8, value: &Value) -> bool
    ensures { result ≡ has_keys_and_valid valid.now count (view value.now) }
{
    match valid {
        None => has_keys(value, count as usize),
        Some(_) => has_keys(value, count as usize + 1),
    }
}

/// The validity of a nullable column with these marks.
pub(super) fn marked(marks: Vec<bool>, alloc: Global) -> Result<Validity, AllocError>
    ensures { IfOk result (λ v. v ≡ marked marks.items) }
{
    if all_true(&marks) {
        return Ok(Validity::AllValid);
    }
    Ok(Validity::Array(BitBuffer::from_vec(alloc, marks)?))
}

fn all_true(marks: &[bool]) -> bool
    ensures { result ≡ list_all (λ m. m) marks.now }
{
    marks.iter().all(|m| *m)
}
