// The values of a column, with or without nulls, for each type that a column lists. What is stored under a null is determined by the type.
ghost use Rattle.std.specs.Prelude.{◌≡◌, List, Option, Some, IfOk, IsErrOf, None};
ghost use Rattle.serde_json.specs.View.{view, items_view};
ghost use Rattle.rowjson.specs.Columns.{array_of};
ghost use Rattle.rowjson.specs.Objects.{value_or_null, all_in};
ghost use Rattle.rowjson.specs.Reading.{Gives, AreOf};

use super::validity::marked;
use crate::tree::Stop;
use colbase::{ArrayRef, ExecutionCtx, Nullability, Validity};
use serde_json::Value;
use std::alloc::Global;

/// A type whose values a column lists.
pub(super) trait ColumnValue: Copy {
    ghost use Rattle.std.specs.Prelude.{◌≡◌, List, Option};
    ghost use Rattle.serde_json.specs.Data.{Data};
    ghost use Rattle.serde_json.specs.View.{view};
    ghost use Rattle.colbase.specs.Arrays.{Array};
    ghost use Rattle.coltypes.specs.declared.validity.Validity.{Validity};
    ghost use Rattle.rowjson.specs.Columns.{laid_out};
    ghost use Rattle.rowjson.specs.Reading.{Gives};

    // The value that is stated.
    ghost states: { Data → Option Self };

    // What is stored under a null.
    ghost under_null: { Self };

    // The array of values with a validity.
    ghost layout: { List Self → Validity → Array };

    fn read(value: &Value) -> Option<Self>
        ensures { result ≡ states (view value.now) };

    fn under_null() -> Self
        ensures { result ≡ under_null };

    fn array(values: Vec<Self>, validity: Validity, ctx: ExecutionCtx) -> Result<ArrayRef, Stop>
        ensures { Gives (λ a. a) result (laid_out layout values.items validity) };
}

/// Values none of which is null.
fn required_values<T: ColumnValue>(alloc: Global, items: &[Value]) -> Result<Vec<T>, Stop>
    ensures { Gives (λ v. v.items) result (all_in T.states (items_view items.now)) }
{
    let mut values = Vec::with_capacity(alloc, items.len())?;
    for item in items {
        let Some(value) = T::read(item) else {
            return Err(Stop::NoBatch);
        };
        values.push(value)?;
    }
    Ok(values)
}

/// A value or a null.
fn value_or_null<T: ColumnValue>(item: &Value) -> Option<Option<T>>
    ensures { result ≡ value_or_null T.states (view item.now) }
{
    if item.is_null() {
        return Some(None);
    }
    match T::read(item) {
        Some(value) => Some(Some(value)),
        None => None,
    }
}

/// What is stored for the values, and which of them are not null.
fn optional_values<T: ColumnValue>(
    alloc: Global,
    items: &[Value],
) -> Result<(Vec<T>, Vec<bool>), Stop>
    ensures ok { IfOk result (λ r. (cells : List (Option T))
        × (all_in (value_or_null T.states) (items_view items.now) ≡ Some cells) × AreOf T.under_null cells r.0.items r.1.items) }
    ensures none { IsErrOf result Stop.NoBatch → all_in (value_or_null T.states) (items_view items.now) ≡ None }
{
    let mut values = Vec::with_capacity(alloc, items.len())?;
    let mut marks = Vec::with_capacity(alloc, items.len())?;
    for item in items {
        let Some(cell) = value_or_null::<T>(item) else {
            return Err(Stop::NoBatch);
        };
        values.push(cell.unwrap_or(T::under_null()))?;
        marks.push(cell.is_some())?;
    }
    Ok((values, marks))
}

/// The array of the values, where `valid` is the validity that the column gives.
pub(super) fn array_of<T: ColumnValue>(
    items: &[Value],
    nullability: Nullability,
    valid: Option<Validity>,
    ctx: ExecutionCtx,
) -> Result<ArrayRef, Stop>
    ensures { Gives (λ a. a) result (array_of T.states T.under_null T.layout nullability valid (items_view items.now)) }
{
    if let Some(validity) = valid {
        return T::array(required_values(ctx.alloc(), items)?, validity, ctx);
    }
    match nullability {
        Nullability::NonNullable => {
            T::array(
                required_values(ctx.alloc(), items)?,
                Validity::NonNullable,
                ctx,
            )
        }
        Nullability::Nullable => {
            let (values, marks) = optional_values(ctx.alloc(), items)?;
            T::array(values, marked(marks, ctx.alloc())?, ctx)
        }
    }
}
