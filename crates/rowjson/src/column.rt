// A column from its JSON value. Its layout is told first, and each layout has a reader of its own.
ghost use Rattle.std.specs.Prelude.{option_and_then};
ghost use Rattle.serde_json.specs.Find.{get};
ghost use Rattle.serde_json.specs.View.{items_view, view};
ghost use Rattle.rowjson.specs.Columns.{column_in, column_over, columns_in};
ghost use Rattle.rowjson.specs.Reading.{Gives};

mod boolean;
mod constant;
mod extension;
mod masked;
mod native_integers;
mod primitive;
mod scalars;
mod types;
mod validity;
mod values;

use crate::tree::{Stop, text_in};
use boolean::bool_in;
use colbase::{ArrayRef, ExecutionCtx};
use constant::constant_in;
use extension::extension_in;
use masked::masked_in;
use primitive::primitive_in;
use serde_json::Value;

/// The most rows that a batch or a constant may have.
pub const MAX_ROWS: u64 = 1_048_576;

/// The columns, in their order.
pub fn columns_in(items: &[Value], ctx: ExecutionCtx) -> Result<Vec<ArrayRef>, Stop>
    ensures { Gives (λ v. v.items) result (columns_in (items_view items.now)) }
{
    let mut columns = Vec::with_capacity(ctx.alloc(), items.len())?;
    for item in items {
        columns.push(column_in(item, ctx)?)?;
    }
    Ok(columns)
}

/// A column of any layout that is built.
#[cycle(column)]
fn column_in(value: &Value, ctx: ExecutionCtx) -> Result<ArrayRef, Stop>
    ensures { Gives (λ a. a) result (column_in (view value.now)) }
{
    column_by_layout(value, ctx)
}

/// The same, where the column that a member states may be built.
#[cycle(column)]
#[tactic(auto, unfolding(crate::specs::Columns::column_over))]
fn column_by_layout(value: &Value, ctx: ExecutionCtx) -> Result<ArrayRef, Stop>
    ensures { Gives (λ a. a) result (column_over (view value.now) (λ key. option_and_then column_in (get key (view value.now)))) }
{
    let layout = text_in(value, "layout").ok_or(Stop::NoBatch)?;
    if layout == "primitive" {
        primitive_in(value, ctx)
    } else if layout == "bool" {
        bool_in(value, ctx)
    } else if layout == "constant" {
        constant_in(value, ctx)
    } else if layout == "masked" {
        let child = value.get("child").ok_or(Stop::NoBatch)?;
        masked_in(value, column_in(child, ctx)?, ctx)
    } else if layout == "extension" {
        let storage = value.get("storage").ok_or(Stop::NoBatch)?;
        extension_in(value, column_in(storage, ctx)?, ctx)
    } else {
        Err(Stop::NoBatch)
    }
}
