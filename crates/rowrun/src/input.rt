// A batch from the bytes that state it: the called function by its name and options, its number of rows, and the columns.
ghost use Rattle.std.specs.Prelude.{◌≡◌, IfOk, IsErrOf, IsSome, Some, None};
ghost use Rattle.serde_json.specs.View.{view};
ghost use Rattle.rowrun.specs.Batch.{call_in, batch_in, batch_of, ticks_in, without_options};
ghost use Rattle.rowjson.specs.Objects.{json_of};
ghost use Rattle.rowrun.specs.BatchView.{batch_view};
ghost use Rattle.rowjson.specs.Reading.{Gives};

use crate::batch::{Batch, Call};
use colbase::{ExecutionArgs, ExecutionCtx};
use rowjson::{
    JsonStop, MAX_ROWS, Stop, array_in, columns_in, has_keys, integer_in, json_in, number_in,
    text_in,
};
use rowsample::TruncateOptions;
use serde_json::Value;

/// Why bytes state no batch.
#[derive(Debug, Drop)]
pub(crate) enum InputStop {
    Memory,
    Form,
    Unbuilt,
}

/// A function that has no options.
#[tactic(auto, unfolding(crate::specs::Batch::without_options))]
fn without_options(call: Call, options: &Value) -> Option<Call>
    ensures { result ≡ without_options call (view options.now) }
{
    if has_keys(options, 0) {
        Some(call)
    } else {
        None
    }
}

/// The options whose one key is `ticks`.
#[tactic(auto, unfolding(crate::specs::Batch::ticks_in))]
fn ticks_in(options: &Value) -> Option<i64>
    ensures { result ≡ ticks_in (view options.now) }
{
    if has_keys(options, 1) {
        integer_in(options, "ticks")
    } else {
        None
    }
}

/// A function by its name, with its options.
#[tactic(auto, unfolding(crate::specs::Batch::call_in))]
fn call_in(name: &str, options: &Value) -> Option<Call>
    ensures { result ≡ call_in name.now (view options.now) }
{
    match name {
        "wrapping_add" => without_options(Call::WrappingAdd, options),
        "checked_add" => without_options(Call::CheckedAdd, options),
        "rescale" => without_options(Call::Rescale, options),
        "truncate" => {
            let ticks = ticks_in(options)?;
            Some(Call::Truncate(TruncateOptions { ticks }))
        }
        _ => None,
    }
}

#[tactic(auto, unfolding(crate::specs::Batch::batch_in))]
fn batch_in(value: &Value, ctx: ExecutionCtx) -> Result<Batch, Stop>
    ensures { Gives batch_view result (batch_in (view value.now)) }
{
    let name = text_in(value, "call").ok_or(Stop::NoBatch)?;
    let options = value.get("options").ok_or(Stop::NoBatch)?;
    let call = call_in(name, options).ok_or(Stop::NoBatch)?;
    let rows = number_in(value, "rows").ok_or(Stop::NoBatch)?;
    let items = array_in(value, "columns").ok_or(Stop::NoBatch)?;
    let columns = columns_in(items, ctx)?;
    if has_keys(value, 4) && rows <= MAX_ROWS {
        Ok(Batch {
            call,
            args: ExecutionArgs::new(columns, rows as usize),
        })
    } else {
        Err(Stop::NoBatch)
    }
}

/// The batch that the bytes state.
#[tactic(auto, unfolding(crate::specs::Batch::batch_of))]
pub(crate) fn read_batch(bytes: &[u8], ctx: ExecutionCtx) -> Result<Batch, InputStop>
    ensures ok { IfOk result (λ b. batch_of bytes.now ≡ Some (batch_view b)) }
    ensures form { IsErrOf result InputStop.Form → json_of bytes.now ≡ None }
    ensures unbuilt { IsErrOf result InputStop.Unbuilt → IsSome (json_of bytes.now) }
    ensures no_batch { IsErrOf result InputStop.Unbuilt → batch_of bytes.now ≡ None }
{
    let value = match json_in(ctx.alloc(), bytes) {
        Ok(value) => value,
        Err(JsonStop::Memory) => return Err(InputStop::Memory),
        Err(JsonStop::Form) => return Err(InputStop::Form),
    };
    match batch_in(&value, ctx) {
        Ok(batch) => Ok(batch),
        Err(Stop::Memory) => Err(InputStop::Memory),
        Err(Stop::NoBatch) => Err(InputStop::Unbuilt),
    }
}
