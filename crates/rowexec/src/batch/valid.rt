// Execution of the rows at which no argument is null: on the columns as they are where each can be decoded with its nulls, and else
// on columns that are filtered to these rows.
ghost use Rattle.std.specs.Prelude.{◌≡◌, ◌<◌, ℕ, length, is_some, IfOk, IfErr};
ghost use Rattle.bitlane.specs.Bits.{bit};
ghost use Rattle.coltypes.specs.Keep.{trues};
ghost use Rattle.coltypes.specs.declared.fault.Fault.TheVariants.{Memory};
ghost use Rattle.rowtypes.specs.Rows.{logical_types};
ghost use Rattle.rowexec.specs.Calls.{IsPlannedCall};
ghost use Rattle.rowexec.specs.Rows.{EachHasRows, types_of};
ghost use Rattle.rowexec.specs.Selections.{FilteredFrom, MarksFullRows};
ghost use Rattle.rowexec.specs.Visits.{RunsSteps};

use super::run::execute_row_kernel;
use crate::execution_args::RowFnExecutionArgs;
use crate::visitor::Visited;
use bitlane::BitBuffer;
use colbase::{ArrayRef, ExecutionCtx, Mask, Res};
use rowloops::RowDomain;
use rowplan::RowFn;

/// The values of the rows that are marked, each at its own row: on the columns as they are where each can be decoded with its
/// nulls, and else on columns filtered to these rows.
pub(super) fn execute_valid<F: RowFn>(
    call: &RowFnExecutionArgs<F>,
    valid: &BitBuffer,
) -> Visited<Option<ArrayRef>>
    requires call { IsPlannedCall (F.law call.now.options.now (types_of call.now.columns.now)) (logical_types call.now.types.now)
        call.now.columns.now call.now.row_count call.now.plan.now call.now.full.now }
    requires full { MarksFullRows call.now.columns.now call.now.row_count valid.now }
    ensures { RunsSteps (F.law call.now.options.now (types_of call.now.columns.now)) call.now.columns.now call.now.row_count
        (trues valid.now) 1 result.answer result.prepares result.steps }
{
    let Visited {
        answer,
        prepares,
        steps,
    } = execute_row_kernel(call, call.columns, RowDomain::Marked(valid)).decided();
    let answer = match answer {
        Ok(Some(values)) => Ok(Some(values)),
        Ok(None) => return execute_filtered(call, valid),
        Err(fault) => Err(fault),
    };
    Visited {
        answer,
        prepares,
        steps,
    }
}

// The values on columns that are filtered to the marked rows.
fn execute_filtered<F: RowFn>(
    call: &RowFnExecutionArgs<F>,
    valid: &BitBuffer,
) -> Visited<Option<ArrayRef>>
    requires call { IsPlannedCall (F.law call.now.options.now (types_of call.now.columns.now)) (logical_types call.now.types.now)
        call.now.columns.now call.now.row_count call.now.plan.now call.now.full.now }
    requires full { MarksFullRows call.now.columns.now call.now.row_count valid.now }
    ensures { RunsSteps (F.law call.now.options.now (types_of call.now.columns.now)) call.now.columns.now call.now.row_count
        (trues valid.now) 1 result.answer result.prepares result.steps }
{
    let filtered = match filter_columns(call.columns, valid, call.ctx) {
        Ok(filtered) => filtered,
        Err(fault) => return Visited::before_the_rows(Err(fault), 0),
    };
    execute_row_kernel(call, filtered.as_slice(), RowDomain::Filtered(valid)).decided()
}

// Each column's marked rows.
fn filter_columns(columns: &[ArrayRef], valid: &BitBuffer, ctx: ExecutionCtx) -> Res<Vec<ArrayRef>>
    requires { EachHasRows (length valid.now) columns.now }
    ensures filtered { IfOk result (λ v. FilteredFrom valid.now columns.now v.items) }
    ensures errors { IfErr result (λ e. e ≡ Memory) }
{
    let mask = Mask::Values(valid.share());
    let mut filtered = Vec::with_capacity(ctx.alloc(), columns.len())?;
    for column in columns {
        filtered.push_reserved(column.filter(&mask, ctx)?);
    }
    Ok(filtered)
}
