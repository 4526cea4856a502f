// The column that a planned call answers: the values of the rows that ran, masked, made nullable and put under their label.
ghost use Rattle.std.specs.Prelude.{◌≡◌, ◌<◌, ℕ, true, None, IfOk, IfErr};
ghost use Rattle.colbase.specs.Arrays.{dtype, len, row};
ghost use Rattle.coltypes.specs.declared.fault.Fault.TheVariants.{Memory};
ghost use Rattle.rowtypes.specs.Rows.{logical_types};
ghost use Rattle.rowplan.specs.Outputs.{any_nullable, stated_type};
ghost use Rattle.rowplan.specs.Plans.{plan_of};
ghost use Rattle.rowexec.specs.Batch.{Finishes, StatedAs};
ghost use Rattle.rowexec.specs.Calls.{IsPlannedCall};
ghost use Rattle.rowexec.specs.Rows.{IsConstant, StrictRow, full_cells, types_of};
ghost use Rattle.rowexec.specs.Visits.{ValidColumn};

use super::finish::{mask_rows, null_column};
use super::one_row::{is_one_row, repeated};
use crate::execution_args::RowFnExecutionArgs;
use colbase::{ArrayRef, DType, ExecutionCtx, Res};
use rowplan::{BatchPlan, RowSpec, is_any_nullable};

/// The answer that is null at each row.
pub(super) fn null_answer(
    types: &[DType],
    plan: &BatchPlan,
    row_count: usize,
    ctx: ExecutionCtx,
) -> Res<ArrayRef>
    requires { any_nullable (logical_types types.now) ≡ true }
    ensures dtype { IfOk result (λ a. dtype a ≡ stated_type (plan_of plan.now).output (logical_types types.now)) }
    ensures len { IfOk result (λ a. len a ≡ row_count) }
    ensures rows { IfOk result (λ a. (i : ℕ) → row a i ≡ None) }
    ensures constant { IfOk result IsConstant }
    ensures errors { IfErr result (λ e. e ≡ Memory) }
{
    let result_dtype = plan.result_dtype(types, ctx)?;
    null_column(result_dtype, row_count, ctx)
}

/// The column of a call from the values of the rows that ran: a null at each row that isn't full, under the label. Where one row
/// stands for all, its labelled value is repeated, so that a batch of constants is answered by a constant.
pub(super) fn finish_values<F: RowSpec>(
    call: &RowFnExecutionArgs<F>,
    values: ArrayRef,
) -> Res<ArrayRef>
    requires call { IsPlannedCall (F.law call.now.options.now (types_of call.now.columns.now)) (logical_types call.now.types.now)
        call.now.columns.now call.now.row_count call.now.plan.now call.now.full.now }
    requires values { ValidColumn (F.law call.now.options.now (types_of call.now.columns.now)) call.now.columns.now
        call.now.row_count values }
    ensures { Finishes (F.law call.now.options.now (types_of call.now.columns.now)) call.now.columns.now call.now.row_count result }
{
    let labelled = label_values::<F>(call, values)?;
    if is_one_row(call.columns, call.row_count) {
        return repeated(&labelled, call.row_count, call.ctx);
    }
    Ok(labelled)
}

// The values with a null at each row that isn't full, under the label.
fn label_values<F: RowSpec>(call: &RowFnExecutionArgs<F>, values: ArrayRef) -> Res<ArrayRef>
    requires call { IsPlannedCall (F.law call.now.options.now (types_of call.now.columns.now)) (logical_types call.now.types.now)
        call.now.columns.now call.now.row_count call.now.plan.now call.now.full.now }
    requires values { ValidColumn (F.law call.now.options.now (types_of call.now.columns.now)) call.now.columns.now
        call.now.row_count values }
    ensures dtype { IfOk result (λ a. StatedAs (F.law call.now.options.now (types_of call.now.columns.now))
        (types_of call.now.columns.now) (dtype a)) }
    ensures len { IfOk result (λ a. len a ≡ call.now.row_count) }
    ensures rows { IfOk result (λ a. (i : ℕ) → i < call.now.row_count
        → StrictRow (F.law call.now.options.now (types_of call.now.columns.now)) (full_cells call.now.columns.now i) (row a i)) }
    ensures errors { IfErr result (λ e. e ≡ Memory) }
{
    let masked = mask_rows(values, call.full, is_any_nullable(call.types), call.ctx)?;
    call.plan.relabel_output(masked, call.ctx)
}
