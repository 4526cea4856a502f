// Execution of all rows, and of the rows without a null argument where its evidence is rejected: the evidence of the first run may
// come from a value under a null, so it only tells that the second is needed.
ghost use Rattle.std.specs.Prelude.{◌≡◌};
ghost use Rattle.coltypes.specs.Keep.{trues};
ghost use Rattle.rowtypes.specs.Rows.{logical_types};
ghost use Rattle.rowplan.specs.declared.batch_plan.RowPolicy.TheVariants.{DenseWithRetry as dense_with_retry};
ghost use Rattle.rowloops.specs.Domain.{all_rows};
ghost use Rattle.rowexec.specs.Calls.{IsPlannedCall};
ghost use Rattle.rowexec.specs.Counts.{full_bits, policy_steps_of, retried};
ghost use Rattle.rowexec.specs.RowRuns.{RejectedOver};
ghost use Rattle.rowexec.specs.Rows.{types_of};
ghost use Rattle.rowexec.specs.Visits.{RunsSteps};

use super::run::execute_row_kernel;
use super::selection::{Selection, select_valid};
use super::valid::execute_valid;
use crate::execution_args::RowFnExecutionArgs;
use crate::visitor::Visited;
use colbase::{ArrayRef, Fault, RowError};
use rowloops::{Attempt, RowDomain};
use rowplan::RowFn;

/// The values of all rows on what the columns show. Where their evidence is rejected, the rows without a null argument decide:
/// the error stands where each row is such, there are no values where none is, and else these rows run once more.
pub(super) fn execute_dense_with_retry<F: RowFn>(
    call: &RowFnExecutionArgs<F>,
) -> Visited<Option<ArrayRef>>
    requires call { IsPlannedCall (F.law call.now.options.now (types_of call.now.columns.now)) (logical_types call.now.types.now)
        call.now.columns.now call.now.row_count call.now.plan.now call.now.full.now }
    requires policy { (F.law call.now.options.now (types_of call.now.columns.now)).policy ≡ dense_with_retry }
    ensures { RunsSteps (F.law call.now.options.now (types_of call.now.columns.now)) call.now.columns.now call.now.row_count
        (policy_steps_of (F.law call.now.options.now (types_of call.now.columns.now)) call.now.columns.now call.now.row_count) 2
        result.answer result.prepares result.steps }
{
    let Visited {
        answer,
        prepares,
        steps,
    } = execute_row_kernel(call, call.columns, RowDomain::All(call.row_count));
    let answer = match answer {
        Ok(Some(Attempt::Values(values))) => Ok(Some(values)),
        Ok(Some(Attempt::Rejected(error))) => {
            return resolve_rejected(call, error).after(prepares, steps);
        }
        Ok(None) => Ok(None),
        Err(fault) => Err(fault),
    };
    Visited {
        answer,
        prepares,
        steps,
    }
}

// What rejected evidence of all rows comes to.
fn resolve_rejected<F: RowFn>(
    call: &RowFnExecutionArgs<F>,
    error: RowError,
) -> Visited<Option<ArrayRef>>
    requires call { IsPlannedCall (F.law call.now.options.now (types_of call.now.columns.now)) (logical_types call.now.types.now)
        call.now.columns.now call.now.row_count call.now.plan.now call.now.full.now }
    requires rejected { RejectedOver (F.law call.now.options.now (types_of call.now.columns.now)) call.now.columns.now
        (all_rows call.now.row_count) error }
    ensures { RunsSteps (F.law call.now.options.now (types_of call.now.columns.now)) call.now.columns.now call.now.row_count
        (retried (trues (full_bits call.now.row_count call.now.columns.now)) call.now.row_count) 1
        result.answer result.prepares result.steps }
{
    match select_valid(call.full, call.row_count) {
        Selection::Valid(bits) => execute_valid(call, &bits),
        Selection::Nothing => Visited::before_the_rows(Ok(None), 0),
        Selection::One | Selection::All | Selection::Attempt => {
            Visited::before_the_rows(Err(Fault::Row(error)), 0)
        }
    }
}
