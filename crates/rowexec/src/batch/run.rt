// One run of a row function over a domain of rows, and the run of all rows on what the columns show, under nulls too: by the policy, or
// where there are none.
ghost use Rattle.std.specs.Prelude.{◌≡◌, ◌⊎◌, false, true};
ghost use Rattle.rowtypes.specs.Rows.{decoded_lengths, each_length, logical_types};
ghost use Rattle.rowloops.specs.Domain.{domain_of};
ghost use Rattle.rowexec.specs.Calls.{IsPlannedCall};
ghost use Rattle.rowexec.specs.Counts.{runs_valid_only};
ghost use Rattle.rowexec.specs.RowRuns.{EachFull, RanOver};
ghost use Rattle.rowexec.specs.Rows.{types_of};
ghost use Rattle.rowexec.specs.Visits.{MayRunAll, RunsSteps};

use crate::execution_args::{BorrowedRowFnArgs, RowFnExecutionArgs};
use crate::visitor::{ExecuteRows, Visited};
use colbase::ArrayRef;
use rowloops::{Attempt, RowDomain};
use rowplan::RowFn;

/// Runs the rows of the domain, of the call's columns or of these filtered.
pub(super) fn execute_row_kernel<F: RowFn>(
    call: &RowFnExecutionArgs<F>,
    columns: &[ArrayRef],
    domain: RowDomain,
) -> Visited<Option<Attempt>>
    requires call { IsPlannedCall (F.law call.now.options.now (types_of call.now.columns.now)) (logical_types call.now.types.now)
        call.now.columns.now call.now.row_count call.now.plan.now call.now.full.now }
    requires types { types_of columns.now ≡ types_of call.now.columns.now }
    requires asked { each_length (domain_of domain).width (decoded_lengths columns.now) ≡ true }
    requires runs { (runs_valid_only (F.law call.now.options.now (types_of call.now.columns.now)).policy ≡ false)
        ⊎ EachFull columns.now (domain_of domain) }
    ensures { RanOver (F.law call.now.options.now (types_of call.now.columns.now)) columns.now (domain_of domain.entry)
        result.answer result.prepares result.steps }
{
    let visitor = ExecuteRows::<F> {
        args: BorrowedRowFnArgs {
            options: call.options,
            types: call.types,
            columns,
            domain,
            ctx: call.ctx,
        },
        label: None,
    };
    match call
        .function
        .dispatch(call.options, call.types, visitor, call.ctx)
    {
        Ok(visited) => visited,
        Err(fault) => Visited::before_the_rows(Err(fault), 0),
    }
}

/// The values of all rows.
pub(super) fn execute_dense<F: RowFn>(call: &RowFnExecutionArgs<F>) -> Visited<Option<ArrayRef>>
    requires call { IsPlannedCall (F.law call.now.options.now (types_of call.now.columns.now)) (logical_types call.now.types.now)
        call.now.columns.now call.now.row_count call.now.plan.now call.now.full.now }
    requires runs { MayRunAll (F.law call.now.options.now (types_of call.now.columns.now)).policy call.now.row_count call.now.columns.now }
    ensures { RunsSteps (F.law call.now.options.now (types_of call.now.columns.now)) call.now.columns.now call.now.row_count
        call.now.row_count 1 result.answer result.prepares result.steps }
{
    execute_row_kernel(call, call.columns, RowDomain::All(call.row_count)).decided()
}
