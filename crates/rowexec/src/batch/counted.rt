// The whole call, with the calls that it took: checks and plan, the answers that need no row, and the runs that the policy chooses.
ghost use Rattle.std.specs.Prelude.{◌≡◌};
ghost use Rattle.rowtypes.specs.Rows.{logical_types};
ghost use Rattle.rowplan.specs.Plans.{PlanOf};
ghost use Rattle.rowexec.specs.Batch.{CallsNothing, Counts, Executes, ExecutesPlanned, Fits, Planned};
ghost use Rattle.rowexec.specs.Calls.{IsPlannedCall};
ghost use Rattle.rowexec.specs.Rows.{types_of};
ghost use Rattle.rowexec.specs.Visits.{RunsCall, Unsettled};

use super::answer::{finish_values, null_answer};
use super::full_rows::{full_rows, is_some_all_null};
use super::one_row::execute_all_constant;
use super::plan::plan_call;
use super::retry::execute_dense_with_retry;
use super::run::execute_dense;
use super::selection::{Selection, select_rows};
use super::valid::execute_valid;
use crate::execution_args::RowFnExecutionArgs;
use crate::visitor::Visited;
use colbase::{ArrayRef, DType, ExecutionArgs, ExecutionCtx, Res};
use rowplan::{BatchPlan, RowFn};

/// An answer, and how often the function's callbacks were called for it.
#[derive(Drop)]
pub struct Counted {
    pub answer: Res<ArrayRef>,
    /// The calls of `prepare`. A visit without one prepares nothing, which counts too.
    pub prepares: u128,
    /// The calls of the callback of a row.
    pub steps: u128,
}

/// Answers as [`execute_rows`](crate::execute_rows) does, and tells the calls that it took.
///
/// A batch whose columns are each one value without nulls runs one row, whatever its length.
pub fn execute_rows_counted<F: RowFn>(
    function: &F,
    options: &F::Options,
    args: &ExecutionArgs,
    ctx: ExecutionCtx,
) -> Counted
    ensures executes { Executes (F.law options.now (types_of args.now.columns)) args.now.columns args.now.row_count result.answer }
    ensures counts { Counts (F.law options.now (types_of args.now.columns)) args.now.columns args.now.row_count result.answer
        result.prepares result.steps }
    ensures refused { CallsNothing (F.law options.now (types_of args.now.columns)) args.now.columns args.now.row_count result.prepares
        result.steps }
{
    match plan_call(function, options, args, ctx) {
        Ok(call) => execute_planned(
            function,
            options,
            args,
            call.types.as_slice(),
            &call.plan,
            ctx,
        ),
        Err(fault) => without_calls(Err(fault)),
    }
}

// An answer that took no call.
fn without_calls(answer: Res<ArrayRef>) -> Counted
    ensures answer { result.answer ≡ answer }
    ensures prepares { result.prepares ≡ 0 }
    ensures steps { result.steps ≡ 0 }
{
    Counted {
        answer,
        prepares: 0,
        steps: 0,
    }
}

// The column of a call that is planned.
fn execute_planned<F: RowFn>(
    function: &F,
    options: &F::Options,
    args: &ExecutionArgs,
    types: &[DType],
    plan: &BatchPlan,
    ctx: ExecutionCtx,
) -> Counted
    requires types { logical_types types.now ≡ types_of args.now.columns }
    requires fits { Fits (F.law options.now (types_of args.now.columns)).arity args.now.row_count args.now.columns }
    requires planned { Planned (F.law options.now (types_of args.now.columns)) (types_of args.now.columns) }
    requires plan { PlanOf (F.law options.now (types_of args.now.columns)) plan.now }
    ensures executes { ExecutesPlanned (F.law options.now (types_of args.now.columns)) args.now.columns args.now.row_count result.answer }
    ensures counts { Counts (F.law options.now (types_of args.now.columns)) args.now.columns args.now.row_count result.answer
        result.prepares result.steps }
{
    let columns = args.columns();
    let row_count = args.row_count();
    if is_some_all_null(columns, row_count) {
        return without_calls(null_answer(types, plan, row_count, ctx));
    }
    let full = match full_rows(columns, row_count, ctx) {
        Ok(full) => full,
        Err(fault) => return without_calls(Err(fault)),
    };
    let call = RowFnExecutionArgs::<F> {
        function,
        options,
        types,
        columns,
        row_count,
        plan,
        full: &full,
        ctx,
    };
    let Visited {
        answer,
        prepares,
        steps,
    } = execute_selected(&call);
    let answer = match answer {
        Ok(Some(values)) => finish_values(&call, values),
        Ok(None) => null_answer(types, plan, row_count, ctx),
        Err(fault) => Err(fault),
    };
    Counted {
        answer,
        prepares,
        steps,
    }
}

// The values of the rows that run. None where some argument is null at each row.
fn execute_selected<F: RowFn>(call: &RowFnExecutionArgs<F>) -> Visited<Option<ArrayRef>>
    requires call { IsPlannedCall (F.law call.now.options.now (types_of call.now.columns.now)) (logical_types call.now.types.now)
        call.now.columns.now call.now.row_count call.now.plan.now call.now.full.now }
    ensures runs { RunsCall (F.law call.now.options.now (types_of call.now.columns.now)) call.now.columns.now call.now.row_count
        result.answer result.prepares result.steps }
    ensures unsettled { Unsettled (F.law call.now.options.now (types_of call.now.columns.now)) call.now.columns.now
        call.now.row_count result.answer }
{
    match select_rows(call.plan.policy(), call.columns, call.row_count, call.full) {
        Selection::One => execute_all_constant(call),
        Selection::All => execute_dense(call),
        Selection::Attempt => execute_dense_with_retry(call),
        Selection::Valid(bits) => execute_valid(call, &bits),
        Selection::Nothing => Visited::before_the_rows(Ok(None), 0),
    }
}
