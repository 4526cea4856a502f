// What is settled of a call before any cell is looked at: the faults of the first five kinds, and the plan.
ghost use Rattle.std.specs.Prelude.{◌≡◌, ◌≢◌, ◌⊎◌, length, Err, IfOk, IfErr};
ghost use Rattle.coltypes.specs.declared.fault.Fault.TheVariants.{Arity, Memory};
ghost use Rattle.rowtypes.specs.Rows.{logical_types};
ghost use Rattle.rowplan.specs.Plans.{PlanOf};
ghost use Rattle.rowexec.specs.Batch.{Cause, Fits, Planned, Unplanned};
ghost use Rattle.rowexec.specs.Rows.{types_of};

use super::arguments::{argument_types, check_call};
use colbase::{DType, ExecutionArgs, ExecutionCtx, Res};
use rowplan::{BatchPlan, BatchPlanner, RowFn};
use smallvec::SmallVec;

/// A call whose columns fit, whose types are taken and whose output is in order.
#[derive(Drop)]
pub(super) struct PlannedCall {
    /// The types of the columns.
    pub types: SmallVec<DType, 4>,
    pub plan: BatchPlan,
}

/// Plans a call, or tells the first fault of its columns or types.
pub(super) fn plan_call<F: RowFn>(
    function: &F,
    options: &F::Options,
    args: &ExecutionArgs,
    ctx: ExecutionCtx,
) -> Res<PlannedCall>
    ensures arity { length args.now.columns ≢ (F.law options.now (types_of args.now.columns)).arity → result ≡ Err
        (Arity (F.law options.now (types_of args.now.columns)).arity (length args.now.columns)) }
    ensures types { IfOk result (λ p. logical_types p.types.items ≡ types_of args.now.columns) }
    ensures fits { IfOk result (λ _. Fits (F.law options.now (types_of args.now.columns)).arity args.now.row_count args.now.columns) }
    ensures planned { IfOk result (λ _. Planned (F.law options.now (types_of args.now.columns)) (types_of args.now.columns)) }
    ensures plan { IfOk result (λ p. PlanOf (F.law options.now (types_of args.now.columns)) p.plan) }
    ensures errors { IfErr result (Cause (F.law options.now (types_of args.now.columns)) args.now.columns args.now.row_count) }
{
    check_call::<F>(options, args)?;
    let types = argument_types(args.columns(), ctx.alloc())?;
    let plan = plan_batch(function, options, types.as_slice(), ctx)?;
    Ok(PlannedCall { types, plan })
}

/// The plan of a call whose types are as many as the function has arguments.
pub(super) fn plan_batch<F: RowFn>(
    function: &F,
    options: &F::Options,
    types: &[DType],
    ctx: ExecutionCtx,
) -> Res<BatchPlan>
    requires { length types.now ≡ (F.law options.now (logical_types types.now)).arity }
    ensures planned { IfOk result (λ _. Planned (F.law options.now (logical_types types.now)) (logical_types types.now)) }
    ensures plan { IfOk result (PlanOf (F.law options.now (logical_types types.now))) }
    ensures errors { IfErr result (λ e. (e ≡ Memory)
        ⊎ Unplanned (F.law options.now (logical_types types.now)) (logical_types types.now) e) }
{
    let planner = BatchPlanner::<F>::new(options, types, ctx);
    function.dispatch(options, types, planner, ctx)
}
