// The plans of row functions: each visit is planned at a concrete type.
ghost use Rattle.std.specs.Prelude.{◌≡◌, length};
ghost use Rattle.rowtypes.specs.Rows.{logical_types};

use colbase::{
    DType, EmptyOptions, ExecutionCtx, ExtDType, Fault, Nullability, PType, Res, TimeUnit,
};
use rowcases::{Deferral, Labelled, Ordered, Picky, Scales, Seven, Small, SumPrepared};
use rowplan::{BatchPlan, BatchPlanner, RowFn, RowPolicy};
use rowsample::{Truncate, TruncateOptions};
use std::test::Fail;

fn full(ptype: PType) -> DType {
    DType::Primitive(ptype, Nullability::NonNullable)
}

/// The plan of a call.
fn planned<F: RowFn>(
    function: &F,
    options: &F::Options,
    types: &[DType],
    ctx: ExecutionCtx,
) -> Res<BatchPlan>
    requires { length types.now ≡ (F.law options.now (logical_types types.now)).arity }
{
    let planner = BatchPlanner::<F>::new(options, types, ctx);
    function.dispatch(options, types, planner, ctx)
}

#[test]
fn a_plain_visit(rt: HostRuntime) -> Result<(), Fail> {
    let plan = planned(
        &Seven::new(),
        &EmptyOptions,
        &[],
        ExecutionCtx::new(rt.alloc()),
    )?;
    assert!(rt; plan.policy() == RowPolicy::Dense);
    Ok(())
}

#[test]
fn a_prepared_visit(rt: HostRuntime) -> Result<(), Fail> {
    let types = [full(PType::I64), full(PType::I64)];
    let function = SumPrepared::new();
    let plan = planned(
        &function,
        &EmptyOptions,
        &types,
        ExecutionCtx::new(rt.alloc()),
    )?;
    assert!(rt; plan.policy() == RowPolicy::Dense);
    assert!(rt; function.seen().is_none());
    Ok(())
}

#[test]
fn a_visit_of_truth_values(rt: HostRuntime) -> Result<(), Fail> {
    let types = [full(PType::I64), full(PType::I64)];
    let function = Ordered::new(false);
    let plan = planned(
        &function,
        &EmptyOptions,
        &types,
        ExecutionCtx::new(rt.alloc()),
    )?;
    assert!(rt; plan.output_dtype() == DType::Bool(Nullability::NonNullable));
    Ok(())
}

#[test]
fn a_visit_of_valid_rows(rt: HostRuntime) -> Result<(), Fail> {
    let types = [full(PType::U8), full(PType::U8)];
    let function = Scales::new();
    let plan = planned(
        &function,
        &EmptyOptions,
        &types,
        ExecutionCtx::new(rt.alloc()),
    )?;
    assert!(rt; plan.policy() == RowPolicy::ValidOnly);
    Ok(())
}

const DEFERRALS: [Deferral; 4] = [
    Deferral::Plain,
    Deferral::Prepared,
    Deferral::Bool,
    Deferral::PreparedBool,
];

#[test]
fn deferred_visits(rt: HostRuntime) -> Result<(), Fail> {
    let ctx = ExecutionCtx::new(rt.alloc());
    for visit in DEFERRALS {
        let plan = planned(&Small::new(visit), &EmptyOptions, &[full(PType::U8)], ctx)?;
        assert!(rt; plan.policy() == RowPolicy::DenseWithRetry, "by {visit:?}");
    }
    Ok(())
}

/// Timestamps that may be null or not.
fn timestamp(nullability: Nullability, ctx: ExecutionCtx) -> Res<DType> {
    let storage = DType::Primitive(PType::I64, nullability);
    let time = ExtDType::try_new(
        "vortex.timestamp",
        Some(TimeUnit::Seconds),
        None,
        storage,
        ctx,
    )?;
    Ok(DType::Extension(time))
}

#[test]
fn a_label(rt: HostRuntime) -> Result<(), Fail> {
    let ctx = ExecutionCtx::new(rt.alloc());
    let minutes = TruncateOptions { ticks: 60 };
    let types = [timestamp(Nullability::Nullable, ctx)?];
    let plan = planned(&Truncate, &minutes, &types, ctx)?;
    assert!(rt; plan.output_dtype() == timestamp(Nullability::NonNullable, ctx)?);
    Ok(())
}

#[test]
fn a_call_that_is_not_taken(rt: HostRuntime) {
    let ctx = ExecutionCtx::new(rt.alloc());
    let told = planned(&Picky, &EmptyOptions, &[full(PType::I64)], ctx).err();
    assert!(rt; told == Some(Fault::Refused));
}

#[test]
fn a_label_over_another_type(rt: HostRuntime) {
    let ctx = ExecutionCtx::new(rt.alloc());
    let told = planned(&Labelled, &EmptyOptions, &[full(PType::I64)], ctx).err();
    assert!(rt; told == Some(Fault::OutputType));
}

#[test]
fn types_are_tested_before_the_label(rt: HostRuntime) {
    let ctx = ExecutionCtx::new(rt.alloc());
    let text = DType::Utf8(Nullability::NonNullable);
    let told = planned(&Labelled, &EmptyOptions, &[text], ctx).err();
    assert!(rt; told == Some(Fault::Dtype { index: 0 }));
}
