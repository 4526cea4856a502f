// The visitor that plans: it looks at the types of the visit that a function selects, and runs nothing.
ghost use Rattle.std.specs.Prelude.{◌≡◌, None};
ghost use Rattle.rowplan.specs.Policies.{deferred_policy, owned_policy};

use crate::batch_plan::{BatchPlan, RowPolicy};
use crate::row_spec::RowSpec;
use crate::visitor::RowVisitor;
use colbase::{DType, ExecutionCtx, Res, RowError};
use rowtypes::{ElementTuple, IndexedElementTuple, OutputElement};
use std::alloc::AllocError;

/// The visitor that plans a batch and runs no callback.
#[derive(Drop)]
pub struct BatchPlanner<'a, F: RowSpec> {
    options: &'a F::Options,
    types: &'a [DType],
    label: Option<DType>,
}

impl<'a, F: RowSpec> BatchPlanner<'a, F> {
    /// A planner for a call with these options and argument types.
    pub fn new(
        options: &'a F::Options,
        types: &'a [DType],
        _ctx: ExecutionCtx,
    ) -> BatchPlanner<'a, F>
        ensures options { result.options.now ≡ options.now }
        ensures types { result.types.now ≡ types.now }
        ensures label { result.label ≡ None }
    {
        BatchPlanner {
            options,
            types,
            label: None,
        }
    }
}

impl<'a, F: RowSpec> RowVisitor<F> for BatchPlanner<'a, F> {
    ghost use Rattle.std.specs.Prelude.{⊤, option_map};
    ghost use Rattle.coltypes.specs.LogicalTypeOf.{logical_type};
    ghost use Rattle.rowtypes.specs.Rows.{logical_types};
    ghost use Rattle.rowplan.specs.Plans.{PlanAnswer};

    type VisitResult = BatchPlan;

    ghost options = { λ s. s.options.now };

    ghost types = { λ s. logical_types s.types.now };

    ghost label = { λ s. option_map logical_type s.label };

    ghost ready = { λ s. ⊤ };

    ghost gives = { λ s r. PlanAnswer (F.law s.options.now (logical_types s.types.now)) (logical_types s.types.now) r };

    fn with_output_dtype(self, dtype: DType) -> BatchPlanner<'a, F> {
        BatchPlanner {
            options: self.options,
            types: self.types,
            label: Some(dtype),
        }
    }

    fn visit_prepared<
        Args: IndexedElementTuple,
        Out: OutputElement,
        P: Drop,
        R: FnOnce(Args::ConstElems) -> Result<P, AllocError>,
        A: Fn(&P, Args::Elems) -> Out,
    >(self, _prepare: R, _apply: A) -> Res<BatchPlan> {
        Args::validate(self.types)?;
        BatchPlan::new(Out::element_dtype(), self.label, owned_policy::<Args>())
    }

    fn visit_prepared_deferred<
        Args: IndexedElementTuple,
        Out: OutputElement,
        P: Drop,
        R: FnOnce(Args::ConstElems) -> Result<P, AllocError>,
        A: Fn(&P, Args::Elems) -> (Out, F::Evidence),
        E: FnOnce(F::Evidence) -> Result<(), RowError>,
    >(self, _prepare: R, _apply: A, _finish_failure: E) -> Res<BatchPlan> {
        Args::validate(self.types)?;
        BatchPlan::new(Out::element_dtype(), self.label, deferred_policy::<Args>())
    }
}

// The policy of a visit that writes one value a row.
fn owned_policy<Args: ElementTuple>() -> RowPolicy
    ensures { result ≡ owned_policy Args.DENSE_SAFE Args.DECODE_INFALLIBLE }
{
    if Args::DENSE_SAFE && Args::DECODE_INFALLIBLE {
        RowPolicy::Dense
    } else {
        RowPolicy::ValidOnly
    }
}

// The policy of a visit that writes one value a row and whose failures are evidence.
fn deferred_policy<Args: ElementTuple>() -> RowPolicy
    ensures { result ≡ deferred_policy Args.DENSE_SAFE Args.DECODE_INFALLIBLE }
{
    if Args::DENSE_SAFE && Args::DECODE_INFALLIBLE {
        RowPolicy::DenseWithRetry
    } else {
        RowPolicy::ValidOnly
    }
}
