// The visitor that runs a row function over a domain of rows. Decoding, preparing, running and counting stand once, in `run_rows`; a
// visit that writes into a sink needs one visit more here, and one run beside `execute_owned`.
ghost use Rattle.std.specs.Prelude.{◌≡◌, Some};
ghost use Rattle.rowtypes.specs.Rows.{logical_types};
ghost use Rattle.rowplan.specs.Visits.{Prepares, Selects};
ghost use Rattle.rowloops.specs.Domain.{domain_of};
ghost use Rattle.rowexec.specs.RowRuns.{Callable, Called, IsReady, RanJoined, ReadsBy};

use super::decode::{decode, known_values};
use crate::execution_args::BorrowedRowFnArgs;
use crate::visitor::Visited;
use bitlane::{FailureEvidence, NoFailure};
use colbase::{ArrayRef, DType, Fault, Res, RowError};
use rowloops::{Attempt, execute_owned, execute_owned_bool};
use rowplan::{RowSpec, RowVisitor};
use rowtypes::{IndexedElementTuple, OutputElement};
use std::alloc::AllocError;

/// Runs the rows of a domain on what the columns show. Answers none, before it calls anything, where the domain's rows stand among
/// others and some argument can't be decoded with its nulls. Rejected evidence is no fault: it may come from a row that has a null.
#[derive(Drop)]
pub(crate) struct ExecuteRows<'a, F: RowSpec> {
    pub args: BorrowedRowFnArgs<'a, F>,
    pub label: Option<DType>,
}

impl<'a, F: RowSpec> RowVisitor<F> for ExecuteRows<'a, F> {
    ghost use Rattle.std.specs.Prelude.{◌≡◌, MatchResult, option_map};
    ghost use Rattle.coltypes.specs.LogicalTypeOf.{logical_type};
    ghost use Rattle.coltypes.specs.declared.fault.Fault.TheVariants.{Memory};
    ghost use Rattle.rowtypes.specs.Rows.{logical_types};
    ghost use Rattle.rowloops.specs.Domain.{domain_of};
    ghost use Rattle.rowexec.specs.RowRuns.{IsReady, RanOver};

    type VisitResult = Visited<Option<Attempt>>;

    ghost options = { λ s. s.args.options.now };

    ghost types = { λ s. logical_types s.args.types.now };

    ghost label = { λ s. option_map logical_type s.label };

    ghost ready = { λ s. IsReady (F.law s.args.options.now (logical_types s.args.types.now)) (logical_types s.args.types.now)
        s.args.columns.now (domain_of s.args.domain) };

    ghost gives = { λ s r. MatchResult r
        (λ v. RanOver (F.law s.args.options.now (logical_types s.args.types.now)) s.args.columns.now (domain_of s.args.domain)
        v.answer v.prepares v.steps)
        (λ e. e ≡ Memory) };

    fn with_output_dtype(self, dtype: DType) -> ExecuteRows<'a, F> {
        ExecuteRows {
            args: self.args,
            label: Some(dtype),
        }
    }

    fn visit_prepared<
        Args: IndexedElementTuple,
        Out: OutputElement,
        P: Drop,
        R: FnOnce(Args::ConstElems) -> Result<P, AllocError>,
        A: Fn(&P, Args::Elems) -> Out,
    >(self, prepare: R, apply: A) -> Res<Visited<Option<Attempt>>> {
        let ran = run_rows::<F, Args, Out, NoFailure, P, R, _>(
            &self.args,
            prepare,
            |prepared: &P, elems: Args::Elems| -> (Out, NoFailure)
                requires { A.pre apply prepared elems }
                ensures { A.post apply prepared.entry elems result.0 }
            { (apply(prepared, elems), NoFailure) },
        );
        Ok(ran.accepted())
    }

    fn visit_bool<Args: IndexedElementTuple, A: Fn(Args::Elems) -> bool>(
        self,
        multiversioned: bool,
        apply: A,
    ) -> Res<Visited<Option<Attempt>>> {
        let decoded = match decode::<F, Args>(&self.args) {
            Ok(Some(decoded)) => decoded,
            Ok(None) => return Ok(Visited::before_the_rows(Ok(None), 0)),
            Err(fault) => return Ok(Visited::before_the_rows(Err(fault), 0)),
        };
        let (answer, steps) = execute_owned_bool::<Args, A>(
            &decoded,
            self.args.domain,
            multiversioned,
            apply,
            self.args.ctx,
        );
        Ok(Visited::ran(answer, steps).accepted())
    }

    fn visit_prepared_deferred<
        Args: IndexedElementTuple,
        Out: OutputElement,
        P: Drop,
        R: FnOnce(Args::ConstElems) -> Result<P, AllocError>,
        A: Fn(&P, Args::Elems) -> (Out, F::Evidence),
        E: FnOnce(F::Evidence) -> Result<(), RowError>,
    >(self, prepare: R, apply: A, finish_failure: E) -> Res<Visited<Option<Attempt>>> {
        let ran = run_rows::<F, Args, Out, F::Evidence, P, R, A>(&self.args, prepare, apply);
        Ok(ran.judged(finish_failure))
    }
}

/// The values of the rows of the domain with the evidence that is joined over them: the arguments are decoded, the value that callbacks are
/// lent is prepared from those that are one value, and the rows run.
fn run_rows<
    F: RowSpec,
    Args: IndexedElementTuple,
    Out: OutputElement,
    V: FailureEvidence,
    P: Drop,
    R: FnOnce(Args::ConstElems) -> Result<P, AllocError>,
    A: Fn(&P, Args::Elems) -> (Out, V),
>(args: &BorrowedRowFnArgs<F>, prepare: R, apply: A) -> Visited<Option<(ArrayRef, V)>>
    requires ready { IsReady (F.law args.now.options.now (logical_types args.now.types.now)) (logical_types args.now.types.now)
        args.now.columns.now (domain_of args.now.domain) }
    requires arguments { Selects (F.law args.now.options.now (logical_types args.now.types.now)) Args.ARITY Args.elements
        (logical_types args.now.types.now) }
    requires stored { (F.law args.now.options.now (logical_types args.now.types.now)).output.storage ≡ Some Out.element_type }
    requires reads { ReadsBy Args.DENSE_SAFE args.now.columns.now (domain_of args.now.domain) }
    requires prepares { Prepares Args.elements Args.known (R.pre prepare) }
    requires callable { Callable Args.elements Args.known Args.cells (R.post prepare) (A.pre apply) }
    ensures { RanJoined (F.law args.now.options.now (logical_types args.now.types.now)) V.join V.neutral Args.cells Out.states
        (Called Args.elements Args.known Args.cells (R.post prepare) (A.post apply)) args.now.columns.now (domain_of args.now.domain)
        result.answer result.prepares result.steps }
{
    let decoded = match decode::<F, Args>(args) {
        Ok(Some(decoded)) => decoded,
        Ok(None) => return Visited::before_the_rows(Ok(None), 0),
        Err(fault) => return Visited::before_the_rows(Err(fault), 0),
    };
    let prepared = match prepare(known_values::<Args>(&decoded)) {
        Ok(prepared) => prepared,
        Err(AllocError) => return Visited::before_the_rows(Err(Fault::Memory), 1),
    };
    let (answer, steps) = execute_owned::<Args, Out, V, P, A>(
        &decoded,
        args.domain,
        prepared,
        apply,
        args.ctx,
    );
    Visited::ran(answer, steps)
}
