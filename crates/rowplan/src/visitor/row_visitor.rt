// The visits that a row function may select. A visitor defines the two prepared ones; each other is one of these with nothing
// prepared or with truth values as the output, unless a visitor has a loop of its own for it.
ghost use Rattle.std.specs.Prelude.{◌≡◌, false, true, Some, Option, List, Result};

use crate::row_spec::RowSpec;
use colbase::{DType, Res, RowError};
use rowtypes::{IndexedElementTuple, OutputElement};
use std::alloc::AllocError;

/// Who is handed the callbacks of a row function.
///
/// A callback may use a prepared value, which is made once in a visit from the arguments that are one value for all rows.
/// A visit without one is its prepared form with nothing prepared.
///
/// A visitor knows the options and the types of its call. Each visit asks that the elements, the output and the policy
/// are those of the function's law, and that the callback computes the meaning of a row wherever the elements read its
/// cells. A visit tests the argument types before the output, and the storage type before the label.
pub trait RowVisitor<F: RowSpec>: Sized + Drop {
    ghost use Rattle.coltypes.specs.LogicalType.{LogicalType};
    ghost use Rattle.std.specs.Prelude.{Bool};
    ghost use Rattle.coltypes.specs.Cell.{truth};
    ghost use Rattle.coltypes.specs.LogicalType.{bool as bool_type};
    ghost use Rattle.coltypes.specs.declared.dtype.Nullability.TheVariants.{NonNullable as not_nullable};
    ghost use Rattle.coltypes.specs.LogicalTypeOf.{logical_type};
    ghost use Rattle.coltypes.specs.declared.fault.Fault.{Fault};
    ghost use Rattle.rowplan.specs.Policies.{deferred_policy, owned_policy};
    ghost use Rattle.rowplan.specs.Visits.{Checks, ChecksPrepared, Computes, ComputesPrepared, Judges, Prepares, Selects, Stores};

    type VisitResult: Drop;

    ghost options: { Self → F.Options };

    ghost types: { Self → List LogicalType };

    // The type that was declared for the output.
    ghost label: { Self → Option LogicalType };

    // What the maker of the visitor has seen to.
    ghost ready: { Self → Type 0 };

    // The answers that the visitor may give.
    ghost gives: { Self → Result Self.VisitResult Fault → Type 0 };

    /// Declares the type of the output. A later call replaces an earlier one.
    fn with_output_dtype(self, dtype: DType) -> Self
        ensures options { options result ≡ options self }
        ensures types { types result ≡ types self }
        ensures label { label result ≡ Some (logical_type dtype) }
        ensures ready { ready self → ready result }
        ensures gives { (r : Result Self.VisitResult Fault) → gives result r → gives self r };

    /// Runs a callback that gives a value for each row, with a value that `prepare` makes once from the arguments that
    /// are one value. `prepare` may answer want of memory.
    fn visit_prepared<
        Args: IndexedElementTuple,
        Out: OutputElement,
        P: Drop,
        R: FnOnce(Args::ConstElems) -> Result<P, AllocError>,
        A: Fn(&P, Args::Elems) -> Out,
    >(self, prepare: R, apply: A) -> Res<Self::VisitResult>
        requires ready { ready self }
        requires arguments { Selects (F.law (options self) (types self)) Args.ARITY Args.elements (types self) }
        requires output { Stores (F.law (options self) (types self)) Out.element_type (Out.states Out.placeholder) (label self) }
        requires policy { (F.law (options self) (types self)).policy ≡ owned_policy Args.DENSE_SAFE Args.DECODE_INFALLIBLE }
        requires undeferred { (F.law (options self) (types self)).deferred ≡ false }
        requires prepares { Prepares Args.elements Args.known (R.pre prepare) }
        // The callback is lent the value that was prepared.
        requires computes { ComputesPrepared (F.law (options self) (types self)) Args.elements Args.known Args.cells Out.states
            (R.post prepare) (A.pre apply) (A.post apply) }
        ensures { gives self result };

    /// Runs a callback that gives a value for each row.
    fn visit<Args: IndexedElementTuple, Out: OutputElement, A: Fn(Args::Elems) -> Out>(
        self,
        apply: A,
    ) -> Res<Self::VisitResult>
        requires ready { ready self }
        requires arguments { Selects (F.law (options self) (types self)) Args.ARITY Args.elements (types self) }
        requires output { Stores (F.law (options self) (types self)) Out.element_type (Out.states Out.placeholder) (label self) }
        requires policy { (F.law (options self) (types self)).policy ≡ owned_policy Args.DENSE_SAFE Args.DECODE_INFALLIBLE }
        requires undeferred { (F.law (options self) (types self)).deferred ≡ false }
        requires computes { Computes (F.law (options self) (types self)) Args.elements Args.cells Out.states (A.pre apply) (A.post apply) }
        ensures { gives self result }
    {
        self.visit_prepared::<Args, Out, (), _, _>(
            |_: Args::ConstElems| Ok(()),
            |_nothing: &(), elems: Args::Elems| -> Out
                requires { A.pre apply elems }
                ensures { A.post apply elems result }
            { apply(elems) },
        )
    }

    /// Runs a callback that gives a truth value for each row. `multiversioned` changes no result.
    fn visit_bool<Args: IndexedElementTuple, A: Fn(Args::Elems) -> bool>(
        self,
        multiversioned: bool,
        apply: A,
    ) -> Res<Self::VisitResult>
        requires ready { ready self }
        requires arguments { Selects (F.law (options self) (types self)) Args.ARITY Args.elements (types self) }
        requires output { Stores (F.law (options self) (types self)) (bool_type not_nullable) (truth false) (label self) }
        requires policy { (F.law (options self) (types self)).policy ≡ owned_policy Args.DENSE_SAFE Args.DECODE_INFALLIBLE }
        requires undeferred { (F.law (options self) (types self)).deferred ≡ false }
        requires computes { Computes (F.law (options self) (types self)) Args.elements Args.cells truth (A.pre apply) (A.post apply) }
        ensures { gives self result }
    {
        let _ = multiversioned;
        self.visit::<Args, bool, A>(apply)
    }

    /// Runs a callback that gives a value and evidence for each row, with a value that `prepare` makes once from the
    /// arguments that are one value. The evidence of the rows is joined, and `finish_failure` judges it once.
    fn visit_prepared_deferred<
        Args: IndexedElementTuple,
        Out: OutputElement,
        P: Drop,
        R: FnOnce(Args::ConstElems) -> Result<P, AllocError>,
        A: Fn(&P, Args::Elems) -> (Out, F::Evidence),
        E: FnOnce(F::Evidence) -> Result<(), RowError>,
    >(self, prepare: R, apply: A, finish_failure: E) -> Res<Self::VisitResult>
        requires ready { ready self }
        requires arguments { Selects (F.law (options self) (types self)) Args.ARITY Args.elements (types self) }
        requires output { Stores (F.law (options self) (types self)) Out.element_type (Out.states Out.placeholder) (label self) }
        requires policy { (F.law (options self) (types self)).policy ≡ deferred_policy Args.DENSE_SAFE Args.DECODE_INFALLIBLE }
        requires deferred { (F.law (options self) (types self)).deferred ≡ true }
        requires fallible { F.INFALLIBLE ≡ false }
        requires prepares { Prepares Args.elements Args.known (R.pre prepare) }
        // The callback is lent the value that was prepared.
        requires checks { ChecksPrepared (F.law (options self) (types self)) Args.elements Args.known Args.cells Out.states
            (R.post prepare) (A.pre apply) (A.post apply) }
        requires judges { Judges (F.law (options self) (types self)) F.Evidence.in_range (E.pre finish_failure) (E.post finish_failure) }
        ensures { gives self result };

    /// Runs a callback that gives a value and evidence for each row.
    fn visit_deferred<
        Args: IndexedElementTuple,
        Out: OutputElement,
        A: Fn(Args::Elems) -> (Out, F::Evidence),
        E: FnOnce(F::Evidence) -> Result<(), RowError>,
    >(self, apply: A, finish_failure: E) -> Res<Self::VisitResult>
        requires ready { ready self }
        requires arguments { Selects (F.law (options self) (types self)) Args.ARITY Args.elements (types self) }
        requires output { Stores (F.law (options self) (types self)) Out.element_type (Out.states Out.placeholder) (label self) }
        requires policy { (F.law (options self) (types self)).policy ≡ deferred_policy Args.DENSE_SAFE Args.DECODE_INFALLIBLE }
        requires deferred { (F.law (options self) (types self)).deferred ≡ true }
        requires fallible { F.INFALLIBLE ≡ false }
        requires checks { Checks (F.law (options self) (types self)) Args.elements Args.cells Out.states (A.pre apply) (A.post apply) }
        requires judges { Judges (F.law (options self) (types self)) F.Evidence.in_range (E.pre finish_failure) (E.post finish_failure) }
        ensures { gives self result }
    {
        self.visit_prepared_deferred::<Args, Out, (), _, _, E>(
            |_: Args::ConstElems| Ok(()),
            |_nothing: &(), elems: Args::Elems| -> (Out, F::Evidence)
                requires { A.pre apply elems }
                ensures { A.post apply elems result }
            { apply(elems) },
            finish_failure,
        )
    }

    /// Runs a callback that gives a truth value and evidence for each row, with a prepared value. `multiversioned` changes no
    /// result.
    fn visit_prepared_deferred_bool<
        Args: IndexedElementTuple,
        P: Drop,
        R: FnOnce(Args::ConstElems) -> Result<P, AllocError>,
        A: Fn(&P, Args::Elems) -> (bool, F::Evidence),
        E: FnOnce(F::Evidence) -> Result<(), RowError>,
    >(self, multiversioned: bool, prepare: R, apply: A, finish_failure: E) -> Res<Self::VisitResult>
        requires ready { ready self }
        requires arguments { Selects (F.law (options self) (types self)) Args.ARITY Args.elements (types self) }
        requires output { Stores (F.law (options self) (types self)) (bool_type not_nullable) (truth false) (label self) }
        requires policy { (F.law (options self) (types self)).policy ≡ deferred_policy Args.DENSE_SAFE Args.DECODE_INFALLIBLE }
        requires deferred { (F.law (options self) (types self)).deferred ≡ true }
        requires fallible { F.INFALLIBLE ≡ false }
        requires prepares { Prepares Args.elements Args.known (R.pre prepare) }
        // The callback is lent the value that was prepared.
        requires checks { ChecksPrepared (F.law (options self) (types self)) Args.elements Args.known Args.cells truth (R.post prepare)
            (A.pre apply) (A.post apply) }
        requires judges { Judges (F.law (options self) (types self)) F.Evidence.in_range (E.pre finish_failure) (E.post finish_failure) }
        ensures { gives self result }
    {
        let _ = multiversioned;
        self.visit_prepared_deferred::<Args, bool, P, R, A, E>(prepare, apply, finish_failure)
    }

    /// Runs a callback that gives a truth value and evidence for each row. `multiversioned` changes no result.
    fn visit_deferred_bool<
        Args: IndexedElementTuple,
        A: Fn(Args::Elems) -> (bool, F::Evidence),
        E: FnOnce(F::Evidence) -> Result<(), RowError>,
    >(self, multiversioned: bool, apply: A, finish_failure: E) -> Res<Self::VisitResult>
        requires ready { ready self }
        requires arguments { Selects (F.law (options self) (types self)) Args.ARITY Args.elements (types self) }
        requires output { Stores (F.law (options self) (types self)) (bool_type not_nullable) (truth false) (label self) }
        requires policy { (F.law (options self) (types self)).policy ≡ deferred_policy Args.DENSE_SAFE Args.DECODE_INFALLIBLE }
        requires deferred { (F.law (options self) (types self)).deferred ≡ true }
        requires fallible { F.INFALLIBLE ≡ false }
        requires checks { Checks (F.law (options self) (types self)) Args.elements Args.cells truth (A.pre apply) (A.post apply) }
        requires judges { Judges (F.law (options self) (types self)) F.Evidence.in_range (E.pre finish_failure) (E.post finish_failure) }
        ensures { gives self result }
    {
        self.visit_prepared_deferred_bool::<Args, (), _, _, E>(
            multiversioned,
            |_: Args::ConstElems| Ok(()),
            |_nothing: &(), elems: Args::Elems| -> (bool, F::Evidence)
                requires { A.pre apply elems }
                ensures { A.post apply elems result }
            { apply(elems) },
            finish_failure,
        )
    }
}
