// A row function with the calls that an engine of scalar functions makes, each by one call of `batch`.
ghost use Rattle.std.specs.Prelude.{◌≡◌, ◌<◌, ℕ, List, length, slice_index_or, true};
ghost use Rattle.rowtypes.specs.Rows.{logical_types};
ghost use Rattle.rowexec.specs.Rows.{types_of};
ghost use Rattle.rowexec.specs.Batch.{Executes, Returns, MarksFull};

use crate::batch::{execute_rows, full_mask, row_fn_return_dtype};
use colbase::{ArrayRef, DType, ExecutionArgs, ExecutionCtx, Mask, Res};
use rowplan::RowFn;

/// A row function as a scalar function of an engine.
pub struct RowFnVTable<F>(pub F);

impl<F: RowFn> RowFnVTable<F> {
    pub fn arity(&self) -> usize
        ensures { result ≡ length F.ARG_NAMES }
    {
        F::names_of_arguments().len()
    }

    /// The name of an argument.
    pub fn child_name(&self, index: usize) -> &'static str
        requires { index < length F.ARG_NAMES }
        ensures { (default : List ℕ) → result.now ≡ slice_index_or F.ARG_NAMES index default }
    {
        F::names_of_arguments()[index]
    }

    /// Answers as [`row_fn_return_dtype`] does.
    pub fn return_dtype(
        &self,
        options: &F::Options,
        types: &[DType],
        ctx: ExecutionCtx,
    ) -> Res<DType>
        ensures { Returns (F.law options.now (logical_types types.now)) (logical_types types.now) result }
    {
        row_fn_return_dtype(&self.0, options, types, ctx)
    }

    /// Answers as [`execute_rows`] does.
    pub fn execute(
        &self,
        options: &F::Options,
        args: &ExecutionArgs,
        ctx: ExecutionCtx,
    ) -> Res<ArrayRef>
        ensures { Executes (F.law options.now (types_of args.now.columns)) args.now.columns args.now.row_count result }
    {
        execute_rows(&self.0, options, args, ctx)
    }

    /// The rows at which no argument is null.
    pub fn validity(&self, args: &ExecutionArgs, ctx: ExecutionCtx) -> Res<Mask>
        ensures { MarksFull (length F.ARG_NAMES) args.now.columns args.now.row_count result }
    {
        full_mask::<F>(args, ctx)
    }

    /// A null argument always makes the row null.
    pub fn is_strict(&self) -> bool
        ensures { result ≡ true }
    {
        true
    }

    /// Whether no row fails.
    pub fn is_infallible(&self) -> bool
        ensures { result ≡ F.INFALLIBLE }
    {
        F::INFALLIBLE
    }
}
