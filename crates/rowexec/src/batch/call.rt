// The public calls of a batch that tell no counts, each by the counted call or by the checks that it begins with.
ghost use Rattle.std.specs.Prelude.{◌≡◌, ◌≢◌, ◌<◌, ◌⊎◌, length, Err};
ghost use Rattle.colbase.specs.Arrays.{len, row};
ghost use Rattle.coltypes.specs.declared.fault.Fault.TheVariants.{Arity};
ghost use Rattle.rowtypes.specs.Rows.{logical_types};
ghost use Rattle.rowexec.specs.Evidence.{joined};
ghost use Rattle.rowexec.specs.Rows.{types_of};
ghost use Rattle.rowexec.specs.Batch.{Executes, Returns, MarksFull};

use super::arguments::check_arguments;
use super::counted::execute_rows_counted;
use super::full_rows::full_rows;
use super::plan::plan_batch;
use colbase::{ArrayRef, DType, ExecutionArgs, ExecutionCtx, Fault, Mask, Res};
use rowplan::{RowFn, RowSpec};

/// A row function over whole columns.
///
/// The column has the stated type and `row_count` rows. Row i is null exactly where some argument is null there, and else
/// is the function's meaning of the arguments there, whatever the layouts, the values under nulls and the constants.
/// Refusals come in this order: the number of columns, the first column of another length, options or types that the
/// function doesn't take, the first type that its element doesn't accept, an output that isn't in order; and then an
/// argument with a cell that isn't read, or rows without a null argument whose joined evidence is rejected. A value under a
/// null neither fails a call nor hides a failure. Nothing is decoded where some argument is told to be null at each row.
pub fn execute_rows<F: RowFn>(
    function: &F,
    options: &F::Options,
    args: &ExecutionArgs,
    ctx: ExecutionCtx,
) -> Res<ArrayRef>
    ensures { Executes (F.law options.now (types_of args.now.columns)) args.now.columns args.now.row_count result }
{
    execute_rows_counted(function, options, args, ctx).answer
}

/// The type of the columns that [`execute_rows`] answers for arguments of these types, with its refusals that don't look at
/// columns.
pub fn row_fn_return_dtype<F: RowFn>(
    function: &F,
    options: &F::Options,
    types: &[DType],
    ctx: ExecutionCtx,
) -> Res<DType>
    ensures { Returns (F.law options.now (logical_types types.now)) (logical_types types.now) result }
{
    let expected = F::names_of_arguments().len();
    let actual = types.len();
    if actual != expected {
        return Err(Fault::Arity { expected, actual });
    }
    let plan = plan_batch(function, options, types, ctx)?;
    plan.result_dtype(types, ctx)
}

/// The rows at which no argument is null.
pub(crate) fn full_mask<F: RowSpec>(args: &ExecutionArgs, ctx: ExecutionCtx) -> Res<Mask>
    ensures { MarksFull (length F.ARG_NAMES) args.now.columns args.now.row_count result }
{
    check_arguments::<F>(args)?;
    let full = full_rows(args.columns(), args.row_count(), ctx)?;
    Ok(full.execute_mask(args.row_count()))
}
