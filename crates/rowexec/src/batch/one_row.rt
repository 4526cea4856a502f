// One row that stands for all rows of a batch of constants, so that such a batch takes one call whatever its length.
ghost use Rattle.std.specs.Prelude.{◌≡◌, ◌<◌, ℕ, true, IfOk, IfErr};
ghost use Rattle.colbase.specs.Arrays.{dtype, len, row};
ghost use Rattle.coltypes.specs.declared.fault.Fault.TheVariants.{Memory};
ghost use Rattle.rowtypes.specs.Rows.{logical_types};
ghost use Rattle.rowexec.specs.Calls.{IsPlannedCall};
ghost use Rattle.rowexec.specs.Counts.{each_one_value, is_one_value, one_row};
ghost use Rattle.rowexec.specs.Rows.{EachHasRows, IsConstant, types_of};
ghost use Rattle.rowexec.specs.Visits.{RepeatsRow, RunsSteps};

use super::run::execute_row_kernel;
use crate::execution_args::RowFnExecutionArgs;
use crate::visitor::Visited;
use colbase::{ArrayRef, ConstantArray, ExecutionCtx, Res, ValidityKind};
use rowloops::RowDomain;
use rowplan::RowFn;
use rowtypes::batch_const;

/// Whether one row stands for all rows: there is a row and a column, and each column is one value without nulls.
pub(super) fn is_one_row(columns: &[ArrayRef], row_count: usize) -> bool
    requires { EachHasRows row_count columns.now }
    ensures { result ≡ one_row row_count columns.now }
{
    row_count > 0 && !columns.is_empty() && is_each_one_value(columns, row_count)
}

fn is_each_one_value(columns: &[ArrayRef], row_count: usize) -> bool
    requires rows { EachHasRows row_count columns.now }
    requires some { 0 < row_count }
    ensures { result ≡ each_one_value columns.now }
{
    let Some((first, others)) = columns.split_first() else {
        return true;
    };
    is_one_value(first) && is_each_one_value(others, row_count)
}

fn is_one_value(column: &ArrayRef) -> bool
    requires { 0 < len column.now }
    ensures { result ≡ is_one_value column.now }
{
    let validity = column.validity();
    match validity.kind() {
        ValidityKind::NoNulls => batch_const(column).is_some(),
        ValidityKind::AllNull | ValidityKind::MayHoldNulls => false,
    }
}

/// The values of all rows by one row, as a constant.
pub(super) fn execute_all_constant<F: RowFn>(
    call: &RowFnExecutionArgs<F>,
) -> Visited<Option<ArrayRef>>
    requires call { IsPlannedCall (F.law call.now.options.now (types_of call.now.columns.now)) (logical_types call.now.types.now)
        call.now.columns.now call.now.row_count call.now.plan.now call.now.full.now }
    requires one { one_row call.now.row_count call.now.columns.now ≡ true }
    ensures { RunsSteps (F.law call.now.options.now (types_of call.now.columns.now)) call.now.columns.now call.now.row_count 1 1
        result.answer result.prepares result.steps }
{
    let Visited {
        answer,
        prepares,
        steps,
    } = execute_row_kernel(call, call.columns, RowDomain::All(1)).decided();
    let answer = match answer {
        Ok(Some(row)) => repeated_row(&row, call.row_count, call.ctx),
        Ok(None) => Ok(None),
        Err(fault) => Err(fault),
    };
    Visited {
        answer,
        prepares,
        steps,
    }
}

// The values of all rows by those of one.
fn repeated_row(values: &ArrayRef, row_count: usize, ctx: ExecutionCtx) -> Res<Option<ArrayRef>>
    requires { 0 < len values.now }
    ensures { RepeatsRow values.now row_count result }
{
    let repeated = repeated(values, row_count, ctx)?;
    Ok(Some(repeated))
}

/// The first row in each of this many rows, as a constant.
pub(super) fn repeated(values: &ArrayRef, row_count: usize, ctx: ExecutionCtx) -> Res<ArrayRef>
    requires { 0 < len values.now }
    ensures dtype { IfOk result (λ a. dtype a ≡ dtype values.now) }
    ensures len { IfOk result (λ a. len a ≡ row_count) }
    ensures rows { IfOk result (λ a. (i : ℕ) → row a i ≡ row values.now 0) }
    ensures constant { IfOk result IsConstant }
    ensures errors { IfErr result (λ e. e ≡ Memory) }
{
    let first = values.scalar_at(0, ctx)?;
    ConstantArray::try_new(first, row_count, ctx)
}
