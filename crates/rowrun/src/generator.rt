// The two columns that `gen` makes, and the summary of their checked sums. The sums are the engine's, so that a measurement of the
// program measures the call of a row function.
ghost use Rattle.std.specs.Prelude.{◌≡◌, ◌≤◌, ◌<◌, ℕ, true, option_map, IfOk, IfErr, OnOk};
ghost use Rattle.colbase.specs.Arrays.{dtype, len, row};
ghost use Rattle.coltypes.specs.Cell.{number};
ghost use Rattle.coltypes.specs.declared.dtype.PType.TheVariants.{I64};
ghost use Rattle.coltypes.specs.declared.fault.Fault.TheVariants.{Memory};
ghost use Rattle.rowelems.specs.Reading.{is_integer};
ghost use Rattle.rowexec.specs.Calls.{Raised};
ghost use Rattle.rowrun.specs.Generator.{most_rows, sum_at, summary};
ghost use Rattle.rowjson.specs.Shows.{Shows};

use crate::batch::{Batch, Call};
use crate::call::execute;
use colbase::{ArrayRef, Buffer, ExecutionCtx, Res};
use column::generated;
use ranges::check_array;
use rowexec::RowEngine;
use rowtypes::InputElement;
use summary::{add_up, text_of};

mod column;
mod ranges;
mod summary;

/// The checked sums of the generated columns, as the engine answers them. It never refuses them, so that memory alone
/// can be wanting.
fn sums<E: RowEngine>(engine: &mut E, rows: usize, ctx: ExecutionCtx) -> Res<ArrayRef>
    ensures called { OnOk result (Raised (E.calls engine.old) (E.calls engine.new)) }
    ensures numbers { IfOk result (λ a. is_integer I64 (dtype a) ≡ true) }
    ensures counted { IfOk result (λ a. len a ≡ rows) }
    ensures sums { IfOk result (λ a. (i : ℕ) → i < rows → row a i ≡ option_map number (sum_at rows i)) }
    ensures errors { IfErr result (λ e. e ≡ Memory) }
{
    let batch = Batch {
        call: Call::CheckedAdd,
        args: generated(rows, ctx)?,
    };
    execute(engine, &batch, ctx)
}

/// A number for each row, at each row that isn't null its cell. Each cell of the type is read, so that memory alone can be
/// wanting.
fn numbers_of(array: &ArrayRef, ctx: ExecutionCtx) -> Res<Buffer<i64>>
    requires { is_integer I64 (dtype array.now) ≡ true }
    ensures shows { IfOk result (Shows array.now) }
    ensures errors { IfErr result (λ e. e ≡ Memory) }
{
    check_array(array);
    i64::decode(array, ctx)
}

/// The summary of the checked sums of this many generated rows, which the engine adds.
///
/// Takes memory for three columns of numbers, and three times that many truth values.
pub(crate) fn summary_of<E: RowEngine>(
    engine: &mut E,
    rows: usize,
    ctx: ExecutionCtx,
) -> Res<Vec<u8>>
    requires { rows ≤ most_rows }
    ensures called { OnOk result (Raised (E.calls engine.old) (E.calls engine.new)) }
    ensures summary { IfOk result (λ v. v.items ≡ summary rows) }
    ensures errors { IfErr result (λ e. e ≡ Memory) }
{
    let array = sums(engine, rows, ctx)?;
    let numbers = numbers_of(&array, ctx)?;
    let marks = array.validity().execute_mask(array.len());
    let text = text_of(ctx.alloc(), rows, add_up(numbers.as_slice(), &marks))?;
    Ok(text)
}
