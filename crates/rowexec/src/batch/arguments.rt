// What a call is given: its number of columns, their lengths and their types. They are tested before the function is asked.
ghost use Rattle.std.specs.Prelude.{◌≡◌, length, IfOk, MatchResult};
ghost use Rattle.rowtypes.specs.Rows.{logical_types};
ghost use Rattle.rowexec.specs.Batch.{Fits, Misfits};
ghost use Rattle.rowexec.specs.Rows.{types_of, wrong_length};

use colbase::{ArrayRef, DType, ExecutionArgs, Fault, Res};
use rowplan::RowSpec;
use smallvec::SmallVec;
use std::alloc::{AllocError, Global};

/// Refuses another number of columns than the function has, and then the first column of another length.
pub(super) fn check_arguments<F: RowSpec>(args: &ExecutionArgs) -> Res<()>
    ensures { MatchResult result (λ _. Fits (length F.ARG_NAMES) args.now.row_count args.now.columns)
        (Misfits (length F.ARG_NAMES) args.now.row_count args.now.columns) }
{
    let expected = F::names_of_arguments().len();
    let actual = args.num_inputs();
    if actual != expected {
        return Err(Fault::Arity { expected, actual });
    }
    match wrong_length(args.columns(), args.row_count()) {
        Some(fault) => Err(fault),
        None => Ok(()),
    }
}

/// The same of a call with these options.
pub(super) fn check_call<F: RowSpec>(_options: &F::Options, args: &ExecutionArgs) -> Res<()>
    ensures { MatchResult result (λ _. Fits (F.law _options.now (types_of args.now.columns)).arity args.now.row_count args.now.columns)
        (Misfits (F.law _options.now (types_of args.now.columns)).arity args.now.row_count args.now.columns) }
{
    check_arguments::<F>(args)
}

fn wrong_length(columns: &[ArrayRef], row_count: usize) -> Option<Fault>
    ensures { result ≡ wrong_length row_count 0 columns.now }
{
    for (index, column) in columns.iter().enumerate() {
        let length = column.len();
        if length != row_count {
            return Some(Fault::InputLength {
                index,
                length,
                row_count,
            });
        }
    }
    None
}

/// The types of the columns. Those of four arguments take no memory.
pub(super) fn argument_types(
    columns: &[ArrayRef],
    alloc: Global,
) -> Result<SmallVec<DType, 4>, AllocError>
    ensures { IfOk result (λ v. logical_types v.items ≡ types_of columns.now) }
{
    let mut types = SmallVec::new(alloc);
    for column in columns {
        types.push(column.dtype().share())?;
    }
    Ok(types)
}
