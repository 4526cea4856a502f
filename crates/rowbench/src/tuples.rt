// The loop over a decoded tuple, without the plan and the column around it.
ghost use Rattle.std.specs.Prelude.{◌≡◌, IfOk, [], ◌∷◌};
ghost use Rattle.colbase.specs.Arrays.{dtype, len};
ghost use Rattle.coltypes.specs.LogicalType.{primitive};
ghost use Rattle.coltypes.specs.declared.dtype.Nullability.TheVariants.{NonNullable};
ghost use Rattle.coltypes.specs.declared.dtype.PType.TheVariants.{I64};

use colbase::{
    ArrayRef, Buffer, ConstantArray, ExecutionCtx, Nullability, PType, PrimitiveArray, Res, Scalar,
    Validity,
};
use rowtypes::{ElementTuple, OutputBuffer, OutputElement, map_rows};
use std::alloc::{AllocError, Global};

/// The numbers 0, 1 and so on.
fn rising(rows: usize, ctx: ExecutionCtx) -> Res<ArrayRef>
    ensures len { IfOk result (λ a. len a ≡ rows) }
    ensures dtype { IfOk result (λ a. dtype a ≡ primitive I64 NonNullable) }
{
    let mut values = Vec::from_elem(ctx.alloc(), 0i64, rows)?;
    for i in 0..values.len() {
        values[i] = i as i64;
    }
    PrimitiveArray::try_new(Buffer::from_vec(values, ctx)?, Validity::NonNullable, ctx)
}

fn nines(rows: usize, ctx: ExecutionCtx) -> Res<ArrayRef>
    ensures len { IfOk result (λ a. len a ≡ rows) }
    ensures dtype { IfOk result (λ a. dtype a ≡ primitive I64 NonNullable) }
{
    let nine = Scalar::int(9, PType::I64, Nullability::NonNullable);
    ConstantArray::try_new(nine, rows, ctx)
}

pub fn two_columns(
    first: ArrayRef,
    second: ArrayRef,
    alloc: Global,
) -> Result<Vec<ArrayRef>, AllocError>
    ensures { IfOk result (λ v. v.items ≡ first ∷ second ∷ []) }
{
    let mut columns = Vec::new(alloc);
    columns.push(first)?;
    columns.push(second)?;
    Ok(columns)
}

/// The last sum of two columns, the second of which is a constant or not, that are decoded once and added anew into the
/// same places in each round.
pub fn added_in_rounds(alloc: Global, rows: usize, rounds: usize, constant: bool) -> Res<i64> {
    let ctx = ExecutionCtx::new(alloc);
    let second = if constant {
        nines(rows, ctx)?
    } else {
        rising(rows, ctx)?
    };
    let columns = two_columns(rising(rows, ctx)?, second, alloc)?;
    let decoded = <(i64, i64) as ElementTuple>::decode(columns.as_slice(), ctx)?;
    if !<(i64, i64) as ElementTuple>::decoded_lens_match(&decoded, rows) {
        return Ok(0);
    }
    let mut places = i64::with_capacity(rows, ctx)?;
    for _ in 0..rounds {
        places = map_rows::<(i64, i64), i64, _>(&decoded, rows, places, |pair: (i64, i64)| {
            pair.0.wrapping_add(pair.1)
        });
    }
    Ok(match places.slots().last() {
        Some(sum) => *sum,
        None => 0,
    })
}
