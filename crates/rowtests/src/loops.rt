// The runs over each domain of rows: each is run once, and tells as many calls as its callback counts.
ghost use Rattle.std.specs.Prelude.{◌≡◌, true, IfOk};
ghost use Rattle.colbase.specs.Arrays.{dtype};
ghost use Rattle.coltypes.specs.declared.dtype.PType.TheVariants.{I64};
ghost use Rattle.rowelems.specs.Reading.{is_integer};

use crate::columns::has_rows;
use bitlane::BitBuffer;
use colbase::{ArrayRef, Buffer, ExecutionCtx, PrimitiveArray, ScalarValue, Validity};
use rowcases::Calls;
use rowloops::{RowDomain, execute_owned, execute_owned_bool};
use rowtypes::ElementTuple;
use std::test::Fail;

/// One decoded column of numbers.
type Decoded = <(i64,) as ElementTuple>::Columns;

fn column(values: &[i64], ctx: ExecutionCtx) -> Result<ArrayRef, Fail>
    ensures { IfOk result (λ a. is_integer I64 (dtype a) ≡ true) }
{
    let values = Buffer::from_vec(Vec::from_slice(ctx.alloc(), values)?, ctx)?;
    Ok(PrimitiveArray::try_new(values, Validity::NonNullable, ctx)?)
}

fn decoded(values: &[i64], ctx: ExecutionCtx) -> Result<Decoded, Fail> {
    let columns = [column(values, ctx)?];
    Ok(<(i64,) as ElementTuple>::decode(&columns, ctx)?)
}

/// True at the first and the third of three rows.
fn ends(ctx: ExecutionCtx) -> Result<BitBuffer, Fail> {
    Ok(BitBuffer::collect_bool_in(ctx.alloc(), 3, |i| i != 1)?)
}

/// The numbers and five, with the joined evidence that a number is above 9, and how many calls were told.
fn owned(
    columns: &Decoded,
    domain: RowDomain,
    calls: &Calls,
    ctx: ExecutionCtx,
) -> Result<(ArrayRef, bool, u128), Fail> {
    if !<(i64,) as ElementTuple>::decoded_lens_match(columns, domain.width()) {
        return Err(Fail::from("another number of rows"));
    }
    let (answer, told) = execute_owned::<(i64,), i64, bool, i64, _>(
        columns,
        domain,
        5,
        |five: &i64, row: (i64,)| {
            calls.raise();
            (five.wrapping_add(row.0), row.0 > 9)
        },
        ctx,
    );
    let (values, evidence) = answer?;
    Ok((values, evidence, told))
}

#[test]
fn all_rows(rt: HostRuntime) -> Result<(), Fail> {
    let ctx = ExecutionCtx::new(rt.alloc());
    let calls = Calls::new();
    let columns = decoded(&[1, 10, 3], ctx)?;
    let (values, evidence, told) = owned(&columns, RowDomain::All(3), &calls, ctx)?;
    assert!(rt; has_rows(&values, &[Some(6), Some(15), Some(8)], ctx)?);
    assert!(rt; evidence && told == 3 && calls.count() == 3);
    Ok(())
}

// The number above 9 stands at a row that isn't marked.
#[test]
fn marked_rows(rt: HostRuntime) -> Result<(), Fail> {
    let ctx = ExecutionCtx::new(rt.alloc());
    let calls = Calls::new();
    let columns = decoded(&[1, 10, 3], ctx)?;
    let (values, evidence, told) = owned(&columns, RowDomain::Marked(&ends(ctx)?), &calls, ctx)?;
    assert!(rt; has_rows(&values, &[Some(6), Some(0), Some(8)], ctx)?);
    assert!(rt; !evidence && told == 2 && calls.count() == 2);
    Ok(())
}

#[test]
fn filtered_rows(rt: HostRuntime) -> Result<(), Fail> {
    let ctx = ExecutionCtx::new(rt.alloc());
    let calls = Calls::new();
    let columns = decoded(&[1, 10], ctx)?;
    let (values, evidence, told) = owned(&columns, RowDomain::Filtered(&ends(ctx)?), &calls, ctx)?;
    assert!(rt; has_rows(&values, &[Some(6), Some(0), Some(15)], ctx)?);
    assert!(rt; evidence && told == 2 && calls.count() == 2);
    Ok(())
}

/// Whether each number is below 2, and how many calls were told.
fn packed(
    columns: &Decoded,
    domain: RowDomain,
    calls: &Calls,
    ctx: ExecutionCtx,
) -> Result<(ArrayRef, u128), Fail> {
    if !<(i64,) as ElementTuple>::decoded_lens_match(columns, domain.width()) {
        return Err(Fail::from("another number of rows"));
    }
    let (answer, told) = execute_owned_bool::<(i64,), _>(
        columns,
        domain,
        true,
        |row: (i64,)| {
            calls.raise();
            row.0 < 2
        },
        ctx,
    );
    let (values, _) = answer?;
    Ok((values, told))
}

/// How many rows are true.
fn truths(array: &ArrayRef, ctx: ExecutionCtx) -> Result<usize, Fail> {
    let mut count: usize = 0;
    for i in 0..array.len() {
        match array.scalar_at(i, ctx)?.value() {
            Some(ScalarValue::Bool(true)) => count = count.saturating_add(1),
            _ => (),
        }
    }
    Ok(count)
}

#[test]
fn truth_values(rt: HostRuntime) -> Result<(), Fail> {
    let ctx = ExecutionCtx::new(rt.alloc());
    let calls = Calls::new();
    let (below, told) = packed(&decoded(&[1, 2, 0], ctx)?, RowDomain::All(3), &calls, ctx)?;
    assert_eq!(rt; truths(&below, ctx)?, 2);
    assert!(rt; told == 3 && calls.count() == 3);
    Ok(())
}

#[test]
fn marked_truth_values(rt: HostRuntime) -> Result<(), Fail> {
    let ctx = ExecutionCtx::new(rt.alloc());
    let calls = Calls::new();
    let columns = decoded(&[1, 1, 0], ctx)?;
    let (below, told) = packed(&columns, RowDomain::Marked(&ends(ctx)?), &calls, ctx)?;
    assert_eq!(rt; truths(&below, ctx)?, 2);
    assert!(rt; told == 2 && calls.count() == 2);
    Ok(())
}
