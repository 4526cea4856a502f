// Functions that answer truth values, by each visit that does.
use crate::columns::{all_but, bytes, numbers, one, took, two};
use colbase::{ArrayRef, EmptyOptions, ExecutionCtx, ScalarValue, Validity};
use rowcases::{Deferral, Ordered, Small};
use rowexec::{Counted, execute_rows_counted};
use std::test::Fail;

// Whether the column has these rows.
fn has_truths(array: &ArrayRef, rows: &[Option<bool>], ctx: ExecutionCtx) -> Result<bool, Fail> {
    if array.len() != rows.len() {
        return Ok(false);
    }
    for i in 0..array.len() {
        let scalar = array.scalar_at(i, ctx)?;
        let same = match (scalar.value(), &rows[i]) {
            (None, None) => true,
            (Some(ScalarValue::Bool(value)), Some(wanted)) => *value == *wanted,
            _ => false,
        };
        if !same {
            return Ok(false);
        }
    }
    Ok(true)
}

// Whether the answer is true, null, false.
fn is_mixed(told: &Counted, ctx: ExecutionCtx) -> Result<bool, Fail> {
    match &told.answer {
        Ok(answer) => has_truths(answer, &[Some(true), None, Some(false)], ctx),
        Err(_) => Ok(false),
    }
}

// Whether 1, null over 9, 5 are below 2, 2, 2 as they should be, by three calls that the callback counts.
fn orders(multiversioned: bool, ctx: ExecutionCtx) -> Result<bool, Fail> {
    let first = numbers(&[1, 9, 5], all_but(1, 3, ctx)?, ctx)?;
    let second = numbers(&[2, 2, 2], Validity::NonNullable, ctx)?;
    let args = two(first, second, 3, ctx)?;
    let function = Ordered::new(multiversioned);
    let told = execute_rows_counted(&function, &EmptyOptions, &args, ctx);
    Ok(is_mixed(&told, ctx)? && took(&told, 1, 3) && function.calls() == 3)
}

#[test]
fn truth_values_by_one_collector(rt: HostRuntime) -> Result<(), Fail> {
    assert!(rt; orders(false, ExecutionCtx::new(rt.alloc()))?);
    Ok(())
}

#[test]
fn truth_values_by_the_other_collector(rt: HostRuntime) -> Result<(), Fail> {
    assert!(rt; orders(true, ExecutionCtx::new(rt.alloc()))?);
    Ok(())
}

// Whether 1, null over 200, 7 are small as they should be, by two runs.
fn is_small(visit: Deferral, ctx: ExecutionCtx) -> Result<bool, Fail> {
    let args = one(bytes(&[1, 200, 7], all_but(1, 3, ctx)?, ctx)?, 3, ctx)?;
    let told = execute_rows_counted(&Small::new(visit), &EmptyOptions, &args, ctx);
    Ok(is_mixed(&told, ctx)? && took(&told, 2, 5))
}

const DEFERRALS: [Deferral; 4] = [
    Deferral::Plain,
    Deferral::Prepared,
    Deferral::Bool,
    Deferral::PreparedBool,
];

#[test]
fn truth_values_with_evidence(rt: HostRuntime) -> Result<(), Fail> {
    let ctx = ExecutionCtx::new(rt.alloc());
    for visit in DEFERRALS {
        assert!(rt; is_small(visit, ctx)?, "by {visit:?}");
    }
    Ok(())
}
