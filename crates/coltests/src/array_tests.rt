// Each operation of arrays, on each layout.
ghost use Rattle.coltypes.specs.Valid.{LengthsAgree};

use crate::layouts::{ROWS, layouts, shows, truths};
use colbase::{
    ArrayRef, ConstantArray, DType, ExecutionCtx, Mask, Nullability, PType, Res, Scalar, Validity,
};
use std::test::Fail;

// Whether the last two rows are those of the list.
fn has_last_two(array: &ArrayRef, rows: &[Option<i128>; 3], ctx: ExecutionCtx) -> Res<bool> {
    if array.len() != 3 {
        return Ok(false);
    }
    shows(&array.slice(1, 3, ctx)?, &[rows[1], rows[2]], ctx)
}

#[test]
fn parts_of_each_layout(rt: HostRuntime) -> Result<(), Fail> {
    let ctx = ExecutionCtx::new(rt.alloc());
    for (array, rows) in layouts(ctx)?.iter().zip(ROWS.iter()) {
        assert!(rt; has_last_two(array, rows, ctx)?);
    }
    Ok(())
}

// Whether a mask leaves these rows.
fn leaves(array: &ArrayRef, mask: &Mask, rows: &[Option<i128>], ctx: ExecutionCtx) -> Res<bool> {
    if mask.len() != array.len() {
        return Ok(false);
    }
    shows(&array.filter(mask, ctx)?, rows, ctx)
}

#[test]
fn selected_rows_of_each_layout(rt: HostRuntime) -> Result<(), Fail> {
    let ctx = ExecutionCtx::new(rt.alloc());
    let outer = Mask::Values(truths(&[true, false, true], ctx)?);
    for (array, rows) in layouts(ctx)?.iter().zip(ROWS.iter()) {
        assert!(rt; leaves(array, &outer, &[rows[0], rows[2]], ctx)?);
    }
    Ok(())
}

#[test]
fn all_rows_and_no_row_of_each_layout(rt: HostRuntime) -> Result<(), Fail> {
    let ctx = ExecutionCtx::new(rt.alloc());
    for (array, rows) in layouts(ctx)?.iter().zip(ROWS.iter()) {
        assert!(rt; leaves(array, &Mask::AllTrue(3), rows, ctx)?);
        assert!(rt; leaves(array, &Mask::AllFalse(3), &[], ctx)?);
    }
    Ok(())
}

// Whether the last row can be hidden, which makes the type nullable.
fn hides_last(array: &ArrayRef, rows: &[Option<i128>; 3], ctx: ExecutionCtx) -> Res<bool> {
    let valid = truths(&[true, true, false], ctx)?;
    if valid.len() != array.len() {
        return Ok(false);
    }
    let hidden = array.mask(&valid, ctx)?;
    Ok(hidden.dtype().is_nullable() && shows(&hidden, &[rows[0], rows[1], None], ctx)?)
}

#[test]
fn masks_over_each_layout(rt: HostRuntime) -> Result<(), Fail> {
    let ctx = ExecutionCtx::new(rt.alloc());
    for (array, rows) in layouts(ctx)?.iter().zip(ROWS.iter()) {
        assert!(rt; hides_last(array, rows, ctx)?);
    }
    Ok(())
}

// Whether the first row, which is not null, stays in a type that is not nullable and back in a nullable one.
fn casts_first(array: &ArrayRef, first: Option<i128>, ctx: ExecutionCtx) -> Res<bool> {
    if array.len() == 0 {
        return Ok(false);
    }
    let row = array.slice(0, 1, ctx)?.cast(Nullability::NonNullable, ctx)?;
    let back = row.cast(Nullability::Nullable, ctx)?;
    Ok(!row.dtype().is_nullable() && shows(&row, &[first], ctx)? && shows(&back, &[first], ctx)?)
}

#[test]
fn casts_of_each_layout(rt: HostRuntime) -> Result<(), Fail> {
    let ctx = ExecutionCtx::new(rt.alloc());
    for (array, rows) in layouts(ctx)?.iter().zip(ROWS.iter()) {
        assert!(rt; casts_first(array, rows[0], ctx)?);
    }
    Ok(())
}

// A null constant of no rows can be cast to a type that is not nullable, which takes some value of the type.
fn casts_no_rows(dtype: DType, ctx: ExecutionCtx) -> Res<bool> {
    if !dtype.is_nullable() {
        return Ok(false);
    }
    let array = ConstantArray::try_new(Scalar::null(dtype), 0, ctx)?;
    let cast = array.cast(Nullability::NonNullable, ctx)?;
    Ok(cast.len() == 0 && !cast.dtype().is_nullable())
}

#[test]
fn casts_of_no_null_rows(rt: HostRuntime) -> Result<(), Fail> {
    let ctx = ExecutionCtx::new(rt.alloc());
    assert!(rt; casts_no_rows(DType::Utf8(Nullability::Nullable), ctx)?);
    assert!(rt; casts_no_rows(DType::Primitive(PType::U8, Nullability::Nullable), ctx)?);
    Ok(())
}

// Whether the rows that neither validity makes null are as many.
fn joined_trues(left: &Validity, right: &Validity, ctx: ExecutionCtx) -> Res<usize>
    requires { LengthsAgree left.now right.now }
{
    match left.and(right, ctx)? {
        Validity::Array(bits) => Ok(bits.true_count()),
        _ => Ok(0),
    }
}

#[test]
fn validities_joined(rt: HostRuntime) -> Result<(), Fail> {
    let ctx = ExecutionCtx::new(rt.alloc());
    let (left, right) = (
        truths(&[true, true, false], ctx)?,
        truths(&[true, false, true], ctx)?,
    );
    if left.len() == right.len() {
        let (left, right) = (Validity::Array(left), Validity::Array(right));
        assert_eq!(rt; joined_trues(&left, &right, ctx)?, 1);
        assert_eq!(rt; joined_trues(&left, &Validity::AllValid, ctx)?, 2);
    }
    Ok(())
}
