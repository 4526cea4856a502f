// Scalars: each constructor's value is read back from a column, and equal scalars hash alike.
ghost use Rattle.std.specs.Prelude.{◌≡◌, IfOk, length};
ghost use Rattle.coltypes.specs.LogicalType.{primitive};
ghost use Rattle.coltypes.specs.Scalars.{AllOfType};

use colbase::{ConstantArray, DType, ExecutionCtx, Nullability, PType, Res, Scalar};
use std::alloc::{AllocError, Global};
use std::hash::{DefaultHasher, Hash, Hasher};
use std::test::Fail;

// The numbers 1 and 2.
fn two_numbers(nullability: Nullability, alloc: Global) -> Result<Vec<Scalar>, AllocError>
    ensures typed { IfOk result (λ v. AllOfType (primitive PType.I64 nullability) v.items) }
    ensures counted { IfOk result (λ v. length v.items ≡ 2) }
{
    let first = Scalar::int(1, PType::I64, nullability);
    let second = Scalar::int(2, PType::I64, nullability);
    let mut values = Vec::new(alloc);
    values.push(first)?;
    values.push(second)?;
    Ok(values)
}

fn list_of_two(nullability: Nullability, ctx: ExecutionCtx) -> Res<Scalar> {
    let element = DType::Primitive(PType::I64, nullability);
    let values = two_numbers(nullability, ctx.alloc())?;
    Scalar::list(element, values, nullability, ctx)
}

fn fixed_list_of_two(nullability: Nullability, ctx: ExecutionCtx) -> Res<Scalar> {
    let element = DType::Primitive(PType::I64, nullability);
    let values = two_numbers(nullability, ctx.alloc())?;
    Scalar::fixed(element, values, nullability, ctx)
}

// Whether a column of this scalar has it in its row.
fn is_read_back(scalar: &Scalar, ctx: ExecutionCtx) -> Res<bool> {
    let array = ConstantArray::try_new(scalar.share(), 1, ctx)?;
    if array.len() == 0 {
        return Ok(false);
    }
    Ok(array.scalar_at(0, ctx)? == *scalar)
}

fn hash_of(scalar: &Scalar) -> u64 {
    let mut state = DefaultHasher::new();
    scalar.hash(&mut state);
    state.finish()
}

#[test]
fn bytes_are_read_back(rt: HostRuntime) -> Result<(), Fail> {
    let ctx = ExecutionCtx::new(rt.alloc());
    assert!(rt; is_read_back(&Scalar::utf8("a", Nullability::NonNullable, ctx)?, ctx)?);
    assert!(rt; is_read_back(&Scalar::binary(&[255], Nullability::NonNullable, ctx)?, ctx)?);
    Ok(())
}

#[test]
fn lists_are_read_back(rt: HostRuntime) -> Result<(), Fail> {
    let ctx = ExecutionCtx::new(rt.alloc());
    assert!(rt; is_read_back(&list_of_two(Nullability::NonNullable, ctx)?, ctx)?);
    assert!(rt; is_read_back(&fixed_list_of_two(Nullability::NonNullable, ctx)?, ctx)?);
    Ok(())
}

#[test]
fn equal_lists_hash_alike(rt: HostRuntime) -> Result<(), Fail> {
    let ctx = ExecutionCtx::new(rt.alloc());
    let list = list_of_two(Nullability::NonNullable, ctx)?;
    let other = list_of_two(Nullability::Nullable, ctx)?;
    assert!(rt; list == other && hash_of(&list) == hash_of(&other));
    Ok(())
}

#[test]
fn other_numbers_hash_otherwise(rt: HostRuntime) {
    let one = Scalar::int(1, PType::I64, Nullability::NonNullable);
    let two = Scalar::int(2, PType::I64, Nullability::NonNullable);
    assert!(rt; hash_of(&one) != hash_of(&two));
}
