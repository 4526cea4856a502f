// Some scalar of a type.
ghost use Rattle.std.specs.Prelude.{◌≡◌, IfOk, IfErr, IsTrue, option_map, replicate};
ghost use Rattle.coltypes.specs.Cell.{list_of};
ghost use Rattle.coltypes.specs.CellOf.{cell_of};
ghost use Rattle.coltypes.specs.Fits.{fits_type};
ghost use Rattle.coltypes.specs.LogicalTypeOf.{logical_type};

use super::{Scalar, ScalarValue};
use crate::buffer::Buffer;
use crate::ctx::ExecutionCtx;
use crate::dtype::DType;
use crate::fault::{Fault, Res};
use shared::{Items, Shared};
use std::alloc::{AllocError, Global};

impl Scalar {
    /// Some scalar of this type: the null of a nullable one, and else a value. Takes room for the elements of a list of
    /// fixed size.
    pub fn any(dtype: DType, ctx: ExecutionCtx) -> Res<Scalar>
        ensures dtype { IfOk result (λ s. s.dtype ≡ dtype) }
        ensures errors { IfErr result (λ e. e ≡ Fault.Memory) }
    {
        let value = any_value(&dtype, ctx)?;
        Ok(Scalar::made(dtype, value))
    }
}

// A value of this type, or none where it is nullable.
fn any_value(dtype: &DType, ctx: ExecutionCtx) -> Res<Option<ScalarValue>>
    ensures fits { IfOk result (λ v. IsTrue (fits_type (option_map cell_of v) (logical_type dtype.now))) }
    ensures errors { IfErr result (λ e. e ≡ Fault.Memory) }
{
    if dtype.is_nullable() {
        return Ok(None);
    }
    match dtype {
        DType::Null => Ok(None),
        DType::Bool(_) => Ok(Some(ScalarValue::Bool(false))),
        DType::Primitive(_, _) => Ok(Some(ScalarValue::Int(0))),
        DType::Utf8(_) | DType::Binary(_) => {
            let bytes = Buffer::from_vec(Vec::new(ctx.alloc()), ctx)?;
            Ok(Some(ScalarValue::Bytes(bytes)))
        }
        DType::List(_, _) => Ok(Some(repeated(&None, 0, ctx)?)),
        DType::FixedSizeList(element, width, _) => {
            let element = any_value(element.get(), ctx)?;
            Ok(Some(repeated(&element, *width, ctx)?))
        }
        DType::Extension(e) => any_value(e.storage.get(), ctx),
    }
}

// The list of this many times one optional value.
fn repeated(value: &Option<ScalarValue>, count: u32, ctx: ExecutionCtx) -> Res<ScalarValue>
    ensures made { IfOk result (λ v. cell_of v ≡ list_of (replicate count (option_map cell_of value.now))) }
    ensures errors { IfErr result (λ e. e ≡ Fault.Memory) }
{
    let items = Items::from_vec(copies(value, count, ctx.alloc())?);
    Ok(ScalarValue::List(Shared::new(ctx.alloc(), items)?))
}

fn copies(
    value: &Option<ScalarValue>,
    count: u32,
    alloc: Global,
) -> Result<Vec<Option<ScalarValue>>, AllocError>
    ensures { IfOk result (λ v. v.items ≡ replicate count value.now) }
{
    let mut values = Vec::new(alloc);
    for _ in 0..count {
        values.push(share_optional(value))?;
    }
    Ok(values)
}

fn share_optional(value: &Option<ScalarValue>) -> Option<ScalarValue>
    ensures { result ≡ value.now }
{
    match value {
        None => None,
        Some(value) => Some(value.share()),
    }
}
