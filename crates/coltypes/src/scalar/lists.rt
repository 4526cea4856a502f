// Scalars of a list of values.
ghost use Rattle.std.specs.Prelude.{◌≡◌, ◌<◌, ◌^◌, Some, IfOk, IfErr, length, map};
ghost use Rattle.coltypes.specs.Cell.{list_of};
ghost use Rattle.coltypes.specs.CellOf.{cell_of};
ghost use Rattle.coltypes.specs.LogicalType.{list, fixed_size_list};
ghost use Rattle.coltypes.specs.LogicalTypeOf.{logical_type};
ghost use Rattle.coltypes.specs.Scalars.{AllOfType, scalar_cell, scalar_type};

use super::{Scalar, ScalarValue};
use crate::ctx::ExecutionCtx;
use crate::dtype::{DType, Nullability};
use crate::fault::{Fault, Res};
use shared::{Items, Shared};
use std::alloc::{AllocError, Global};

impl Scalar {
    /// A list of values of exactly the element type.
    pub fn list(
        element: DType,
        values: Vec<Scalar>,
        nullability: Nullability,
        ctx: ExecutionCtx,
    ) -> Res<Scalar>
        requires { AllOfType (logical_type element) values.items }
        ensures dtype { IfOk result (λ s. scalar_type s ≡ list (logical_type element) nullability) }
        ensures value { IfOk result (λ s. scalar_cell s ≡ Some (list_of (map scalar_cell values.items))) }
        ensures errors { IfErr result (λ e. e ≡ Fault.Memory) }
    {
        let value = list_value(values.as_slice(), ctx)?;
        let dtype = list_dtype(element, nullability, ctx)?;
        Ok(Scalar::made(dtype, Some(value)))
    }

    /// A list of this many values of exactly the element type.
    pub fn fixed(
        element: DType,
        values: Vec<Scalar>,
        nullability: Nullability,
        ctx: ExecutionCtx,
    ) -> Res<Scalar>
        requires typed { AllOfType (logical_type element) values.items }
        requires counted { length values.items < 2 ^ 32 }
        ensures dtype { IfOk result (λ s. scalar_type s ≡ fixed_size_list (logical_type element) (length values.items) nullability) }
        ensures value { IfOk result (λ s. scalar_cell s ≡ Some (list_of (map scalar_cell values.items))) }
        ensures errors { IfErr result (λ e. e ≡ Fault.Memory) }
    {
        let width = values.len() as u32;
        let value = list_value(values.as_slice(), ctx)?;
        let dtype = fixed_dtype(element, width, nullability, ctx)?;
        Ok(Scalar::made(dtype, Some(value)))
    }

    /// The optional value, in an owner of its own.
    pub fn share_value(&self) -> Option<ScalarValue>
        ensures { result ≡ self.now.value }
    {
        match &self.value {
            None => None,
            Some(value) => Some(value.share()),
        }
    }
}

// The optional value of each scalar.
fn shared_values(scalars: &[Scalar], alloc: Global) -> Result<Vec<Option<ScalarValue>>, AllocError>
    ensures { IfOk result (λ v. v.items ≡ map (λ s. s.value) scalars.now) }
{
    let mut values = Vec::new(alloc);
    for i in 0..scalars.len() {
        values.push(scalars[i].share_value())?;
    }
    Ok(values)
}

// The list of the values of the scalars.
fn list_value(scalars: &[Scalar], ctx: ExecutionCtx) -> Res<ScalarValue>
    ensures made { IfOk result (λ v. cell_of v ≡ list_of (map scalar_cell scalars.now)) }
    ensures errors { IfErr result (λ e. e ≡ Fault.Memory) }
{
    let items = Items::from_vec(shared_values(scalars, ctx.alloc())?);
    Ok(ScalarValue::List(Shared::new(ctx.alloc(), items)?))
}

// The type of lists of these elements.
fn list_dtype(element: DType, nullability: Nullability, ctx: ExecutionCtx) -> Res<DType>
    ensures made { IfOk result (λ d. logical_type d ≡ list (logical_type element) nullability) }
    ensures errors { IfErr result (λ e. e ≡ Fault.Memory) }
{
    Ok(DType::List(Shared::new(ctx.alloc(), element)?, nullability))
}

// The type of lists of this many elements.
fn fixed_dtype(
    element: DType,
    width: u32,
    nullability: Nullability,
    ctx: ExecutionCtx,
) -> Res<DType>
    ensures made { IfOk result (λ d. logical_type d ≡ fixed_size_list (logical_type element) width nullability) }
    ensures errors { IfErr result (λ e. e ≡ Fault.Memory) }
{
    let element = Shared::new(ctx.alloc(), element)?;
    Ok(DType::FixedSizeList(element, width, nullability))
}
