// Scalars of one value.
ghost use Rattle.std.specs.Prelude.{◌≡◌, IsTrue, Some, IfOk, IfErr};
ghost use Rattle.coltypes.specs.Cell.{truth, number, bytes};
ghost use Rattle.coltypes.specs.Fits.{in_range};
ghost use Rattle.coltypes.specs.LogicalType.{bool, primitive, utf8, binary};
ghost use Rattle.coltypes.specs.LogicalTypeOf.{extension_type, logical_type};
ghost use Rattle.coltypes.specs.Scalars.{scalar_cell, scalar_type};

use super::{Scalar, ScalarValue};
use crate::buffer::Buffer;
use crate::ctx::ExecutionCtx;
use crate::dtype::{DType, ExtDType, Nullability, PType};
use crate::fault::{Fault, Res};

impl Scalar {
    pub fn bool(value: bool, nullability: Nullability) -> Scalar
        ensures dtype { scalar_type result ≡ bool nullability }
        ensures value { scalar_cell result ≡ Some (truth value) }
    {
        Scalar::made(DType::Bool(nullability), Some(ScalarValue::Bool(value)))
    }

    /// A number in the range of the integer type.
    pub fn int(value: i128, ptype: PType, nullability: Nullability) -> Scalar
        requires { IsTrue (in_range ptype value) }
        ensures dtype { scalar_type result ≡ primitive ptype nullability }
        ensures value { scalar_cell result ≡ Some (number value) }
    {
        Scalar::made(
            DType::Primitive(ptype, nullability),
            Some(ScalarValue::Int(value)),
        )
    }

    pub fn utf8(text: &str, nullability: Nullability, ctx: ExecutionCtx) -> Res<Scalar>
        ensures dtype { IfOk result (λ s. scalar_type s ≡ utf8 nullability) }
        ensures value { IfOk result (λ s. scalar_cell s ≡ Some (bytes text.now)) }
        ensures errors { IfErr result (λ e. e ≡ Fault.Memory) }
    {
        let values = Buffer::from_vec(Vec::from_slice(ctx.alloc(), text.as_bytes())?, ctx)?;
        Ok(Scalar::made(DType::Utf8(nullability), Some(ScalarValue::Bytes(values))))
    }

    pub fn binary(values: &[u8], nullability: Nullability, ctx: ExecutionCtx) -> Res<Scalar>
        ensures dtype { IfOk result (λ s. scalar_type s ≡ binary nullability) }
        ensures value { IfOk result (λ s. scalar_cell s ≡ Some (bytes values.now)) }
        ensures errors { IfErr result (λ e. e ≡ Fault.Memory) }
    {
        let values = Buffer::from_vec(Vec::from_slice(ctx.alloc(), values)?, ctx)?;
        Ok(Scalar::made(DType::Binary(nullability), Some(ScalarValue::Bytes(values))))
    }

    /// The value of the storage under a named type.
    pub fn extension(ext: ExtDType, storage: Scalar) -> Scalar
        requires { scalar_type storage ≡ logical_type ext.storage }
        ensures dtype { scalar_type result ≡ extension_type ext }
        ensures value { result.value ≡ storage.value }
    {
        storage.checks();
        let Scalar { dtype: _, value } = storage;
        Scalar::made(DType::Extension(ext), value)
    }
}
