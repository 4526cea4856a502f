// The scalar that a JSON value states under a type, which is read before, so that a number is judged by its range.
ghost use Rattle.std.specs.Prelude.{◌≡◌, Some, None, option_and_then};
ghost use Rattle.serde_json.specs.Find.{as_number, as_integer};
ghost use Rattle.serde_json.specs.View.{view};
ghost use Rattle.coltypes.specs.Fits.{in_range};
ghost use Rattle.coltypes.specs.LogicalTypeOf.{extension_type, logical_type};
ghost use Rattle.coltypes.specs.declared.dtype.DType.TheVariants as dtypes;
ghost use Rattle.coltypes.specs.declared.scalar.ScalarValue.TheVariants as value;
ghost use Rattle.rowjson.specs.Scalars.{scalar_in, scalar_of};

use colbase::{DType, ExtDType, Nullability, PType, Scalar};
use serde_json::Value;

/// The null of the type, where the type is nullable.
fn null_of(dtype: DType) -> Option<Scalar>
    ensures { result ≡ scalar_of dtype None }
{
    if dtype.is_nullable() {
        Some(Scalar::null(dtype))
    } else {
        None
    }
}

fn truth_of(truth: bool, nullability: Nullability) -> Scalar
    ensures { Some result ≡ scalar_of (dtypes.Bool nullability) (Some (value.Bool truth)) }
{
    Scalar::bool(truth, nullability)
}

/// Whether the number is in the range of the type.
fn in_range(ptype: PType, number: i128) -> bool
    ensures { result ≡ in_range ptype number }
{
    match ptype {
        PType::I8 => i8::try_from(number).is_ok(),
        PType::I16 => i16::try_from(number).is_ok(),
        PType::I32 => i32::try_from(number).is_ok(),
        PType::I64 => i64::try_from(number).is_ok(),
        PType::U8 => u8::try_from(number).is_ok(),
        PType::U16 => u16::try_from(number).is_ok(),
        PType::U32 => u32::try_from(number).is_ok(),
        PType::U64 => u64::try_from(number).is_ok(),
    }
}

/// The scalar of a number, where it is in the range of the type.
fn number_of(number: i128, ptype: PType, nullability: Nullability) -> Option<Scalar>
    ensures { result ≡ scalar_of (dtypes.Primitive ptype nullability) (Some (value.Int number)) }
{
    if in_range(ptype, number) {
        Some(Scalar::int(number, ptype, nullability))
    } else {
        None
    }
}

fn integer_in(value: &Value) -> Option<i128>
    ensures { result ≡ option_and_then as_integer (as_number (view value.now)) }
{
    value.as_number()?.as_i128()
}

/// A scalar of the storage's value under a named type.
fn under_name(ext: ExtDType, storage: Scalar) -> Scalar
    requires { storage.dtype ≡ ext.storage }
    ensures dtype { result.dtype ≡ dtypes.Extension ext }
    ensures value { result.value ≡ storage.value }
{
    Scalar::extension(ext, storage)
}

/// The scalar of an extension type that the value states.
#[cycle(scalar)]
fn extension_scalar_in(ext: &ExtDType, value: &Value) -> Option<Scalar>
    ensures { result ≡ scalar_in (extension_type ext.now) (view value.now) }
{
    let storage = scalar_in(ext.storage.get(), value)?;
    Some(under_name(ext.share(), storage))
}

/// The scalar of this type that the value states.
#[cycle(scalar)]
#[tactic(auto, unfolding(crate::specs::Scalars::scalar_in))]
pub(super) fn scalar_in(dtype: &DType, value: &Value) -> Option<Scalar>
    ensures { result ≡ scalar_in (logical_type dtype.now) (view value.now) }
{
    if value.is_null() {
        return null_of(dtype.share());
    }
    match dtype {
        DType::Bool(nullability) => Some(truth_of(value.as_bool()?, *nullability)),
        DType::Primitive(ptype, nullability) => {
            number_of(integer_in(value)?, *ptype, *nullability)
        }
        DType::Extension(ext) => extension_scalar_in(ext, value),
        _ => None,
    }
}
