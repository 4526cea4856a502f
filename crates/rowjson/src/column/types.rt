// The types of columns: a name, or an object that states an extension over a type.
ghost use Rattle.std.specs.Prelude.{◌≡◌, option_map, option_and_then, codes};
ghost use Rattle.coltypes.specs.LogicalTypeOf.{logical_type};
ghost use Rattle.serde_json.specs.Find.{get};
ghost use Rattle.serde_json.specs.View.{view};
ghost use Rattle.rowjson.specs.Reading.{Gives};
ghost use Rattle.rowjson.specs.Types.{plain_name, name_nullability, integer_named, marked_type, type_named, type_of, type_over, type_in, as_integer_type, as_bool_type};

use super::extension::extension_stated;
use crate::tree::Stop;
use colbase::{DType, ExecutionCtx, Nullability, PType};
use serde_json::Value;

/// A type's name without the `?` that makes it nullable.
#[tactic(auto, unfolding(crate::specs::Types::plain_name, crate::specs::Types::name_nullability))]
fn split_name(name: &str) -> (&str, Nullability)
    ensures plain { result.0.now ≡ plain_name name.now }
    ensures nullability { result.1 ≡ name_nullability name.now }
{
    match name.strip_suffix('?') {
        Some(plain) => (plain, Nullability::Nullable),
        None => (name, Nullability::NonNullable),
    }
}

#[tactic(auto, unfolding(crate::specs::Types::integer_named))]
fn integer_named(name: &str) -> Option<PType>
    ensures { result ≡ integer_named name.now }
{
    match name {
        "i8" => Some(PType::I8),
        "i16" => Some(PType::I16),
        "i32" => Some(PType::I32),
        "i64" => Some(PType::I64),
        "u8" => Some(PType::U8),
        "u16" => Some(PType::U16),
        "u32" => Some(PType::U32),
        "u64" => Some(PType::U64),
        _ => None,
    }
}

/// A type that is nullable or not, by its name without the mark.
#[tactic(auto, unfolding(crate::specs::Types::marked_type))]
fn marked_type(plain: &str, nullability: Nullability) -> Option<DType>
    ensures { option_map logical_type result ≡ marked_type plain.now nullability }
{
    if plain == "bool" {
        return Some(DType::Bool(nullability));
    }
    Some(DType::Primitive(integer_named(plain)?, nullability))
}

/// The type of a name.
#[tactic(auto, unfolding(crate::specs::Types::type_named))]
fn type_named(name: &str) -> Option<DType>
    ensures { option_map logical_type result ≡ type_named name.now }
{
    if name == "null" {
        return Some(DType::Null);
    }
    let (plain, nullability) = split_name(name);
    marked_type(plain, nullability)
}

/// The type that a value states.
#[cycle(types)]
pub(super) fn type_of(value: &Value, ctx: ExecutionCtx) -> Result<DType, Stop>
    ensures { Gives logical_type result (type_of (view value.now)) }
{
    type_by_form(value, ctx)
}

/// The same, where the type that the member `storage` states may be built.
#[cycle(types)]
#[tactic(auto, unfolding(crate::specs::Types::type_over))]
fn type_by_form(value: &Value, ctx: ExecutionCtx) -> Result<DType, Stop>
    ensures { Gives logical_type result (type_over (view value.now) (option_and_then type_of (get (codes "storage") (view value.now)))) }
{
    if let Some(name) = value.as_str() {
        return type_named(name).ok_or(Stop::NoBatch);
    }
    let storage = value.get("storage").ok_or(Stop::NoBatch)?;
    extension_stated(value, type_of(storage, ctx)?, ctx)
}

/// The type by the key `type`.
#[tactic(auto, unfolding(crate::specs::Types::type_in))]
pub(super) fn type_in(value: &Value, ctx: ExecutionCtx) -> Result<DType, Stop>
    ensures { Gives logical_type result (type_in (view value.now)) }
{
    type_of(value.get("type").ok_or(Stop::NoBatch)?, ctx)
}

/// An integer type, and whether it is nullable.
pub(super) fn as_integer_type(dtype: &DType) -> Option<(PType, Nullability)>
    ensures { result ≡ as_integer_type (logical_type dtype.now) }
{
    match dtype {
        DType::Primitive(ptype, nullability) => Some((*ptype, *nullability)),
        _ => None,
    }
}

/// Whether the type of truth values is nullable.
pub(super) fn as_bool_type(dtype: &DType) -> Option<Nullability>
    ensures { result ≡ as_bool_type (logical_type dtype.now) }
{
    match dtype {
        DType::Bool(nullability) => Some(*nullability),
        _ => None,
    }
}
