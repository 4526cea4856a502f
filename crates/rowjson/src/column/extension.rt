// Extension types, and columns of the extension layout. Both state a name, a unit and a zone over a storage, by keys that differ in the name alone.
ghost use Rattle.std.specs.Prelude.{◌≡◌, Some, IfOk, option_map};
ghost use Rattle.serde_json.specs.View.{view};
ghost use Rattle.colbase.specs.Arrays.{extension, dtype};
ghost use Rattle.coltypes.specs.LogicalTypeOf.{logical_type, extension_type};
ghost use Rattle.rowjson.specs.Columns.{extension_in};
ghost use Rattle.rowjson.specs.Reading.{Gives};
ghost use Rattle.rowjson.specs.Types.{unit_named, unit_in, zone_in, extension_over, extension_stated};

use crate::tree::{Stop, has_keys, text_in};
use colbase::{ArrayRef, DType, ExecutionCtx, ExtDType, ExtensionArray, TimeUnit};
use serde_json::Value;

#[tactic(auto, unfolding(crate::specs::Types::unit_named))]
fn unit_named(name: &str) -> Option<TimeUnit>
    ensures { result ≡ unit_named name.now }
{
    match name {
        "ns" => Some(TimeUnit::Nanoseconds),
        "us" => Some(TimeUnit::Microseconds),
        "ms" => Some(TimeUnit::Milliseconds),
        "s" => Some(TimeUnit::Seconds),
        "D" => Some(TimeUnit::Days),
        _ => None,
    }
}

/// The unit by the key `unit`: a name, or null for none.
#[tactic(auto, unfolding(crate::specs::Types::unit_in))]
fn unit_in(value: &Value) -> Option<Option<TimeUnit>>
    ensures { result ≡ unit_in (view value.now) }
{
    let unit = value.get("unit")?;
    if unit.is_null() {
        return Some(None);
    }
    Some(Some(unit_named(unit.as_str()?)?))
}

/// The zone by the key `zone`: a text, or null for none.
#[tactic(auto, unfolding(crate::specs::Types::zone_in))]
fn zone_in(value: &Value) -> Option<Option<&str>>
    ensures { option_map (λ zone. option_map (λ text. text.now) zone) result ≡ zone_in (view value.now) }
{
    let zone = value.get("zone")?;
    if zone.is_null() {
        return Some(None);
    }
    Some(Some(zone.as_str()?))
}

/// The extension over a storage type that an object states, its name by this key.
#[tactic(auto, unfolding(crate::specs::Types::extension_over))]
fn extension_over(
    value: &Value,
    key: &str,
    storage: DType,
    ctx: ExecutionCtx,
) -> Result<ExtDType, Stop>
    ensures stated { Gives extension_type result (extension_over key.now (view value.now) (logical_type storage)) }
    ensures storage { IfOk result (λ e. logical_type e.storage ≡ logical_type storage) }
{
    let name = text_in(value, key).ok_or(Stop::NoBatch)?;
    let unit = unit_in(value).ok_or(Stop::NoBatch)?;
    let zone = zone_in(value).ok_or(Stop::NoBatch)?;
    Ok(ExtDType::try_new(name, unit, zone, storage, ctx)?)
}

/// The extension over a storage type that an object states as a type.
pub(super) fn extension_stated(
    value: &Value,
    storage: DType,
    ctx: ExecutionCtx,
) -> Result<DType, Stop>
    ensures { Gives logical_type result (extension_stated (view value.now) (logical_type storage)) }
{
    if !has_keys(value, 4) {
        return Err(Stop::NoBatch);
    }
    Ok(DType::Extension(extension_over(value, "ext", storage, ctx)?))
}

fn extension_of(ext: ExtDType, storage: ArrayRef, ctx: ExecutionCtx) -> Result<ArrayRef, Stop>
    requires { logical_type ext.storage ≡ dtype storage }
    ensures { Gives (λ a. a) result (Some (extension ext storage)) }
{
    Ok(ExtensionArray::try_new(ext, storage, ctx)?)
}

/// A column of the extension layout over this storage.
#[tactic(auto, unfolding(crate::specs::Columns::extension_in))]
pub(super) fn extension_in(
    value: &Value,
    storage: ArrayRef,
    ctx: ExecutionCtx,
) -> Result<ArrayRef, Stop>
    ensures { Gives (λ a. a) result (extension_in (view value.now) storage) }
{
    let ext = extension_over(value, "name", storage.dtype().share(), ctx)?;
    if !has_keys(value, 5) {
        return Err(Stop::NoBatch);
    }
    extension_of(ext, storage, ctx)
}
