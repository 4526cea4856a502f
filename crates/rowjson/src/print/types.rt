// The text of a type, piece by piece as its definition joins it. A storage type is told by its nullability alone, since only numbers of
// 64 bits stand below an extension that is printed.
ghost use Rattle.std.specs.Prelude.{◌≡◌, [], ◌∷◌, ◌++◌, true, OnOk};
ghost use Rattle.std.specs.List.{flat_map};
ghost use Rattle.coltypes.specs.LogicalTypeOf.{extension_type, logical_type};
ghost use Rattle.coltypes.specs.LogicalType.{primitive};
ghost use Rattle.coltypes.specs.declared.dtype.PType.TheVariants.{I64};
ghost use Rattle.rowjson.specs.Text.{comma_joined, escaped, hex_byte, is_printed, line, nullability_text, quoted, type_text, unit_text, zone_text};

use colbase::{DType, ExtDType, Name, Nullability, TimeUnit};
use std::alloc::AllocError;

const HEX_DIGITS: &[u8] = b"0123456789abcdef";

/// Appends two lower-case hex digits.
fn push_hex(out: &mut Vec<u8>, byte: u8) -> Result<(), AllocError>
    ensures { OnOk result (out.new.items ≡ out.old.items ++ hex_byte byte) }
{
    out.push(HEX_DIGITS[(byte / 16) as usize])?;
    out.push(HEX_DIGITS[(byte % 16) as usize])?;
    Ok(())
}

/// Appends a byte of a quoted text.
fn push_escaped(out: &mut Vec<u8>, byte: u8) -> Result<(), AllocError>
    ensures { OnOk result (out.new.items ≡ out.old.items ++ escaped byte) }
{
    if byte == b'"' {
        return out.extend_from_slice(b"\\\"");
    }
    if byte == b'\\' {
        return out.extend_from_slice(b"\\\\");
    }
    if byte < 32 {
        out.extend_from_slice(b"\\u00")?;
        return push_hex(out, byte);
    }
    out.push(byte)?;
    Ok(())
}

/// Appends each byte of a quoted text.
fn push_each(out: &mut Vec<u8>, text: &[u8]) -> Result<(), AllocError>
    ensures { OnOk result (out.new.items ≡ out.old.items ++ flat_map escaped text.now) }
{
    for byte in text {
        push_escaped(out, *byte)?;
    }
    Ok(())
}

fn push_quoted(out: &mut Vec<u8>, text: &[u8]) -> Result<(), AllocError>
    ensures { OnOk result (out.new.items ≡ out.old.items ++ quoted text.now) }
{
    out.push(b'"')?;
    push_each(out, text)?;
    out.push(b'"')?;
    Ok(())
}

fn push_unit(out: &mut Vec<u8>, unit: Option<TimeUnit>) -> Result<(), AllocError>
    ensures { OnOk result (out.new.items ≡ out.old.items ++ unit_text unit) }
{
    match unit {
        None => out.extend_from_slice(b"none"),
        Some(TimeUnit::Nanoseconds) => out.extend_from_slice(b"ns"),
        Some(TimeUnit::Microseconds) => out.extend_from_slice(b"us"),
        Some(TimeUnit::Milliseconds) => out.extend_from_slice(b"ms"),
        Some(TimeUnit::Seconds) => out.extend_from_slice(b"s"),
        Some(TimeUnit::Days) => out.extend_from_slice(b"D"),
    }
}

fn push_zone(out: &mut Vec<u8>, zone: &Option<Name>) -> Result<(), AllocError>
    ensures { OnOk result (out.new.items ≡ out.old.items ++ zone_text zone.now) }
{
    match zone {
        None => out.extend_from_slice(b"none"),
        Some(name) => push_quoted(out, name.as_bytes()),
    }
}

/// Appends the text of an `i64` type.
fn push_number_type(out: &mut Vec<u8>, nullability: Nullability) -> Result<(), AllocError>
    ensures { OnOk result (out.new.items ≡ out.old.items ++ type_text (primitive I64 nullability)) }
{
    match nullability {
        Nullability::NonNullable => out.extend_from_slice(b"i64"),
        Nullability::Nullable => out.extend_from_slice(b"i64?"),
    }
}

/// Appends the text of the storage type.
fn push_storage(out: &mut Vec<u8>, ext: &ExtDType) -> Result<(), AllocError>
    requires { is_printed (extension_type ext.now) ≡ true }
    ensures { OnOk result (out.new.items ≡ out.old.items ++ type_text (logical_type ext.now.storage)) }
{
    push_number_type(out, ext.nullability())
}

/// Appends the zone and the storage type.
fn push_zone_and_rest(out: &mut Vec<u8>, ext: &ExtDType) -> Result<(), AllocError>
    requires { is_printed (extension_type ext.now) ≡ true }
    ensures { OnOk result (out.new.items ≡ out.old.items ++ comma_joined (zone_text ext.now.zone ∷ type_text (logical_type ext.now.storage) ∷ [])) }
{
    push_zone(out, &ext.zone)?;
    out.push(b',')?;
    push_storage(out, ext)
}

/// Appends the unit, the zone and the storage type.
fn push_unit_and_rest(out: &mut Vec<u8>, ext: &ExtDType) -> Result<(), AllocError>
    requires { is_printed (extension_type ext.now) ≡ true }
    ensures { OnOk result (out.new.items ≡ out.old.items ++ comma_joined (unit_text ext.now.unit ∷ zone_text ext.now.zone ∷ type_text (logical_type ext.now.storage) ∷ [])) }
{
    push_unit(out, ext.unit)?;
    out.push(b',')?;
    push_zone_and_rest(out, ext)
}

/// Appends the parts of an extension type.
fn push_parts(out: &mut Vec<u8>, ext: &ExtDType) -> Result<(), AllocError>
    requires { is_printed (extension_type ext.now) ≡ true }
    ensures { OnOk result (out.new.items ≡ out.old.items ++ comma_joined (quoted ext.now.name ∷ unit_text ext.now.unit ∷ zone_text ext.now.zone ∷ type_text (logical_type ext.now.storage) ∷ [])) }
{
    push_quoted(out, ext.name.as_bytes())?;
    out.push(b',')?;
    push_unit_and_rest(out, ext)
}

/// Appends the text of an extension type.
fn push_extension_type(out: &mut Vec<u8>, ext: &ExtDType) -> Result<(), AllocError>
    requires { is_printed (extension_type ext.now) ≡ true }
    ensures { OnOk result (out.new.items ≡ out.old.items ++ type_text (extension_type ext.now)) }
{
    out.extend_from_slice(b"ext(")?;
    push_parts(out, ext)?;
    out.push(b')')?;
    Ok(())
}

/// Appends the text of the type of a column that is printed.
fn push_type(out: &mut Vec<u8>, dtype: &DType) -> Result<(), AllocError>
    requires { is_printed (logical_type dtype.now) ≡ true }
    ensures { OnOk result (out.new.items ≡ out.old.items ++ type_text (logical_type dtype.now)) }
{
    match dtype {
        DType::Extension(ext) => push_extension_type(out, ext),
        _ => push_number_type(out, dtype.nullability()),
    }
}

/// Appends the line of the type of a column that is printed.
pub(super) fn push_type_line(out: &mut Vec<u8>, dtype: &DType) -> Result<(), AllocError>
    requires { is_printed (logical_type dtype.now) ≡ true }
    ensures { OnOk result (out.new.items ≡ out.old.items ++ line (type_text (logical_type dtype.now))) }
{
    push_type(out, dtype)?;
    out.push(b'\n')?;
    Ok(())
}
