// The line of a fault. Each variant is named here, so that a renamed type changes no text.
ghost use Rattle.std.specs.Prelude.{◌≡◌, ◌++◌, IfOk, OnOk};
ghost use Rattle.std.specs.List.{flat_map};
ghost use Rattle.rowrun.specs.Faults.{fault_line, fault_text, number_text};

use colbase::Fault;
use std::alloc::{AllocError, Global};

/// Room for the longest name and three numbers.
const ROOM: usize = 96;

/// Appends a number behind a space.
fn push_number(out: &mut Vec<u8>, number: usize) -> Result<(), AllocError>
    ensures { OnOk result (out.new.items ≡ out.old.items ++ number_text number) }
{
    let mut digits = itoa::Buffer::new();
    out.push(b' ')?;
    out.extend_from_slice(digits.format(number).as_bytes())?;
    Ok(())
}

/// Appends each number behind a space.
fn push_numbers(out: &mut Vec<u8>, numbers: &[usize]) -> Result<(), AllocError>
    ensures { OnOk result (out.new.items ≡ out.old.items ++ flat_map number_text numbers.now) }
{
    for number in numbers {
        push_number(out, *number)?;
    }
    Ok(())
}

/// The line of a name and numbers.
fn line_of(alloc: Global, name: &str, numbers: &[usize]) -> Result<Vec<u8>, AllocError>
    ensures { IfOk result (λ v. v.items ≡ fault_line name.now numbers.now) }
{
    let mut out = Vec::with_capacity(alloc, ROOM)?;
    out.extend_from_slice(b"fault ")?;
    out.extend_from_slice(name.as_bytes())?;
    push_numbers(&mut out, numbers)?;
    out.push(b'\n')?;
    Ok(out)
}

/// The line of a fault: the name of its variant, and its numbers in the order of its fields.
///
/// `Layout`, `Plan` and `Memory`, which no call prints, have the name alone.
pub(crate) fn fault_text(alloc: Global, fault: Fault) -> Result<Vec<u8>, AllocError>
    ensures { IfOk result (λ v. v.items ≡ fault_text fault) }
{
    match fault {
        Fault::Arity { expected, actual } => line_of(alloc, "Arity", &[expected, actual]),
        Fault::InputLength {
            index,
            length,
            row_count,
        } => line_of(alloc, "InputLength", &[index, length, row_count]),
        Fault::Refused => line_of(alloc, "Refused", &[]),
        Fault::Dtype { index } => line_of(alloc, "Dtype", &[index]),
        Fault::OutputType => line_of(alloc, "OutputType", &[]),
        Fault::Decode { index } => line_of(alloc, "Decode", &[index]),
        Fault::Capacity { rows } => line_of(alloc, "Capacity", &[rows]),
        Fault::Row(error) => line_of(alloc, "Row", &[error.0 as usize]),
        Fault::Memory => line_of(alloc, "Memory", &[]),
        Fault::Layout(_) => line_of(alloc, "Layout", &[]),
        Fault::Cast { row } => line_of(alloc, "Cast", &[row]),
        Fault::NotList => line_of(alloc, "NotList", &[]),
        Fault::NullList => line_of(alloc, "NullList", &[]),
        Fault::NeedleType => line_of(alloc, "NeedleType", &[]),
        Fault::SetLength { bits, validity } => line_of(alloc, "SetLength", &[bits, validity]),
        Fault::Metadata => line_of(alloc, "Metadata", &[]),
        Fault::DayUnits => line_of(alloc, "DayUnits", &[]),
        Fault::PolicyType => line_of(alloc, "PolicyType", &[]),
        Fault::UnknownZone => line_of(alloc, "UnknownZone", &[]),
        Fault::BadPolicy { row } => line_of(alloc, "BadPolicy", &[row]),
        Fault::OutOfRange { row } => line_of(alloc, "OutOfRange", &[row]),
        Fault::Overflow { row } => line_of(alloc, "Overflow", &[row]),
        Fault::Gap { row } => line_of(alloc, "Gap", &[row]),
        Fault::Ambiguous { row } => line_of(alloc, "Ambiguous", &[row]),
        Fault::Plan(_) => line_of(alloc, "Plan", &[]),
        Fault::NotSerializable => line_of(alloc, "NotSerializable", &[]),
    }
}
