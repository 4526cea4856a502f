// The texts of the plain types for debugging, which no clause says: one of an enum and one of a struct without fields, and one
// of each type with fields.
use colbase::{BinaryView, EmptyOptions, Fault, LayoutFault, PType, RowError, RowFault};
use std::alloc::Global;
use std::fmt::Debug;
use std::test::Fail;

// Whether the value has this text.
fn reads<T: Debug>(value: &T, text: &str, alloc: Global) -> Result<bool, Fail> {
    Ok(format!(in alloc; "{value:?}")?.as_str() == text)
}

#[test]
fn a_type_of_numbers(rt: HostRuntime) -> Result<(), Fail> {
    assert!(rt; reads(&PType::I64, "I64", rt.alloc())?);
    Ok(())
}

#[test]
fn no_options(rt: HostRuntime) -> Result<(), Fail> {
    assert!(rt; reads(&EmptyOptions, "EmptyOptions", rt.alloc())?);
    Ok(())
}

#[test]
fn an_error_of_a_row(rt: HostRuntime) -> Result<(), Fail> {
    let fault = RowFault::Error(RowError(7));
    assert!(rt; reads(&fault, "Error(RowError(7))", rt.alloc())?);
    Ok(())
}

#[test]
fn a_fault(rt: HostRuntime) -> Result<(), Fail> {
    let fault = Fault::InputLength {
        index: 1,
        length: 2,
        row_count: 3,
    };
    let text = "InputLength { index: 1, length: 2, row_count: 3 }";
    assert!(rt; reads(&fault, text, rt.alloc())?);
    Ok(())
}

#[test]
fn a_fault_of_a_layout(rt: HostRuntime) -> Result<(), Fail> {
    let fault = LayoutFault::OffsetsPass { last: 5, limit: 4 };
    let text = "OffsetsPass { last: 5, limit: 4 }";
    assert!(rt; reads(&fault, text, rt.alloc())?);
    Ok(())
}

#[test]
fn a_view(rt: HostRuntime) -> Result<(), Fail> {
    let view = BinaryView::Inline {
        len: 2,
        bytes: [104, 105, 0, 0, 0, 0, 0, 0, 0, 0, 0, 0],
    };
    let text = "Inline { len: 2, bytes: [104, 105, 0, 0, 0, 0, 0, 0, 0, 0, 0, 0] }";
    assert!(rt; reads(&view, text, rt.alloc())?);
    Ok(())
}
