// The names of the functions, and the text of options: no clause says them.
use rowplan::RowFn;
use rowrun::{CheckedAdd, Rescale, Truncate, TruncateOptions, WrappingAdd};
use std::test::Fail;

#[test]
fn functions_have_their_names(rt: HostRuntime) {
    assert_eq!(rt; WrappingAdd.id(), "wrapping_add");
    assert_eq!(rt; CheckedAdd.id(), "checked_add");
    assert_eq!(rt; Rescale.id(), "rescale");
    assert_eq!(rt; Truncate.id(), "truncate");
}

#[test]
fn options_have_a_text(rt: HostRuntime) -> Result<(), Fail> {
    let text = format!(in rt.alloc(); "{}", TruncateOptions { ticks: -7 })?;
    assert_eq!(rt; text.as_str(), "ticks=-7");
    Ok(())
}
