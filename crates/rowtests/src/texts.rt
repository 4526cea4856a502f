// The texts of the options of row functions, which no clause says.
use rowsample::TruncateOptions;
use std::test::Fail;

#[test]
fn options_have_their_text(rt: HostRuntime) -> Result<(), Fail> {
    let minutes = TruncateOptions { ticks: 60 };
    assert_eq!(rt; format!(in rt.alloc(); "{minutes}")?.as_str(), "ticks=60");
    Ok(())
}

#[test]
fn options_have_their_text_for_debugging(rt: HostRuntime) -> Result<(), Fail> {
    let back = TruncateOptions { ticks: -1 };
    let text = format!(in rt.alloc(); "{back:?}")?;
    assert_eq!(rt; text.as_str(), "TruncateOptions { ticks: -1 }");
    Ok(())
}
