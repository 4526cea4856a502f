// A call over sources and sinks in memory, and what it does with pieces, with the engine and with the shortest implementations.
ghost use Rattle.std.specs.Prelude.{◌<◌};

use rowrun::{CallEngine, MemorySink, MemorySource, NullSink, SteadySource, run};
use std::alloc::Global;
use std::test::Fail;

/// Three rows with a null.
pub(crate) const THREE: &str =
    "{\"call\":\"wrapping_add\",\"options\":{},\"rows\":3,\"columns\":[{\"layout\":\"primitive\",\"type\":\"i64?\",\"values\":[1,null,3]},{\"layout\":\"primitive\",\"type\":\"i64\",\"values\":[10,20,30]}]}";

/// Their sums.
pub(crate) const THREE_SUMS: &str = "i64?\n11\nnull\n33\n";

/// How the source and the sink of a call behave: how many bytes they give and take at once, and the call of each that fails; 0 for none.
#[derive(Drop)]
pub(crate) struct Outside {
    pub(crate) source_piece: usize,
    pub(crate) source_fails: u64,
    pub(crate) sink_piece: usize,
    pub(crate) sink_fails: u64,
    ghost source_gives: { 0 < source_piece },
    ghost sink_takes: { 0 < sink_piece },
}

fn given(alloc: Global, words: &[&str]) -> Result<Vec<String>, Fail> {
    let mut given = Vec::new(alloc);
    for word in words {
        given.push(String::from_str(alloc, word)?)?;
    }
    Ok(given)
}

fn one(alloc: Global, call: u64) -> Result<Vec<u64>, Fail> {
    let mut calls = Vec::new(alloc);
    calls.push(call)?;
    Ok(calls)
}

/// Whether a call with these words over this input ends with the status, and its sink holds the text then.
pub(crate) fn ends_with(
    alloc: Global,
    words: &[&str],
    input: &str,
    outside: &Outside,
    status: u8,
    text: &str,
) -> Result<bool, Fail> {
    let words = given(alloc, words)?;
    let bytes = input.as_bytes().to_vec(alloc)?;
    let mut source = MemorySource::new(
        bytes,
        outside.source_piece,
        one(alloc, outside.source_fails)?,
    );
    let mut sink = MemorySink::new(
        alloc,
        99,
        outside.sink_piece,
        one(alloc, outside.sink_fails)?,
    )?;
    let ended = run(
        alloc,
        &words,
        &mut CallEngine::new(),
        &mut source,
        &mut sink,
    );
    Ok(ended == status && sink.bytes() == text.as_bytes())
}

#[test]
fn pieces_of_one_byte_make_no_difference(rt: HostRuntime) -> Result<(), Fail> {
    let outside = Outside {
        source_piece: 1,
        source_fails: 0,
        sink_piece: 1,
        sink_fails: 0,
    };
    assert!(rt; ends_with(rt.alloc(), &["run"], THREE, &outside, 0, THREE_SUMS)?);
    Ok(())
}

/// The status of a call over this input, by this engine.
fn status_by(
    alloc: Global,
    engine: &mut CallEngine,
    words: &[&str],
    input: &str,
) -> Result<u8, Fail> {
    let words = given(alloc, words)?;
    let mut source = SteadySource::new(input.as_bytes().to_vec(alloc)?);
    Ok(run(alloc, &words, engine, &mut source, &mut NullSink))
}

#[test]
fn a_batch_is_one_call(rt: HostRuntime) -> Result<(), Fail> {
    let mut engine = CallEngine::new();
    for (input, status, calls) in [(THREE, 0, 1), ("{}", 8, 1), ("", 2, 1), (THREE, 0, 2)] {
        assert_eq!(rt;
            status_by(rt.alloc(), &mut engine, &["run"], input)?,
            status
        );
        assert_eq!(rt; engine.calls(), calls);
    }
    Ok(())
}

#[test]
fn the_most_rows_are_one_call(rt: HostRuntime) -> Result<(), Fail> {
    let mut engine = CallEngine::new();
    assert_eq!(rt;
        status_by(rt.alloc(), &mut engine, &["gen", "1000000"], "")?,
        0
    );
    assert_eq!(rt; engine.calls(), 1);
    Ok(())
}
