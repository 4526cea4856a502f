//! Reads a batch from standard input, and prints the column that it asks for to standard output.
#![tactic(auto)]

use rowrun::{CallEngine, StdSink, StdSource, run};
use std::alloc::Global;
use std::env::Env;
use std::io::ErrorKind;
use std::process::ExitCode;
use std::{env, io};

/// The status where memory runs out.
const NO_MEMORY: u8 = 4;

/// The words after the program's name.
fn words<R: Env + AllocGlobal>(rt: &R) -> io::Result<Vec<String>> {
    let mut words = Vec::new(rt.alloc());
    for word in env::args(rt)?.skip(1) {
        words.push(word)?;
    }
    Ok(words)
}

fn main(rt: HostRuntime) -> ExitCode {
    let words = match words(&rt) {
        Ok(words) => words,
        // A word that isn't UTF-8 is a wrong word, and so are none.
        Err(error) if error.kind() == ErrorKind::InvalidData => Vec::new(rt.alloc()),
        Err(_) => return ExitCode::from(NO_MEMORY),
    };
    let mut source = StdSource::new(rt.reader());
    let mut sink = StdSink::new(io::writer(&rt));
    let mut engine = CallEngine::new();
    ExitCode::from(run(rt.alloc(), &words, &mut engine, &mut source, &mut sink))
}
