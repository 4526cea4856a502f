// The sources and sinks of the system, of whose bytes nothing is told.
ghost use Rattle.std.specs.Prelude.{◌≡◌, ◌≤◌, ◌<◌, None, IfSome, length};

use crate::{Sink, SinkFailed, Source, SourceFailed};
use std::io::{ErrorKind, Read, Write};

/// A source over a reader of the system, as standard input. It tells nothing of the bytes to come.
#[derive(Drop)]
pub struct StdSource<R> {
    reader: R,
    faults: u64,
}

/// One read that was not interrupted, or none where it failed.
fn read_once<R: Read>(reader: &mut R, buf: &mut [u8]) -> Option<usize>
    ensures { IfSome result (λ n. n ≤ length buf.new) }
{
    for _ in 0..u64::MAX {
        match reader.read(buf) {
            Ok(count) => return Some(count),
            Err(error) if error.kind() == ErrorKind::Interrupted => {}
            Err(_) => return None,
        }
    }
    None
}

impl<R: Read> StdSource<R> {
    /// A source of what the reader gives. An interrupted read is no failure: it is made again.
    pub fn new(reader: R) -> StdSource<R>
        ensures left { ⟦<StdSource<R> as Source>⟧.left result ≡ None }
        ensures faults { ⟦<StdSource<R> as Source>⟧.faults result ≡ 0 }
    {
        StdSource { reader, faults: 0 }
    }
}

impl<R: Read> Source for StdSource<R> {
    ghost left = { λ _. None };

    ghost faults = { λ s. s.faults };

    fn read(&mut self, buf: &mut [u8]) -> Result<usize, SourceFailed> {
        let faults = self.faults;
        match read_once(&mut self.reader, buf) {
            Some(count) => Ok(count),
            None => {
                self.faults = faults.saturating_add(1);
                Err(SourceFailed)
            }
        }
    }
}

/// A sink over a writer of the system, as standard output. It tells nothing of what it holds.
#[derive(Drop)]
pub struct StdSink<W> {
    writer: W,
    faults: u64,
}

/// One write that was not interrupted, or none where it failed or took nothing of some bytes.
fn write_once<W: Write>(writer: &mut W, bytes: &[u8]) -> Option<usize>
    ensures count { IfSome result (λ n. n ≤ length bytes.now) }
    ensures some { IfSome result (λ n. 0 < length bytes.now → 0 < n) }
{
    for _ in 0..u64::MAX {
        match writer.write(bytes) {
            Ok(0) if !bytes.is_empty() => return None,
            Ok(count) => return Some(count),
            Err(error) if error.kind() == ErrorKind::Interrupted => {}
            Err(_) => return None,
        }
    }
    None
}

impl<W: Write> StdSink<W> {
    /// A sink that hands its bytes to the writer. An interrupted write is no failure: it is made again.
    pub fn new(writer: W) -> StdSink<W>
        ensures held { ⟦<StdSink<W> as Sink>⟧.held result ≡ None }
        ensures faults { ⟦<StdSink<W> as Sink>⟧.faults result ≡ 0 }
    {
        StdSink { writer, faults: 0 }
    }
}

impl<W: Write> Sink for StdSink<W> {
    ghost held = { λ _. None };

    ghost faults = { λ s. s.faults };

    fn write(&mut self, bytes: &[u8]) -> Result<usize, SinkFailed> {
        let faults = self.faults;
        match write_once(&mut self.writer, bytes) {
            Some(count) => Ok(count),
            None => {
                self.faults = faults.saturating_add(1);
                Err(SinkFailed)
            }
        }
    }
}
