// What no clause says: texts of errors, the calls that fail, and one run of each generic function.
ghost use Rattle.std.specs.Prelude.{◌≡◌, ◌≤◌, ◌<◌, ◌-◌, None, IfOk, IfErr, length};

use rowtext::{
    Answer, Command, MAX_BYTES, MemorySink, MemorySource, NullSink, ReadFault, Reply, Sink,
    SinkFailed, Source, SourceFailed, StdSink, StdSource, SteadySource, Text, TopCall, conduct,
    read_whole, write_whole,
};
use std::alloc::{AllocError, Global};
use std::io;
use std::io::{ErrorKind, Read, Write};
use std::test::Fail;

#[test]
fn errors_have_their_texts(rt: HostRuntime) -> Result<(), Fail> {
    assert_eq!(rt;
        format!(in rt.alloc(); "{SourceFailed}")?.as_str(),
        "source failed"
    );
    assert_eq!(rt;
        format!(in rt.alloc(); "{SinkFailed}")?.as_str(),
        "sink failed"
    );
    Ok(())
}

/// A reader and a writer that is interrupted at its first call, passes on two bytes at its second and then fails.
#[derive(Drop)]
struct Unsteady {
    calls: u8,
    bytes: [u8; 2],
}

impl Unsteady {
    fn new() -> Unsteady {
        Unsteady {
            calls: 0,
            bytes: [7, 8],
        }
    }

    /// What a call answers that has room for so many bytes.
    fn call(&mut self, room: usize) -> io::Result<usize>
        ensures most { IfOk result (λ n. n ≤ 2) }
        ensures within { IfOk result (λ n. n ≤ room) }
    {
        self.calls = self.calls.saturating_add(1);
        match self.calls {
            1 => Err(io::Error::from(ErrorKind::Interrupted)),
            2 => Ok(room.min(2)),
            _ => Err(io::Error::from(ErrorKind::BrokenPipe)),
        }
    }
}

impl Read for Unsteady {
    fn read(&mut self, buf: &mut [u8]) -> io::Result<usize> {
        let count = self.call(buf.len())?;
        buf[..count].copy_from_slice(&self.bytes[..count]);
        Ok(count)
    }
}

impl Write for Unsteady {
    fn write(&mut self, buf: &[u8]) -> io::Result<usize> {
        let count = self.call(buf.len())?;
        self.bytes[..count].copy_from_slice(&buf[..count]);
        Ok(count)
    }

    fn flush(&mut self) -> io::Result<()> {
        Ok(())
    }
}

#[test]
fn standard_source_passes_on_bytes(rt: HostRuntime) {
    let mut buf = [0; 4];
    let mut source = StdSource::new(b"abcdef".as_slice());
    assert_eq!(rt; source.read(&mut buf).ok(), Some(4));
    assert_eq!(rt; buf, *b"abcd");
    assert_eq!(rt; source.read(&mut buf).ok(), Some(2));
    assert_eq!(rt; buf, *b"efcd");
    assert_eq!(rt; source.read(&mut buf).ok(), Some(0));
    let mut source = StdSource::new(Unsteady::new());
    assert_eq!(rt; source.read(&mut buf).ok(), Some(2));
    assert_eq!(rt; buf, [7, 8, b'c', b'd']);
    assert_eq!(rt; source.read(&mut buf).ok(), None);
}

#[test]
fn standard_sink_passes_on_bytes(rt: HostRuntime) -> Result<(), Fail> {
    let mut held = Vec::new(rt.alloc());
    let mut sink = StdSink::new(&mut held);
    assert_eq!(rt; sink.write(b"abc").ok(), Some(3));
    assert_eq!(rt; sink.write(b"").ok(), Some(0));
    assert_eq!(rt; sink.write(b"de").ok(), Some(2));
    assert_eq!(rt; held.as_slice(), b"abcde".as_slice());
    let mut writer = Unsteady::new();
    let mut sink = StdSink::new(&mut writer);
    assert_eq!(rt; sink.write(b"xyz").ok(), Some(2));
    assert_eq!(rt; sink.write(b"z").ok(), None);
    assert_eq!(rt; writer.bytes, *b"xy");
    let mut none = [0; 0];
    let mut full = StdSink::new(none.as_mut_slice());
    assert_eq!(rt; full.write(b"a").ok(), None);
    Ok(())
}

/// A source of zeros that tells nothing.
#[derive(Drop)]
pub(crate) struct Zeros {
    pub(crate) left: usize,
}

impl Source for Zeros {
    ghost left = { λ _. None };

    ghost faults = { λ _. 0 };

    fn read(&mut self, buf: &mut [u8]) -> Result<usize, SourceFailed> {
        let count = self.left.min(buf.len());
        self.left -= count;
        Ok(count)
    }
}

#[test]
fn reads_up_to_the_limit(rt: HostRuntime) {
    let mut source = Zeros { left: MAX_BYTES };
    assert_eq!(rt;
        read_whole(rt.alloc(), &mut source)
            .ok()
            .map(|bytes| bytes.len()),
        Some(67_108_864)
    );
    let mut source = Zeros {
        left: MAX_BYTES + 100_000,
    };
    assert!(rt; matches!(read_whole(rt.alloc(), &mut source), Err(ReadFault::Long)));
    assert_eq!(rt; source.left, 99_999);
}

#[test]
fn reads_in_pieces(rt: HostRuntime) -> Result<(), Fail> {
    let alloc = rt.alloc();
    for piece in 1..8 {
        let mut source = MemorySource::new(b"source".to_vec(alloc)?, piece, Vec::new(alloc));
        let bytes = read_whole(alloc, &mut source)?;
        assert_eq!(rt;
            bytes.as_slice(),
            b"source".as_slice(),
            "in pieces of {piece}"
        );
    }
    let mut source = SteadySource::new(b"steady".to_vec(alloc)?);
    assert_eq!(rt;
        read_whole(alloc, &mut source)?.as_slice(),
        b"steady".as_slice()
    );
    let mut source = MemorySource::new(b"source".to_vec(alloc)?, 2, [4].to_vec(alloc)?);
    assert!(rt; matches!(read_whole(alloc, &mut source), Err(ReadFault::Failed)));
    assert_eq!(rt; read_whole(alloc, &mut source)?.len(), 0);
    Ok(())
}

#[test]
fn writes_until_a_call_fails(rt: HostRuntime) -> Result<(), Fail> {
    let alloc = rt.alloc();
    for (fails, held) in [
        (1, b"".as_slice()),
        (2, b"ab".as_slice()),
        (3, b"abcd".as_slice()),
    ] {
        let mut sink = MemorySink::new(alloc, 9, 2, [fails].to_vec(alloc)?)?;
        assert!(rt; write_whole(&mut sink, b"abcde").is_err());
        assert_eq!(rt; sink.bytes(), held, "failing at {fails}");
    }
    let mut sink = MemorySink::new(alloc, 9, 2, [4].to_vec(alloc)?)?;
    assert!(rt; write_whole(&mut sink, b"abcde").is_ok());
    assert!(rt; write_whole(&mut sink, b"f").is_err());
    assert!(rt; write_whole(&mut sink, b"").is_ok());
    assert!(rt; write_whole(&mut sink, b"ghijk").is_err());
    assert_eq!(rt; sink.bytes(), b"abcdeghij".as_slice());
    assert!(rt; write_whole(&mut NullSink, b"abc").is_ok());
    Ok(())
}
