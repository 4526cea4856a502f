// One small top call through every status.
ghost use Rattle.std.specs.Prelude.{◌≡◌, ◌==◌, if◌then◌else◌, ℕ, length, codes};
ghost use Rattle.rowtext.specs.declared.command.Command.TheVariants.{Unknown, WithInput, WithoutInput};
ghost use Rattle.rowtext.specs.declared.reply.Answer.TheVariants.{Form, Printed};

use crate::tests::Zeros;
use rowtext::{
    Answer, Command, MAX_BYTES, MemorySink, MemorySource, NullSink, ReadFault, Reply, Sink,
    SinkFailed, Source, SourceFailed, StdSink, StdSource, SteadySource, Text, TopCall, conduct,
    read_whole, write_whole,
};
use std::alloc::{AllocError, Global};
use std::test::Fail;

/// Gives its input back. It needs one word; two words are greeted without input. Its engine counts the answers.
#[derive(Drop)]
struct Echo;

impl TopCall<u64> for Echo {
    ghost command = { λ _ words. if length words == 0 then Unknown else
        if length words == 1 then WithInput else WithoutInput };

    ghost input_leads = { λ _ _ _ _ bytes answer. length bytes ≡ 0 → answer ≡ Form };

    ghost words_lead = { λ _ _ _ _ answer. answer ≡ Printed (codes "hello\n") };

    fn command(&self, words: &[String]) -> Command {
        match words.len() {
            0 => Command::Unknown,
            1 => Command::WithInput,
            _ => Command::WithoutInput,
        }
    }

    fn answer_input(
        &self,
        alloc: Global,
        words: &[String],
        engine: &mut u64,
        bytes: &[u8],
    ) -> Result<Answer, AllocError> {
        *engine = engine.saturating_add(1);
        match bytes.first() {
            None => Ok(Answer::Form),
            Some(b'u') => Ok(Answer::Unbuilt),
            Some(b'f') => Ok(Answer::Fault(Text::new(b"fault\n".to_vec(alloc)?))),
            Some(b'm') => Err(AllocError),
            Some(_) => Ok(Answer::Printed(Text::new(bytes.to_vec(alloc)?))),
        }
    }

    fn answer_words(
        &self,
        alloc: Global,
        words: &[String],
        engine: &mut u64,
    ) -> Result<Answer, AllocError> {
        *engine = engine.saturating_add(1);
        Ok(Answer::Printed(Text::new(b"hello\n".to_vec(alloc)?)))
    }
}

fn words(alloc: Global, count: usize) -> Result<Vec<String>, Fail> {
    let mut words = Vec::new(alloc);
    for _ in 0..count {
        words.push(String::from_str(alloc, "word")?)?;
    }
    Ok(words)
}

#[test]
fn each_status_has_its_text(rt: HostRuntime) -> Result<(), Fail> {
    let alloc = rt.alloc();
    let mut engine = 0;
    // words, input, call at which the source fails, call at which the sink fails, status, what the sink holds
    for (count, input, source_fails, sink_fails, status, held) in [
        (0, b"abc".as_slice(), 0, 0, 1, b"usage\n".as_slice()),
        (1, b"abc".as_slice(), 0, 0, 0, b"abc".as_slice()),
        (1, b"".as_slice(), 0, 0, 2, b"form\n".as_slice()),
        (1, b"fx".as_slice(), 0, 0, 3, b"fault\n".as_slice()),
        (1, b"mx".as_slice(), 0, 0, 4, b"".as_slice()),
        (1, b"abc".as_slice(), 2, 0, 5, b"read\n".as_slice()),
        (1, b"abc".as_slice(), 0, 2, 6, b"ab".as_slice()),
        (1, b"abc".as_slice(), 1, 3, 6, b"read".as_slice()),
        (0, b"abc".as_slice(), 0, 1, 6, b"".as_slice()),
        (1, b"ux".as_slice(), 0, 0, 8, b"unbuilt\n".as_slice()),
        (2, b"abc".as_slice(), 1, 0, 0, b"hello\n".as_slice()),
        (2, b"abc".as_slice(), 0, 2, 6, b"he".as_slice()),
    ] {
        let words = words(alloc, count)?;
        let mut source = MemorySource::new(input.to_vec(alloc)?, 2, [source_fails].to_vec(alloc)?);
        let mut sink = MemorySink::new(alloc, 9, 2, [sink_fails].to_vec(alloc)?)?;
        let ended = conduct(alloc, &words, &Echo, &mut engine, &mut source, &mut sink);
        assert_eq!(rt; ended, status, "{count} words and {input:?}");
        assert_eq!(rt; sink.bytes(), held, "{count} words and {input:?}");
    }
    assert_eq!(rt; engine, 8);
    Ok(())
}

#[test]
fn an_input_may_not_be_too_long(rt: HostRuntime) -> Result<(), Fail> {
    let alloc = rt.alloc();
    let words = words(alloc, 1)?;
    for (left, status) in [(MAX_BYTES, 0), (MAX_BYTES + 1, 7)] {
        let mut source = Zeros { left };
        let ended = conduct(alloc, &words, &Echo, &mut 0, &mut source, &mut NullSink);
        assert_eq!(rt; ended, status);
        assert_eq!(rt; source.left, 0);
    }
    let mut sink = MemorySink::new(alloc, 9, 9, Vec::new(alloc))?;
    let mut source = Zeros {
        left: MAX_BYTES + 9,
    };
    assert_eq!(rt;
        conduct(alloc, &words, &Echo, &mut 0, &mut source, &mut sink),
        7
    );
    assert_eq!(rt; sink.bytes(), b"long\n".as_slice());
    Ok(())
}
