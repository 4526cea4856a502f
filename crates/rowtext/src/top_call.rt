// One way for every top call: read, answer, write.
ghost use Rattle.std.specs.Prelude.{◌≡◌, ◌≤◌, ℕ, List, map, string_bytes, IfOk};
ghost use Rattle.rowtext.specs.Changes.{change};
ghost use Rattle.rowtext.specs.Causes.{HasCause, KeptWithoutInput};
ghost use Rattle.rowtext.specs.Outcomes.{Ends};

use crate::reply::write_reply;
use crate::{Answer, Command, ReadFault, Reply, Sink, Source, read_whole};
use std::alloc::{AllocError, Global};

/// A top call over an engine: what its words ask for, and what it answers.
///
/// A call that needs no engine takes `&mut ()`.
pub trait TopCall<E> {
    ghost use Rattle.rowtext.specs.declared.command.Command.{Command};
    ghost use Rattle.rowtext.specs.declared.reply.Answer.{Answer};

    /// What the words ask for.
    ghost command: { Self → List (List ℕ) → Command };

    /// With these words the bytes of an input lead to this answer, between the engine as it was and as it is after.
    ghost input_leads: { Self → E → E → List (List ℕ) → List ℕ → Answer → Type 0 };

    /// These words alone lead to this answer, between the engine as it was and as it is after.
    ghost words_lead: { Self → E → E → List (List ℕ) → Answer → Type 0 } = { λ _ _ _ _ _. ⊥ };

    /// What the words ask for.
    fn command(&self, words: &[String]) -> Command
        ensures { result ≡ command self.now (map string_bytes words.now) };

    /// The answer to all the bytes of an input.
    fn answer_input(
        &self,
        alloc: Global,
        words: &[String],
        engine: &mut E,
        bytes: &[u8],
    ) -> Result<Answer, AllocError>
        ensures { IfOk result (λ answer.
            input_leads self.now engine.old engine.new (map string_bytes words.now) bytes.now answer) };

    /// The answer to words that need no input; nothing is asked of it at other words, at which it isn't called. A call
    /// that knows no such words keeps this body.
    fn answer_words(
        &self,
        alloc: Global,
        words: &[String],
        engine: &mut E,
    ) -> Result<Answer, AllocError>
        ensures { command self.now (map string_bytes words.now) ≡ Command.WithoutInput → IfOk result (λ answer.
            words_lead self.now engine.old engine.new (map string_bytes words.now) answer) }
    {
        Err(AllocError)
    }
}

/// What a call means to write that answers to its input.
fn input_reply<E, C: TopCall<E>, S: Source>(
    alloc: Global,
    words: &[String],
    call: &C,
    engine: &mut E,
    source: &mut S,
) -> Result<Reply, AllocError>
    requires { C.command call.now (map string_bytes words.now) ≡ Command.WithInput }
    ensures cause { IfOk result (λ reply. HasCause (C.command call.now (map string_bytes words.now))
        (C.words_lead call.now engine.old engine.new (map string_bytes words.now))
        (C.input_leads call.now engine.old engine.new (map string_bytes words.now))
        (change S.left S.faults source.old source.new) reply) }
    ensures no_lower { S.faults source.old ≤ S.faults source.new }
{
    let bytes = match read_whole(alloc, source) {
        Ok(bytes) => bytes,
        Err(ReadFault::Failed) => return Ok(Reply::Unread),
        Err(ReadFault::Long) => return Ok(Reply::Long),
        Err(ReadFault::Memory) => return Err(AllocError),
    };
    let answer = call.answer_input(alloc, words, engine, &bytes)?;
    Ok(Reply::Answered(answer))
}

/// What a call means to write.
fn reply_of<E, C: TopCall<E>, S: Source>(
    alloc: Global,
    words: &[String],
    call: &C,
    engine: &mut E,
    source: &mut S,
) -> Result<Reply, AllocError>
    ensures cause { IfOk result (λ reply. HasCause (C.command call.now (map string_bytes words.now))
        (C.words_lead call.now engine.old engine.new (map string_bytes words.now))
        (C.input_leads call.now engine.old engine.new (map string_bytes words.now))
        (change S.left S.faults source.old source.new) reply) }
    ensures kept { KeptWithoutInput (C.command call.now (map string_bytes words.now)) source.old source.new }
    ensures no_lower { S.faults source.old ≤ S.faults source.new }
{
    match call.command(words) {
        Command::Unknown => Ok(Reply::Usage),
        Command::WithInput => input_reply(alloc, words, call, engine, source),
        Command::WithoutInput => {
            let answered = call.answer_words(alloc, words, engine)?;
            Ok(Reply::Answered(answered))
        }
    }
}

/// Reads, answers and writes. The result is the status with which the program ends.
///
/// The whole text stands before its first byte is written, and writing takes no memory.
pub fn conduct<E, C: TopCall<E>, S: Source, K: Sink>(
    alloc: Global,
    words: &[String],
    call: &C,
    engine: &mut E,
    source: &mut S,
    sink: &mut K,
) -> u8
    // Each status has its cause, and what was written goes with it.
    ensures ends { Ends (HasCause (C.command call.now (map string_bytes words.now))
        (C.words_lead call.now engine.old engine.new (map string_bytes words.now))
        (C.input_leads call.now engine.old engine.new (map string_bytes words.now))
        (change S.left S.faults source.old source.new))
        (KeptWithoutInput (C.command call.now (map string_bytes words.now)) source.old source.new)
        result (change K.held K.faults sink.old sink.new) }
    // Words that ask for no answer to an input leave the source as it was, also where memory runs out.
    ensures kept { KeptWithoutInput (C.command call.now (map string_bytes words.now)) source.old source.new }
    ensures source_faults { S.faults source.old ≤ S.faults source.new }
    ensures sink_faults { K.faults sink.old ≤ K.faults sink.new }
{
    match reply_of(alloc, words, call, engine, source) {
        Ok(reply) => write_reply(sink, &reply),
        Err(AllocError) => 4,
    }
}
