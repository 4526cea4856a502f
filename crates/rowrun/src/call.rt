// The call from bytes to bytes. How it reads and writes is the crate rowtext's; this file states what words and bytes lead to.
ghost use Rattle.std.specs.Prelude.{◌≡◌, ◌≤◌, ◌⊎◌, ℕ, List, true, false, map, Some, ⊤, IfOk, IfErr, string_bytes};
ghost use Rattle.colbase.specs.Arrays.{column, dtype};
ghost use Rattle.colbase.specs.Column.{Column};
ghost use Rattle.coltypes.specs.declared.fault.Fault as refusals;
ghost use Rattle.coltypes.specs.declared.fault.Fault.TheVariants.{Memory};
ghost use Rattle.rowexec.specs.Calls.{Raised};
ghost use Rattle.rowtext.specs.declared.reply.Reply.{Reply};
ghost use Rattle.rowtext.specs.declared.reply.Reply.TheVariants.{Usage, Unread, Long, Answered};
ghost use Rattle.rowtext.specs.declared.reply.Answer.TheVariants.{Form, Unbuilt};
ghost use Rattle.rowtext.specs.Bytes.{IsProperPrefix};
ghost use Rattle.rowtext.specs.Replies.{reply_text};
ghost use Rattle.rowtext.specs.Changes.{change, HasFailed, IsSteady, IsUntouched, Gained, TookAll, TookTooMany};
ghost use Rattle.rowtext.specs.Causes.{KeptWithoutInput};
ghost use Rattle.rowtext.specs.Outcomes.{Did, Ends, IsAnswer, InputLeads, WroteWhole};
ghost use Rattle.rowrun.specs.Batch.{Batch as StatedBatch, batch_of};
ghost use Rattle.rowrun.specs.BatchView.{batch_view};
ghost use Rattle.rowrun.specs.Faults.{fault_text};
ghost use Rattle.rowrun.specs.Results.{CauseOf, HasFault, IsResult};
ghost use Rattle.rowjson.specs.Text.{is_printed};
ghost use Rattle.rowjson.specs.Text.{text};
ghost use Rattle.rowrun.specs.Generator.{summary};
ghost use Rattle.rowrun.specs.Words.{command_of, is_run, CauseOfReply, Generates, IsGen, Leads};

use crate::batch::{Batch, Call};
use crate::fault::fault_text;
use crate::generator::summary_of;
use crate::input::{InputStop, read_batch};
use crate::words::{is_run, rows_asked};
use colbase::{ArrayRef, EmptyOptions, ExecutionCtx, Fault, Res};
use rowexec::RowEngine;
use rowjson::text_of;
use rowsample::{CheckedAdd, Rescale, Truncate, WrappingAdd};
use rowtext::{Answer, Command, Sink, Source, Text, TopCall, conduct};
use std::alloc::{AllocError, Global};

/// The column that the batch asks for, as the engine answers it.
pub(crate) fn execute<E: RowEngine>(
    engine: &mut E,
    batch: &Batch,
    ctx: ExecutionCtx,
) -> Res<ArrayRef>
    ensures called { Raised (E.calls engine.old) (E.calls engine.new) }
    ensures column { IfOk result (λ array. IsResult (batch_view batch.now) (column array)) }
    ensures printed { IfOk result (λ array. is_printed (dtype array) ≡ true) }
    ensures cause { IfErr result (CauseOf batch.now.call batch.now.args.row_count batch.now.args.columns) }
{
    match batch.call {
        Call::WrappingAdd => engine.execute(&WrappingAdd, &EmptyOptions, &batch.args, ctx),
        Call::CheckedAdd => engine.execute(&CheckedAdd, &EmptyOptions, &batch.args, ctx),
        Call::Rescale => engine.execute(&Rescale, &EmptyOptions, &batch.args, ctx),
        Call::Truncate(options) => engine.execute(&Truncate, &options, &batch.args, ctx),
    }
}

/// The error of a call that has no other fault than want of memory.
fn out_of_memory(fault: Fault) -> AllocError
    requires { fault ≡ Memory }
{
    AllocError
}

/// What all the bytes of an input lead to.
fn answer_to<E: RowEngine>(
    engine: &mut E,
    bytes: &[u8],
    ctx: ExecutionCtx,
) -> Result<Answer, AllocError>
    ensures { IfOk result (λ answer. Leads (Raised (E.calls engine.old) (E.calls engine.new)) bytes.now answer) }
{
    let batch = match read_batch(bytes, ctx) {
        Ok(batch) => batch,
        Err(InputStop::Memory) => return Err(AllocError),
        Err(InputStop::Form) => return Ok(Answer::Form),
        Err(InputStop::Unbuilt) => return Ok(Answer::Unbuilt),
    };
    match execute(engine, &batch, ctx) {
        Ok(column) => match text_of(&column, ctx) {
            Ok(text) => Ok(Answer::Printed(Text::new(text))),
            Err(fault) => Err(out_of_memory(fault)),
        },
        Err(Fault::Memory) => Err(AllocError),
        Err(fault) => Ok(Answer::Fault(Text::new(fault_text(ctx.alloc(), fault)?))),
    }
}

/// The call that knows the word `run`, and the words that ask for generated rows.
#[derive(Drop)]
struct Rows;

impl<E: RowEngine> TopCall<E> for Rows {
    ghost use Rattle.rowexec.specs.Calls.{Raised};
    ghost use Rattle.rowrun.specs.Words.{command_of, Leads, WordsLead};

    ghost command = { λ _ words. command_of words };

    ghost input_leads = { λ _ old new _ bytes answer. Leads (Raised (E.calls old) (E.calls new)) bytes answer };

    ghost words_lead = { λ _ old new words answer. WordsLead (Raised (E.calls old) (E.calls new)) words answer };

    fn command(&self, words: &[String]) -> Command {
        match rows_asked(words) {
            Some(_) => Command::WithoutInput,
            None if is_run(words) => Command::WithInput,
            None => Command::Unknown,
        }
    }

    fn answer_input(
        &self,
        alloc: Global,
        words: &[String],
        engine: &mut E,
        bytes: &[u8],
    ) -> Result<Answer, AllocError> {
        answer_to(engine, bytes, ExecutionCtx::new(alloc))
    }

    fn answer_words(
        &self,
        alloc: Global,
        words: &[String],
        engine: &mut E,
    ) -> Result<Answer, AllocError> {
        match rows_asked(words) {
            Some(rows) => match summary_of(engine, rows, ExecutionCtx::new(alloc)) {
                Ok(summary) => Ok(Answer::Printed(Text::new(summary))),
                Err(fault) => Err(out_of_memory(fault)),
            },
            // It isn't called with other words.
            None => Err(AllocError),
        }
    }
}

/// Answers the words, or all of the source, and writes the answer to the sink. The result is the status of the program.
///
/// The words are those after the program's name. With the one word `run` the input is one JSON value that states a
/// batch, whose call the engine executes. With the words `gen` and N, a decimal number from 0 to 1,000,000 without sign
/// and without leading zero, nothing is read: N rows of two columns are generated, and the engine adds them with `checked_add`.
/// The whole text stands before its first byte is written, and writing takes no memory.
///
/// | Status | Written | When |
/// |---|---|---|
/// | 0 | the text of the result, or the summary | the input states a batch, and the engine answered a column; or the words are `gen` N |
/// | 1 | `usage` | the words are neither `run` nor `gen` N |
/// | 2 | `form` | the input is no JSON value |
/// | 3 | `fault`, the fault's name and its numbers | the input states a batch, and the engine answered a fault |
/// | 4 | nothing | want of memory |
/// | 5 | `read` | the source failed |
/// | 6 | a proper prefix of the text | the sink failed |
/// | 7 | `long` | the input has more than 67,108,864 bytes |
/// | 8 | `unbuilt` | the input is a JSON value that states no batch of the forms that are built |
pub fn run<E: RowEngine, S: Source, K: Sink>(
    alloc: Global,
    words: &[String],
    engine: &mut E,
    source: &mut S,
    sink: &mut K,
) -> u8
    // Each status has its cause, and what was written goes with it.
    ensures ends { Ends (CauseOfReply (Raised (E.calls engine.old) (E.calls engine.new)) words.now
        (change S.left S.faults source.old source.new))
        (KeptWithoutInput (command_of (map string_bytes words.now)) source.old source.new)
        result (change K.held K.faults sink.old sink.new) }

    // Statuses 0 and 3: the engine was called.
    ensures called { (result ≡ 0) ⊎ (result ≡ 3) → Raised (E.calls engine.old) (E.calls engine.new) }

    // Status 0: the word is `run`, all was read, the bytes state a batch, and exactly the text of its result was written; or the words are `gen`
    // and N, the source is as it was, and exactly the summary of N rows was written.
    ensures done { result ≡ 0 → ((is_run (map string_bytes words.now) ≡ true) × TookAll (change S.left S.faults source.old source.new)
        (λ bytes. (b : StatedBatch) × (batch_of bytes ≡ Some b) × (c : Column) × IsResult b c × Gained
        (change K.held K.faults sink.old sink.new) (text c)))
        ⊎ ((n : ℕ) × IsGen (map string_bytes words.now) n × IsUntouched (change S.left S.faults source.old source.new) × Gained
        (change K.held K.faults sink.old sink.new) (summary n)) }

    // Status 3: all was read, the bytes state a batch, and exactly the line of a fault that has its cause for it was written.
    ensures fault { result ≡ 3 → TookAll (change S.left S.faults source.old source.new)
        (λ bytes. (b : StatedBatch) × (batch_of bytes ≡ Some b) × (e : refusals.Fault) × HasFault b e × Gained
        (change K.held K.faults sink.old sink.new) (fault_text e)) }

    // Statuses 1, 2, 5, 7 and 8: the cause, and the word.
    ensures usage { result ≡ 1 → Did (CauseOfReply (Raised (E.calls engine.old) (E.calls engine.new)) words.now
        (change S.left S.faults source.old source.new)) (change K.held K.faults sink.old sink.new) Usage }
    ensures form { result ≡ 2 → Did (CauseOfReply (Raised (E.calls engine.old) (E.calls engine.new)) words.now
        (change S.left S.faults source.old source.new)) (change K.held K.faults sink.old sink.new) (Answered Form) }
    ensures unread { result ≡ 5 → Did (CauseOfReply (Raised (E.calls engine.old) (E.calls engine.new)) words.now
        (change S.left S.faults source.old source.new)) (change K.held K.faults sink.old sink.new) Unread }
    ensures long { result ≡ 7 → Did (CauseOfReply (Raised (E.calls engine.old) (E.calls engine.new)) words.now
        (change S.left S.faults source.old source.new)) (change K.held K.faults sink.old sink.new) Long }
    ensures unbuilt { result ≡ 8 → Did (CauseOfReply (Raised (E.calls engine.old) (E.calls engine.new)) words.now
        (change S.left S.faults source.old source.new)) (change K.held K.faults sink.old sink.new) (Answered Unbuilt) }

    // Status 6: the sink failed, before the whole of a text that has its cause.
    ensures cut { result ≡ 6 → (reply : Reply) × CauseOfReply (Raised (E.calls engine.old) (E.calls engine.new)) words.now
        (change S.left S.faults source.old source.new) reply
        × HasFailed (change K.held K.faults sink.old sink.new)
        × (prefix : List ℕ) × IsProperPrefix prefix (reply_text reply) × Gained (change K.held K.faults sink.old sink.new) prefix }

    // Status 4: nothing was written.
    ensures memory { result ≡ 4 → IsUntouched (change K.held K.faults sink.old sink.new) }

    // Words other than `run` leave the source as it was, whatever the status, so also where memory runs out.
    ensures kept { is_run (map string_bytes words.now) ≡ false → source.new ≡ source.old }
    ensures no_others { result ≤ 8 }

    // The words `gen` and N in range: the status is 0, 4 or 6, and what was written goes with it; where the sink doesn't fail, it is 0 or 4.
    ensures generates { (n : ℕ) → IsGen (map string_bytes words.now) n
        → Generates (Raised (E.calls engine.old) (E.calls engine.new)) n result (change S.left S.faults source.old source.new)
        (change K.held K.faults sink.old sink.new) }
    ensures generated { (n : ℕ) → IsGen (map string_bytes words.now) n → IsSteady (change K.held K.faults sink.old sink.new) → (result ≡ 0)
        ⊎ (result ≡ 4) }

    // Other words give status 1, unless the sink fails.
    ensures refused { is_run (map string_bytes words.now) ≡ false → ((n : ℕ) → IsGen (map string_bytes words.now) n → ⊥) → IsSteady
        (change K.held K.faults sink.old sink.new)
        → WroteWhole (λ reply. reply ≡ Usage) result (change K.held K.faults sink.old sink.new) }

    // More bytes than the limit give status 7, unless the sink fails.
    ensures too_long { (bytes : List ℕ) → is_run (map string_bytes words.now) ≡ true → S.left source.old ≡ Some bytes
        → TookTooMany (change S.left S.faults source.old source.new) → IsSteady (change K.held K.faults sink.old sink.new)
        → WroteWhole (λ reply. reply ≡ Long) result (change K.held K.faults sink.old sink.new) }

    // Where all the bytes were taken and the status is not that of a failed reading, they alone decide, unless the sink fails.
    ensures exact { (bytes : List ℕ) → is_run (map string_bytes words.now) ≡ true → S.left source.old ≡ Some bytes
        → TookAll (change S.left S.faults source.old source.new) (λ b. ⊤) → (result ≡ 5 → ⊥) → IsSteady
        (change K.held K.faults sink.old sink.new)
        → WroteWhole (IsAnswer (Leads (Raised (E.calls engine.old) (E.calls engine.new)) bytes)) result
        (change K.held K.faults sink.old sink.new) }

    // Where nothing fails, the input alone decides, unless memory runs out.
    ensures complete { (bytes : List ℕ) → is_run (map string_bytes words.now) ≡ true → S.left source.old ≡ Some bytes
        → IsSteady (change S.left S.faults source.old source.new) → IsSteady (change K.held K.faults sink.old sink.new)
        → WroteWhole (InputLeads (Leads (Raised (E.calls engine.old) (E.calls engine.new))) bytes) result
        (change K.held K.faults sink.old sink.new) }

    ensures source_faults { S.faults source.old ≤ S.faults source.new }
    ensures sink_faults { K.faults sink.old ≤ K.faults sink.new }
{
    conduct(alloc, words, &Rows, engine, source, sink)
}
