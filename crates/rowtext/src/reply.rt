// What a top call means to write, and the writing of it.
ghost use Rattle.std.specs.Prelude.{◌≡◌, ◌≤◌};
ghost use Rattle.rowtext.specs.Replies.{answer_status, answer_text, reply_status, reply_text};
ghost use Rattle.rowtext.specs.Changes.{change};
ghost use Rattle.rowtext.specs.Outcomes.{Wrote};

use crate::{Sink, Text, write_whole};

/// What a top call answers to its input, or to its words.
#[derive(Drop)]
pub enum Answer {
    /// The input isn't in the form that the call reads.
    Form,
    /// The input is in a form that the call doesn't read yet.
    Unbuilt,
    /// The called function refused. The text says how.
    Fault(Text),
    /// The call succeeded. The text is its result.
    Printed(Text),
}

impl Answer {
    /// The status with which the program ends.
    pub fn status(&self) -> u8
        ensures { result ≡ answer_status self.now }
    {
        match self {
            Answer::Printed(_) => 0,
            Answer::Form => 2,
            Answer::Fault(_) => 3,
            Answer::Unbuilt => 8,
        }
    }

    /// The bytes to write.
    pub fn text(&self) -> &[u8]
        ensures { result.now ≡ answer_text self.now }
    {
        match self {
            Answer::Printed(text) => text.as_bytes(),
            Answer::Form => b"form\n",
            Answer::Fault(text) => text.as_bytes(),
            Answer::Unbuilt => b"unbuilt\n",
        }
    }
}

/// What a top call means to write.
#[derive(Drop)]
pub enum Reply {
    /// The call doesn't know the words.
    Usage,
    /// The source failed before its end.
    Unread,
    /// The source has more bytes than an input may have.
    Long,
    /// The call has an answer.
    Answered(Answer),
}

impl Reply {
    /// The status with which the program ends, where the whole text is written.
    pub fn status(&self) -> u8
        ensures { result ≡ reply_status self.now }
    {
        match self {
            Reply::Usage => 1,
            Reply::Unread => 5,
            Reply::Long => 7,
            Reply::Answered(answer) => answer.status(),
        }
    }

    /// The bytes to write.
    pub fn text(&self) -> &[u8]
        ensures { result.now ≡ reply_text self.now }
    {
        match self {
            Reply::Usage => b"usage\n",
            Reply::Unread => b"read\n",
            Reply::Long => b"long\n",
            Reply::Answered(answer) => answer.text(),
        }
    }
}

/// Writes a reply's text and gives its status, or 6 where the sink fails. It takes no memory.
pub fn write_reply<K: Sink>(sink: &mut K, reply: &Reply) -> u8
    ensures wrote { Wrote reply.now result (change K.held K.faults sink.old sink.new) }
    ensures no_lower { K.faults sink.old ≤ K.faults sink.new }
{
    match write_whole(sink, reply.text()) {
        Ok(()) => reply.status(),
        Err(_) => 6,
    }
}
