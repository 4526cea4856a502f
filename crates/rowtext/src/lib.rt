//! Where a program takes its bytes from and gives its text to, and how a top call goes from the one to the other.
#![tactic(auto)]

mod command;
mod memory;
mod read;
mod reply;
mod sink;
mod source;
mod standard;
mod text;
mod top_call;
mod write;

pub use command::Command;
pub use memory::{MemorySink, MemorySource, NullSink, SteadySource};
pub use read::{MAX_BYTES, ReadFault, read_whole};
pub use reply::{Answer, Reply};
pub use sink::{Sink, SinkFailed};
pub use source::{Source, SourceFailed};
pub use standard::{StdSink, StdSource};
pub use text::Text;
pub use top_call::{TopCall, conduct};
pub use write::write_whole;
