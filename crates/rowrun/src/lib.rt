//! The call from bytes to bytes: it reads a batch, executes the called function, and prints the resulting column. It also
//! generates rows and prints a summary of their sums.
#![tactic(auto)]

mod batch;
mod call;
mod fault;
mod generator;
mod input;
mod words;

pub use call::run;
pub use rowexec::{CallEngine, RowEngine};
pub use rowsample::{CheckedAdd, Rescale, Truncate, TruncateOptions, WrappingAdd};
pub use rowtext::{
    MemorySink, MemorySource, NullSink, Sink, SinkFailed, Source, SourceFailed, StdSink, StdSource,
    SteadySource,
};
