//! How the arguments of row functions are read: input elements, and argument columns, which are one value or a decoded
//! column. A loop over an argument asks for the source that reads it fastest.
#![tactic(auto)]

mod arg_column;
mod batch;
mod element;
mod source_visitor;
mod sources;

pub use arg_column::{ArgColumn, at_place};
pub use batch::batch_const;
pub use element::{DecimalScale, InputElement, TimestampRow};
pub use source_visitor::SourceVisitor;
