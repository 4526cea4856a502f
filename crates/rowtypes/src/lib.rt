//! Tuples of the elements that row functions read, and loops over the rows of decoded tuples. It hands on the elements
//! of `rowelems` and the outputs of `rowouts`, so that a row function needs this crate alone.
#![tactic(auto)]

mod both;
mod both_rows;
mod rows_visitor;
mod source;
mod tuple;
mod tuple_map;
mod two_sources;

pub use bitlane::{FailureEvidence, NoFailure};
pub use both::Both;
pub use rowelems::{
    ArgColumn, DecimalScale, InputElement, SourceVisitor, TimestampRow, batch_const,
};
pub use rowouts::{
    ColumnValue, FillDefault, OutputBuffer, OutputElement, OutputSlots, Preinitialized, SliceRows,
    ViewLen, build_from,
};
pub use rows_visitor::RowsVisitor;
pub use source::ArgTupleSource;
pub use tuple::{ElementTuple, IndexedElementTuple};
pub use tuple_map::map_rows;
