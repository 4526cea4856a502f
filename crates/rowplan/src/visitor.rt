//! Visits of row functions, and the visitor that plans a batch. A function hands its typed callbacks to whichever visitor it is
//! given, so that planning and each way to run are one dispatch.
mod plan;
mod row_visitor;

pub use plan::BatchPlanner;
pub use row_visitor::RowVisitor;
