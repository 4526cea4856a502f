//! Execution of row functions over whole columns: the visitor that runs one, the batch call around them, and the two forms in which
//! programs take it, as a scalar function of an engine and as an engine.
#![tactic(auto)]

mod batch;
mod engine;
mod execution_args;
mod visitor;
mod vtable;

pub use batch::{Counted, execute_rows, execute_rows_counted, row_fn_return_dtype};
pub use engine::{CallEngine, RowEngine};
pub use vtable::RowFnVTable;
