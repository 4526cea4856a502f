//! Row functions: what one means, how it chooses its visit, and the plan of a batch. Nothing here reads a column, so that functions
//! are defined and proved beside the loops and the execution.
#![tactic(auto)]

mod batch_plan;
mod options_form;
mod row_fn;
mod row_spec;
mod texts;
mod visitor;

pub use batch_plan::{BatchPlan, RowPolicy, is_any_nullable};
pub use bitlane::{FailureEvidence, NoFailure};
pub use colbase::{DType, EmptyOptions, ExecutionCtx, Res};
pub use options_form::{NoForm, OptionsForm, RowOptions};
pub use row_fn::RowFn;
pub use row_spec::RowSpec;
pub use texts::Texts;
pub use visitor::{BatchPlanner, RowVisitor};
