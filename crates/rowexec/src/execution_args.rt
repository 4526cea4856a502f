// What a call carries while it runs: the whole planned call, and what one run of its rows borrows.
use colbase::{ArrayRef, DType, ExecutionCtx, Validity};
use rowloops::RowDomain;
use rowplan::{BatchPlan, RowSpec};

/// A planned call. What it rests on is `IsPlannedCall`.
#[derive(Drop)]
pub(crate) struct RowFnExecutionArgs<'a, F: RowSpec> {
    pub function: &'a F,
    pub options: &'a F::Options,
    /// The types of the columns.
    pub types: &'a [DType],
    pub columns: &'a [ArrayRef],
    pub row_count: usize,
    pub plan: &'a BatchPlan,
    /// The rows at which no argument is null.
    pub full: &'a Validity,
    pub ctx: ExecutionCtx,
}

/// What one run of a call's rows borrows. The columns are those of the call, or were filtered to the rows that run.
#[derive(Drop)]
pub(crate) struct BorrowedRowFnArgs<'a, F: RowSpec> {
    pub options: &'a F::Options,
    pub types: &'a [DType],
    pub columns: &'a [ArrayRef],
    /// The rows that run.
    pub domain: RowDomain<'a>,
    pub ctx: ExecutionCtx,
}
