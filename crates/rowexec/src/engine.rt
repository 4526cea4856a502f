// The execution that a program is given: a trait whose count of calls lets a contract say that the engine was called.
ghost use Rattle.std.specs.Prelude.{◌≡◌, ℕ};

use crate::batch::execute_rows;
use colbase::{ArrayRef, ExecutionArgs, ExecutionCtx, Res};
use rowplan::RowFn;

/// Who executes row functions for a program, so that a contract sees that it is called.
pub trait RowEngine {
    ghost use Rattle.std.specs.Prelude.{◌≢◌, ◌<◌};
    ghost use Rattle.colbase.specs.Arrays.{row};
    ghost use Rattle.rowexec.specs.Calls.{Raised};
    ghost use Rattle.rowexec.specs.Rows.{types_of};
    ghost use Rattle.rowexec.specs.Batch.{Executes};

    // How often it was called. It never falls, and its last value is 2^64 - 1.
    ghost calls: { Self → ℕ };

    /// Answers as [`execute_rows`] does.
    fn execute<F: RowFn>(
        &mut self,
        function: &F,
        options: &F::Options,
        args: &ExecutionArgs,
        ctx: ExecutionCtx,
    ) -> Res<ArrayRef>
        ensures raised { Raised (calls self.old) (calls self.new) }
        ensures executes { Executes (F.law options.now (types_of args.now.columns)) args.now.columns args.now.row_count result };
}

/// The engine that calls [`execute_rows`], and counts its calls.
#[derive(Drop)]
pub struct CallEngine {
    calls: u64,
}

impl CallEngine {
    pub fn new() -> CallEngine
        ensures { result.calls ≡ 0 }
    {
        CallEngine { calls: 0 }
    }

    /// How often it was called, up to 2^64 - 1.
    pub fn calls(&self) -> u64
        ensures { result ≡ self.now.calls }
    {
        self.calls
    }
}

impl RowEngine for CallEngine {
    ghost calls = { λ e. e.calls };

    fn execute<F: RowFn>(
        &mut self,
        function: &F,
        options: &F::Options,
        args: &ExecutionArgs,
        ctx: ExecutionCtx,
    ) -> Res<ArrayRef> {
        self.calls = self.calls.saturating_add(1);
        execute_rows(function, options, args, ctx)
    }
}
