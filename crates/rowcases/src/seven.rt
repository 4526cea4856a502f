// A function without arguments, by the plain visit.
ghost use Rattle.std.specs.Prelude.{◌≡◌, ◌⊎◌, true};

use crate::calls::Calls;
use rowplan::{DType, EmptyOptions, ExecutionCtx, NoFailure, Res, RowFn, RowSpec, RowVisitor};

/// No arguments, and the number 7. It counts the calls of its callback.
#[derive(Drop)]
pub struct Seven {
    calls: Calls,
}

const NAMES: &'static [&'static str] = &[];

impl Seven {
    pub fn new() -> Seven {
        Seven {
            calls: Calls::new(),
        }
    }

    /// How often the callback was called.
    pub fn calls(&self) -> u64 {
        self.calls.count()
    }
}

impl RowSpec for Seven {
    ghost use Rattle.std.specs.Prelude.{pos};
    ghost use Rattle.coltypes.specs.Cell.{number};
    ghost use Rattle.rowplan.specs.Constructors.{texts_of, total, total_is_lawful, true};
    ghost use Rattle.rowplan.specs.declared.batch_plan.RowPolicy.TheVariants.{Dense};
    ghost use Rattle.rowsample.specs.Functions.{i64_stored};
    ghost use Rattle.rowcases.specs.declared.seven.TheConstants.{NAMES as names};

    type Options = EmptyOptions;

    type Evidence = NoFailure;

    const ARG_NAMES: rowplan::Texts = rowplan::Texts(NAMES);

    ghost ARG_NAMES = { texts_of names };

    const INFALLIBLE: bool = true;

    ghost INFALLIBLE = { true };

    ghost law = { λ o t. total 0 ⟦<() as rowtypes::ElementTuple>⟧.elements Dense i64_stored (λ cells. number (pos 7)) };

    ghost lawful = { λ o t. total_is_lawful _ _ _ _ _ _ };
}

impl RowFn for Seven {
    fn id(&self) -> &'static str {
        "seven"
    }

    fn dispatch<V: RowVisitor<Seven>>(
        &self,
        _options: &EmptyOptions,
        _types: &[DType],
        visitor: V,
        _ctx: ExecutionCtx,
    ) -> Res<V::VisitResult> {
        visitor.visit::<(), i64, _>(|_: ()| {
            self.calls.raise();
            7
        })
    }
}
