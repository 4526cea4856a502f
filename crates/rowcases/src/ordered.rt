// A function of truth values by `visit_bool`, whose loop packs bits.
ghost use Rattle.std.specs.Prelude.{◌≡◌, ◌⊎◌, true};

use crate::calls::Calls;
use rowplan::{DType, EmptyOptions, ExecutionCtx, NoFailure, Res, RowFn, RowSpec, RowVisitor};

/// Whether the first of two numbers is below the second, by either collector. It counts the calls of its callback.
#[derive(Drop)]
pub struct Ordered {
    multiversioned: bool,
    calls: Calls,
}

const NAMES: &'static [&'static str] = &["lhs", "rhs"];

impl Ordered {
    pub fn new(multiversioned: bool) -> Ordered {
        Ordered {
            multiversioned,
            calls: Calls::new(),
        }
    }

    /// How often the callback was called.
    pub fn calls(&self) -> u64 {
        self.calls.count()
    }
}

impl RowSpec for Ordered {
    ghost use Rattle.rowplan.specs.Constructors.{texts_of, total, total_is_lawful, true};
    ghost use Rattle.rowplan.specs.declared.batch_plan.RowPolicy.TheVariants.{Dense};
    ghost use Rattle.rowcases.specs.Cases.{bool_stored, ordered};
    ghost use Rattle.rowcases.specs.declared.ordered.TheConstants.{NAMES as names};

    type Options = EmptyOptions;

    type Evidence = NoFailure;

    const ARG_NAMES: rowplan::Texts = rowplan::Texts(NAMES);

    ghost ARG_NAMES = { texts_of names };

    const INFALLIBLE: bool = true;

    ghost INFALLIBLE = { true };

    ghost law = { λ o t. total 2 ⟦<(i64, i64) as rowtypes::ElementTuple>⟧.elements Dense bool_stored ordered };

    ghost lawful = { λ o t. total_is_lawful _ _ _ _ _ _ };
}

impl RowFn for Ordered {
    fn id(&self) -> &'static str {
        "ordered"
    }

    fn dispatch<V: RowVisitor<Ordered>>(
        &self,
        _options: &EmptyOptions,
        _types: &[DType],
        visitor: V,
        _ctx: ExecutionCtx,
    ) -> Res<V::VisitResult> {
        visitor.visit_bool::<(i64, i64), _>(self.multiversioned, |pair: (i64, i64)| {
            self.calls.raise();
            pair.0 < pair.1
        })
    }
}
