// A function by a prepared visit, which takes the second number from a constant where it is one.
ghost use Rattle.std.specs.Prelude.{◌≡◌, ◌⊎◌, true, Option};

use rowplan::{DType, EmptyOptions, ExecutionCtx, NoFailure, Res, RowFn, RowSpec, RowVisitor};
use std::cell::Cell;

/// The sum of two numbers modulo 2^64, by a prepared visit that takes the second number from a constant. It notes what `prepare`
/// was last given; its callback notes nothing, so that the loop can be measured.
#[derive(Drop)]
pub struct SumPrepared {
    seen: Cell<Option<(Option<i64>, Option<i64>)>>,
}

const NAMES: &'static [&'static str] = &["lhs", "rhs"];

impl SumPrepared {
    pub fn new() -> SumPrepared {
        SumPrepared {
            seen: Cell::new(None),
        }
    }

    /// The constants that `prepare` was last given. None where it wasn't called.
    pub fn seen(&self) -> Option<(Option<i64>, Option<i64>)> {
        self.seen.get()
    }
}

impl RowSpec for SumPrepared {
    ghost use Rattle.rowplan.specs.Constructors.{texts_of, total, total_is_lawful, true};
    ghost use Rattle.rowplan.specs.declared.batch_plan.RowPolicy.TheVariants.{Dense};
    ghost use Rattle.rowsample.specs.Functions.{i64_stored, wrapping_sum};
    ghost use Rattle.rowcases.specs.declared.sum_prepared.TheConstants.{NAMES as names};

    type Options = EmptyOptions;

    type Evidence = NoFailure;

    const ARG_NAMES: rowplan::Texts = rowplan::Texts(NAMES);

    ghost ARG_NAMES = { texts_of names };

    const INFALLIBLE: bool = true;

    ghost INFALLIBLE = { true };

    ghost law = { λ o t. total 2 ⟦<(i64, i64) as rowtypes::ElementTuple>⟧.elements Dense i64_stored wrapping_sum };

    ghost lawful = { λ o t. total_is_lawful _ _ _ _ _ _ };
}

impl RowFn for SumPrepared {
    fn id(&self) -> &'static str {
        "sum_prepared"
    }

    fn dispatch<V: RowVisitor<SumPrepared>>(
        &self,
        _options: &EmptyOptions,
        _types: &[DType],
        visitor: V,
        _ctx: ExecutionCtx,
    ) -> Res<V::VisitResult> {
        visitor.visit_prepared::<(i64, i64), i64, Option<i64>, _, _>(
            |known: (Option<i64>, Option<i64>)| {
                self.seen.set(Some(known));
                Ok(known.1)
            },
            |second: &Option<i64>, pair: (i64, i64)| match *second {
                Some(value) => pair.0.wrapping_add(value),
                None => pair.0.wrapping_add(pair.1),
            },
        )
    }
}
