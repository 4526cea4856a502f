// A function over an element that is decoded with its nulls: the lengths that it notes show that a column was not filtered.
ghost use Rattle.std.specs.Prelude.{◌≡◌, ◌⊎◌, true, length};

use crate::calls::Calls;
use crate::measured::{Direct, Measured};
use rowplan::{DType, EmptyOptions, ExecutionCtx, NoFailure, Res, RowFn, RowSpec, RowVisitor};
use std::cell::Cell;

/// One number, which is the answer. It notes the length of the column that the last row was decoded from, and counts the calls
/// of its callback.
#[derive(Drop)]
pub struct Lengths {
    seen: Cell<usize>,
    calls: Calls,
}

const NAMES: &'static [&'static str] = &["value"];

impl Lengths {
    pub fn new() -> Lengths {
        Lengths {
            seen: Cell::new(0),
            calls: Calls::new(),
        }
    }

    /// The length of the column that the last row was decoded from.
    pub fn seen(&self) -> usize {
        self.seen.get()
    }

    /// How often the callback was called.
    pub fn calls(&self) -> u64 {
        self.calls.count()
    }
}

impl RowSpec for Lengths {
    ghost use Rattle.rowplan.specs.Constructors.{texts_of, total, total_is_lawful, true};
    ghost use Rattle.rowplan.specs.declared.batch_plan.RowPolicy.TheVariants.{ValidOnly};
    ghost use Rattle.rowsample.specs.Functions.{i64_stored};
    ghost use Rattle.rowcases.specs.Cases.{first_cell};
    ghost use Rattle.rowcases.specs.declared.lengths.TheConstants.{NAMES as names};

    type Options = EmptyOptions;

    type Evidence = NoFailure;

    const ARG_NAMES: rowplan::Texts = rowplan::Texts(NAMES);

    ghost ARG_NAMES = { texts_of names };

    const INFALLIBLE: bool = true;

    ghost INFALLIBLE = { true };

    ghost law = { λ o t. total 1 ⟦<(Direct,) as rowtypes::ElementTuple>⟧.elements ValidOnly i64_stored first_cell };

    ghost lawful = { λ o t. total_is_lawful _ _ _ _ _ _ };
}

impl RowFn for Lengths {
    fn id(&self) -> &'static str {
        "lengths"
    }

    fn dispatch<V: RowVisitor<Lengths>>(
        &self,
        _options: &EmptyOptions,
        _types: &[DType],
        visitor: V,
        _ctx: ExecutionCtx,
    ) -> Res<V::VisitResult> {
        visitor.visit::<(Direct,), i64, _>(|row: (Measured,)| {
            self.calls.raise();
            self.seen.set(row.0.length);
            row.0.number
        })
    }
}
