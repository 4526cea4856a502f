// A function whose two elements are neither dense safe nor decoded with nulls, so that its columns are filtered, and a
// number that is no scale is told.
ghost use Rattle.std.specs.Prelude.{◌≡◌, ◌⊎◌, true};

use crate::calls::Calls;
use rowplan::{DType, EmptyOptions, ExecutionCtx, NoFailure, Res, RowFn, RowSpec, RowVisitor};
use rowtypes::DecimalScale;

/// Two scales, of which the first is the answer. No column of scales is decoded with its nulls. It counts the calls of its
/// callback.
#[derive(Drop)]
pub struct Scales {
    calls: Calls,
}

const NAMES: &'static [&'static str] = &["first", "second"];

impl Scales {
    pub fn new() -> Scales {
        Scales {
            calls: Calls::new(),
        }
    }

    /// How often the callback was called.
    pub fn calls(&self) -> u64 {
        self.calls.count()
    }
}

impl RowSpec for Scales {
    ghost use Rattle.rowplan.specs.Constructors.{texts_of, total, total_is_lawful, true};
    ghost use Rattle.rowplan.specs.declared.batch_plan.RowPolicy.TheVariants.{ValidOnly};
    ghost use Rattle.rowsample.specs.Functions.{i64_stored};
    ghost use Rattle.rowcases.specs.Cases.{first_cell};
    ghost use Rattle.rowcases.specs.declared.scales.TheConstants.{NAMES as names};

    type Options = EmptyOptions;

    type Evidence = NoFailure;

    const ARG_NAMES: rowplan::Texts = rowplan::Texts(NAMES);

    ghost ARG_NAMES = { texts_of names };

    const INFALLIBLE: bool = true;

    ghost INFALLIBLE = { true };

    ghost law = { λ o t. total 2 ⟦<(DecimalScale, DecimalScale) as rowtypes::ElementTuple>⟧.elements ValidOnly i64_stored first_cell };

    ghost lawful = { λ o t. total_is_lawful _ _ _ _ _ _ };
}

impl RowFn for Scales {
    fn id(&self) -> &'static str {
        "scales"
    }

    fn dispatch<V: RowVisitor<Scales>>(
        &self,
        _options: &EmptyOptions,
        _types: &[DType],
        visitor: V,
        _ctx: ExecutionCtx,
    ) -> Res<V::VisitResult> {
        visitor.visit::<(DecimalScale, DecimalScale), i64, _>(|row: (u8, u8)| {
            self.calls.raise();
            row.0 as i64
        })
    }
}
