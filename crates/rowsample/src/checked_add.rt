// The checked sum. A failure is evidence and no error of a row, so that all rows run on what is stored and values under nulls are told apart afterwards.
ghost use Rattle.std.specs.Prelude.{◌≡◌, ◌⊎◌, ◌+ℤ◌, false};
ghost use Rattle.coltypes.specs.Cell.{number};
ghost use Rattle.rowplan.specs.Outcomes.{done};
ghost use Rattle.rowsample.specs.Functions.{wrapped};

use crate::evidence::judge;
use rowplan::{DType, EmptyOptions, ExecutionCtx, Res, RowFn, RowSpec, RowVisitor};

/// The sum of two `i64`. It fails with the error 1 where a sum is no `i64`. It has no options with a form.
#[derive(Clone, Copy, Debug, PartialEq, Eq)]
pub struct CheckedAdd;

const NAMES: &'static [&'static str] = &["lhs", "rhs"];

impl RowSpec for CheckedAdd {
    ghost use Rattle.rowsample.specs.Functions.{checked_adds, exact_is_lawful, false, texts_of};
    ghost use Rattle.rowsample.specs.declared.checked_add.TheConstants.{NAMES as names};

    type Options = EmptyOptions;

    type Evidence = bool;

    const ARG_NAMES: rowplan::Texts = rowplan::Texts(NAMES);

    ghost ARG_NAMES = { texts_of names };

    const INFALLIBLE: bool = false;

    ghost INFALLIBLE = { false };

    ghost law = { λ o t. checked_adds };

    ghost lawful = { λ o t. exact_is_lawful _ _ _ _ };
}

impl RowFn for CheckedAdd {
    fn id(&self) -> &'static str {
        "checked_add"
    }

    #[tactic(auto, using(crate::proofs::ExactNumbers::checked_sum))]
    fn dispatch<V: RowVisitor<CheckedAdd>>(
        &self,
        _options: &EmptyOptions,
        _types: &[DType],
        visitor: V,
        _ctx: ExecutionCtx,
    ) -> Res<V::VisitResult> {
        visitor.visit_deferred::<(i64, i64), i64, _, _>(
            |pair: (i64, i64)| -> (i64, bool)
                ensures { wrapped (pair.0 +ℤ pair.1) ≡ done (number result.0) result.1 }
            { pair.0.overflowing_add(pair.1) },
            judge,
        )
    }
}
