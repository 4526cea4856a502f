// A function whose rows run only where no argument is null, over columns that are decoded with their nulls.
ghost use Rattle.std.specs.Prelude.{◌≡◌, ◌⊎◌, true};

use crate::valid_number::ValidNumber;
use rowplan::{DType, EmptyOptions, ExecutionCtx, NoFailure, Res, RowFn, RowSpec, RowVisitor};

/// The sum of two numbers modulo 2^64. Its rows run only where no argument is null.
pub struct SumValid;

const NAMES: &'static [&'static str] = &["lhs", "rhs"];

impl RowSpec for SumValid {
    ghost use Rattle.rowplan.specs.Constructors.{texts_of, total, total_is_lawful, true};
    ghost use Rattle.rowplan.specs.declared.batch_plan.RowPolicy.TheVariants.{ValidOnly};
    ghost use Rattle.rowsample.specs.Functions.{i64_stored, wrapping_sum};
    ghost use Rattle.rowcases.specs.declared.sum_valid.TheConstants.{NAMES as names};

    type Options = EmptyOptions;

    type Evidence = NoFailure;

    const ARG_NAMES: rowplan::Texts = rowplan::Texts(NAMES);

    ghost ARG_NAMES = { texts_of names };

    const INFALLIBLE: bool = true;

    ghost INFALLIBLE = { true };

    ghost law = { λ o t. total 2 ⟦<(ValidNumber, i64) as rowtypes::ElementTuple>⟧.elements ValidOnly i64_stored wrapping_sum };

    ghost lawful = { λ o t. total_is_lawful _ _ _ _ _ _ };
}

impl RowFn for SumValid {
    fn id(&self) -> &'static str {
        "sum_valid"
    }

    fn dispatch<V: RowVisitor<SumValid>>(
        &self,
        _options: &EmptyOptions,
        _types: &[DType],
        visitor: V,
        _ctx: ExecutionCtx,
    ) -> Res<V::VisitResult> {
        visitor.visit::<(ValidNumber, i64), i64, _>(|pair: (i64, i64)| pair.0.wrapping_add(pair.1))
    }
}
