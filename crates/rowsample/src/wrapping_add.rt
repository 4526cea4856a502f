// The sum modulo 2^64. Its rows leave no evidence, so that all rows run on what is stored.
use rowplan::{DType, EmptyOptions, ExecutionCtx, NoFailure, Res, RowFn, RowSpec, RowVisitor};

/// The sum of two `i64` modulo 2^64. It has no options with a form, and no row of it fails.
#[derive(Clone, Copy, Debug, PartialEq, Eq)]
pub struct WrappingAdd;

const NAMES: &'static [&'static str] = &["lhs", "rhs"];

impl RowSpec for WrappingAdd {
    ghost use Rattle.rowsample.specs.Functions.{texts_of, total_is_lawful, true, wrapping_adds};
    ghost use Rattle.rowsample.specs.declared.wrapping_add.TheConstants.{NAMES as names};

    type Options = EmptyOptions;

    type Evidence = NoFailure;

    const ARG_NAMES: rowplan::Texts = rowplan::Texts(NAMES);

    ghost ARG_NAMES = { texts_of names };

    const INFALLIBLE: bool = true;

    ghost INFALLIBLE = { true };

    ghost law = { λ o t. wrapping_adds };

    ghost lawful = { λ o t. total_is_lawful _ _ _ _ _ _ };
}

impl RowFn for WrappingAdd {
    fn id(&self) -> &'static str {
        "wrapping_add"
    }

    fn dispatch<V: RowVisitor<WrappingAdd>>(
        &self,
        _options: &EmptyOptions,
        _types: &[DType],
        visitor: V,
        _ctx: ExecutionCtx,
    ) -> Res<V::VisitResult> {
        visitor.visit::<(i64, i64), i64, _>(|pair: (i64, i64)| pair.0.wrapping_add(pair.1))
    }
}
