// A function that takes no call.
ghost use Rattle.std.specs.Prelude.{◌≡◌, ◌⊎◌, true, false, Err};

use colbase::Fault;
use rowplan::{DType, EmptyOptions, ExecutionCtx, NoFailure, Res, RowFn, RowSpec, RowVisitor};

/// One number. No call is taken.
pub struct Picky;

const NAMES: &'static [&'static str] = &["value"];

impl RowSpec for Picky {
    ghost use Rattle.std.specs.Prelude.{false};
    ghost use Rattle.rowplan.specs.Constructors.{texts_of, total, total_is_lawful, true};
    ghost use Rattle.rowplan.specs.Law.{accepted_is_lawful, accepted_where};
    ghost use Rattle.rowplan.specs.declared.batch_plan.RowPolicy.TheVariants.{Dense};
    ghost use Rattle.rowsample.specs.Functions.{i64_stored};
    ghost use Rattle.rowcases.specs.Cases.{first_cell};
    ghost use Rattle.rowcases.specs.declared.picky.TheConstants.{NAMES as names};

    type Options = EmptyOptions;

    type Evidence = NoFailure;

    const ARG_NAMES: rowplan::Texts = rowplan::Texts(NAMES);

    ghost ARG_NAMES = { texts_of names };

    const INFALLIBLE: bool = true;

    ghost INFALLIBLE = { true };

    ghost law = { λ o t. accepted_where false (total 1 ⟦<(i64,) as rowtypes::ElementTuple>⟧.elements Dense i64_stored first_cell) };

    ghost lawful = { λ o t. accepted_is_lawful false (total_is_lawful _ _ _ _ _ _) };
}

impl RowFn for Picky {
    fn id(&self) -> &'static str {
        "picky"
    }

    fn dispatch<V: RowVisitor<Picky>>(
        &self,
        _options: &EmptyOptions,
        _types: &[DType],
        _visitor: V,
        _ctx: ExecutionCtx,
    ) -> Res<V::VisitResult> {
        Err(Fault::Refused)
    }
}
