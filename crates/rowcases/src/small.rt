// A function of truth values with evidence, by each of the four deferred visits.
ghost use Rattle.std.specs.Prelude.{◌≡◌, ◌⊎◌, true, false, Option, Err};
ghost use Rattle.rowplan.specs.Outcomes.{judged};
ghost use Rattle.rowplan.specs.Constructors.{code_where};

use crate::calls::Calls;
use colbase::RowError;
use rowplan::{DType, EmptyOptions, ExecutionCtx, Res, RowFn, RowSpec, RowVisitor};

/// Which visit hands over the evidence.
#[derive(Clone, Copy, Debug)]
pub enum Deferral {
    Plain,
    Prepared,
    Bool,
    PreparedBool,
}

/// Whether a number of 8 bits is below 5. A number above 9 is evidence of a failure. It counts the calls of `prepare` that its
/// prepared visits make.
#[derive(Drop)]
pub struct Small {
    visit: Deferral,
    prepares: Calls,
}

const NAMES: &'static [&'static str] = &["value"];

impl Small {
    pub fn new(visit: Deferral) -> Small {
        Small {
            visit,
            prepares: Calls::new(),
        }
    }

    /// How often `prepare` was called.
    pub fn prepares(&self) -> u64 {
        self.prepares.count()
    }
}

impl RowSpec for Small {
    ghost use Rattle.std.specs.Prelude.{nat_lt};
    ghost use Rattle.coltypes.specs.Cell.{truth};
    ghost use Rattle.rowplan.specs.Constructors.{fails_is_lawful, fails_with, false, texts_of};
    ghost use Rattle.rowplan.specs.declared.batch_plan.RowPolicy.TheVariants.{DenseWithRetry};
    ghost use Rattle.rowcases.specs.Cases.{bool_stored, only_number};
    ghost use Rattle.rowcases.specs.declared.small.TheConstants.{NAMES as names};

    type Options = EmptyOptions;

    type Evidence = bool;

    const ARG_NAMES: rowplan::Texts = rowplan::Texts(NAMES);

    ghost ARG_NAMES = { texts_of names };

    const INFALLIBLE: bool = false;

    ghost INFALLIBLE = { false };

    ghost law = { λ o t. fails_with 1 1 ⟦<(u8,) as rowtypes::ElementTuple>⟧.elements DenseWithRetry bool_stored
        (λ cells. truth (nat_lt (only_number cells) 5)) (λ cells. nat_lt 9 (only_number cells)) };

    ghost lawful = { λ o t. fails_is_lawful 1 1 _ _ _ _ _ };
}

impl RowFn for Small {
    fn id(&self) -> &'static str {
        "small"
    }

    fn dispatch<V: RowVisitor<Small>>(
        &self,
        _options: &EmptyOptions,
        _types: &[DType],
        visitor: V,
        _ctx: ExecutionCtx,
    ) -> Res<V::VisitResult> {
        match self.visit {
            Deferral::Plain => visitor.visit_deferred::<(u8,), bool, _, _>(
                |row: (u8,)| (row.0 < 5, row.0 > 9),
                refuse,
            ),
            Deferral::Prepared => visitor.visit_prepared_deferred::<(u8,), bool, (), _, _, _>(
                |_: (Option<u8>,)| {
                    self.prepares.raise();
                    Ok(())
                },
                |_nothing: &(), row: (u8,)| (row.0 < 5, row.0 > 9),
                refuse,
            ),
            Deferral::Bool => visitor.visit_deferred_bool::<(u8,), _, _>(
                true,
                |row: (u8,)| (row.0 < 5, row.0 > 9),
                refuse,
            ),
            Deferral::PreparedBool => visitor.visit_prepared_deferred_bool::<(u8,), (), _, _, _>(
                false,
                |_: (Option<u8>,)| {
                    self.prepares.raise();
                    Ok(())
                },
                |_nothing: &(), row: (u8,)| (row.0 < 5, row.0 > 9),
                refuse,
            ),
        }
    }
}

/// The error 1 where some row left evidence.
fn refuse(failed: bool) -> Result<(), RowError>
    ensures { result ≡ judged (code_where 1 failed) }
{
    if failed {
        return Err(RowError(1));
    }
    Ok(())
}
