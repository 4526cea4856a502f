// A function by a deferred visit whose evidence is a number: the bits that are set in some row, joined, are told as the error,
// so that a test sees which rows were joined.
ghost use Rattle.std.specs.Prelude.{◌≡◌, ◌⊎◌, false, Err};
ghost use Rattle.rowplan.specs.Outcomes.{judged};
ghost use Rattle.rowcases.specs.Cases.{flags_told};

use crate::calls::Calls;
use colbase::RowError;
use rowplan::{DType, EmptyOptions, ExecutionCtx, Res, RowFn, RowSpec, RowVisitor};

/// One number of 8 bits, which is the answer and the evidence of its row: the bits that are set in some row are told as the
/// error. It counts the calls of its callback.
#[derive(Drop)]
pub struct Flags {
    calls: Calls,
}

const NAMES: &'static [&'static str] = &["value"];

impl Flags {
    pub fn new() -> Flags {
        Flags {
            calls: Calls::new(),
        }
    }

    /// How often the callback was called.
    pub fn calls(&self) -> u64 {
        self.calls.count()
    }
}

impl RowSpec for Flags {
    ghost use Rattle.std.specs.Prelude.{bit_or, ◌%◌};
    ghost use Rattle.rowplan.specs.Constructors.{by_evidence, evidence_is_lawful, false, texts_of};
    ghost use Rattle.rowplan.specs.declared.batch_plan.RowPolicy.TheVariants.{DenseWithRetry};
    ghost use Rattle.rowcases.specs.Cases.{below_256, flag, flags_finish, flags_told, only_number, u8_stored};
    ghost use Rattle.rowcases.specs.declared.flags.TheConstants.{NAMES as names};

    type Options = EmptyOptions;

    type Evidence = u8;

    const ARG_NAMES: rowplan::Texts = rowplan::Texts(NAMES);

    ghost ARG_NAMES = { texts_of names };

    const INFALLIBLE: bool = false;

    ghost INFALLIBLE = { false };

    ghost law = { λ o t. by_evidence bit_or 0 flags_told 1 ⟦<(u8,) as rowtypes::ElementTuple>⟧.elements DenseWithRetry u8_stored flag
        (λ cells. only_number cells % 256) };

    ghost lawful = { λ o t. evidence_is_lawful flags_finish (λ cells. below_256 (only_number cells)) };
}

impl RowFn for Flags {
    fn id(&self) -> &'static str {
        "flags"
    }

    fn dispatch<V: RowVisitor<Flags>>(
        &self,
        _options: &EmptyOptions,
        _types: &[DType],
        visitor: V,
        _ctx: ExecutionCtx,
    ) -> Res<V::VisitResult> {
        visitor.visit_deferred::<(u8,), u8, _, _>(
            |row: (u8,)| -> (u8, u8)
                ensures value { result.0 ≡ row.0 }
                ensures evidence { result.1 ≡ row.0 }
            {
                self.calls.raise();
                (row.0, row.0)
            },
            told,
        )
    }
}

// The flags that are set, as the error.
fn told(flags: u8) -> Result<(), RowError>
    ensures { result ≡ judged (flags_told flags) }
{
    if flags == 0 {
        return Ok(());
    }
    Err(RowError(flags as u32))
}
