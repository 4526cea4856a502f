// The multiple of a step below a timestamp, shown under the argument's own type.
ghost use Rattle.std.specs.Prelude.{◌≡◌, ◌⊎◌, ◌-ℤ◌, ◌<ℤ◌, pos, false, Err};
ghost use Rattle.std.specs.Int.{int_rem_euclid};
ghost use Rattle.coltypes.specs.Cell.{number};
ghost use Rattle.rowplan.specs.Outcomes.{done};
ghost use Rattle.rowsample.specs.Functions.{wrapped};

use crate::evidence::judge;
use crate::label::{labelled, time_label};
use colbase::Fault;
use rowplan::{DType, ExecutionCtx, NoForm, Res, RowFn, RowOptions, RowSpec, RowVisitor};
use rowtypes::TimestampRow;
use std::fmt::{self, Display};

/// The options of [`Truncate`].
#[derive(Clone, Copy, Debug, PartialEq, Eq, Hash)]
pub struct TruncateOptions {
    /// How many units of the timestamp's type one step has, at least 1.
    pub ticks: i64,
}

impl Display for TruncateOptions {
    fn fmt<W: fmt::Write>(&self, f: &mut fmt::Formatter<W>) -> fmt::Result {
        write!(f, "ticks={}", self.ticks)
    }
}

impl RowOptions for TruncateOptions {
    type Form = NoForm;
}

/// A timestamp down to the last multiple of the ticks, in its own type. It fails with the error 1 where that is no `i64`, and
/// its options have no form.
#[derive(Clone, Copy, Debug, PartialEq, Eq)]
pub struct Truncate;

const NAMES: &'static [&'static str] = &["value"];

impl RowSpec for Truncate {
    ghost use Rattle.rowsample.specs.Functions.{false, texts_of, truncates, truncates_is_lawful};
    ghost use Rattle.rowsample.specs.declared.truncate.TheConstants.{NAMES as names};

    type Options = TruncateOptions;

    type Evidence = bool;

    const ARG_NAMES: rowplan::Texts = rowplan::Texts(NAMES);

    ghost ARG_NAMES = { texts_of names };

    const INFALLIBLE: bool = false;

    ghost INFALLIBLE = { false };

    ghost law = { λ o t. truncates o.ticks t };

    ghost lawful = { λ o t. truncates_is_lawful o.ticks t };
}

impl RowFn for Truncate {
    fn id(&self) -> &'static str {
        "truncate"
    }

    fn dispatch<V: RowVisitor<Truncate>>(
        &self,
        options: &TruncateOptions,
        types: &[DType],
        visitor: V,
        ctx: ExecutionCtx,
    ) -> Res<V::VisitResult> {
        if options.ticks < 1 {
            return Err(Fault::Refused);
        }
        let ticks = options.ticks;
        let label = time_label(&types[0], ctx)?;
        labelled(visitor, label).visit_deferred::<(TimestampRow,), i64, _, _>(
            move |row: (i64,)| -> (i64, bool)
                requires { pos 0 <ℤ ticks }
                ensures { wrapped (row.0 -ℤ int_rem_euclid row.0 ticks) ≡ done (number result.0) result.1 }
            { stepped(row.0, ticks) },
            judge,
        )
    }
}

/// The number down to the last multiple of the ticks, modulo 2^64, and whether that multiple is no `i64`.
fn stepped(value: i64, ticks: i64) -> (i64, bool)
    requires { pos 0 <ℤ ticks }
    ensures { wrapped (value -ℤ int_rem_euclid value ticks) ≡ done (number result.0) result.1 }
{
    value.overflowing_sub(value.rem_euclid(ticks))
}
