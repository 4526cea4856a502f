// What is answered to the evidence of all rows, the same for each function that may fail.
ghost use Rattle.std.specs.Prelude.{◌≡◌};
ghost use Rattle.rowplan.specs.Outcomes.{judged};
ghost use Rattle.rowplan.specs.Constructors.{code_where};

use colbase::RowError;

/// The error 1 where some row failed.
pub(crate) fn judge(failed: bool) -> Result<(), RowError>
    ensures { result ≡ judged (code_where 1 failed) }
{
    if failed { Err(RowError(1)) } else { Ok(()) }
}
