// The tuple of no arguments: each batch has its rows, and each shows nothing.
ghost use Rattle.std.specs.Prelude.{◌≡◌, ℕ, true, List, [], ⊤};

use super::ElementTuple;
use colbase::{ArrayRef, DType, ExecutionCtx, Res};

impl ElementTuple for () {
    ghost use Rattle.rowtypes.specs.Arguments.{shown_by_rows, shown_by_rows_constant, shown_by_rows_row};

    type Columns = ();

    type Elems = ();

    type ConstElems = ();

    const ARITY: usize = 0;

    const DENSE_SAFE: bool = true;

    const DECODE_INFALLIBLE: bool = true;

    ghost ARITY = { 0 };

    ghost DENSE_SAFE = { true };

    ghost DECODE_INFALLIBLE = { true };

    ghost elements = { record {
      accepts = λ k t. true;
      reads = λ k c. ⊤;
      shown = λ k. shown_by_rows;
      tolerant = λ k a. true;
    } };

    ghost cells = { λ e. [] };

    ghost known = { λ k. [] };

    ghost known_of = { λ c. [] };

    ghost lengths = { λ c. [] };

    ghost shows = { λ c i. [] };

    ghost known_agrees = { λ c i. tt };

    ghost shown_constant = { λ k. shown_by_rows_constant };

    ghost shown_row = { λ k. shown_by_rows_row };

    fn validate(_types: &[DType]) -> Res<()> {
        Ok(())
    }

    fn decode(_columns: &[ArrayRef], _ctx: ExecutionCtx) -> Res<()> {
        Ok(())
    }

    fn can_decode_null_tolerant(_columns: &[ArrayRef]) -> bool {
        true
    }

    fn decode_null_tolerant(_columns: &[ArrayRef], _ctx: ExecutionCtx) -> Res<Option<()>> {
        Ok(Some(()))
    }

    fn get(_columns: &(), _index: usize) {}

    fn decoded_lens_match(_columns: &(), _row_count: usize) -> bool {
        true
    }

    fn const_values(_columns: &()) {}
}
