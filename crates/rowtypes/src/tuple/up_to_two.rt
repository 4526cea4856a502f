// Tuples of one and of two arguments.
ghost use Rattle.std.specs.Prelude.{◌≡◌, ℕ, Bool, true, ◌&&◌, List, [], ◌∷◌, length, ◌<◌, ⊤, ◌⊎◌, Option, None, Some, IfOk, IfErr, IfSome, is_some};

use super::{ElementTuple, accepts_type};
use colbase::{ArrayRef, DType, ExecutionCtx, Fault, Res};
use rowelems::{ArgColumn, InputElement};

impl<A: InputElement> ElementTuple for (A,) {
    ghost use Rattle.rowelems.specs.Argument.{arg_length, arg_shows, arg_value, known_cell};
    ghost use Rattle.rowtypes.specs.Arguments.{pick_one, reads_one, one_agree, pick_one_constant, pick_one_row};

    type Columns = (ArgColumn<A>,);

    type Elems = (A::Elem,);

    type ConstElems = (Option<A::Elem>,);

    const ARITY: usize = 1;

    const DENSE_SAFE: bool = A::DENSE_SAFE;

    const DECODE_INFALLIBLE: bool = A::DECODE_INFALLIBLE;

    ghost ARITY = { 1 };

    ghost DENSE_SAFE = { A.DENSE_SAFE };

    ghost DECODE_INFALLIBLE = { A.DECODE_INFALLIBLE };

    ghost elements = { record {
      accepts = pick_one A.accepts;
      reads = reads_one A.reads;
      shown = pick_one A.shown;
      tolerant = pick_one A.null_tolerant;
    } };

    ghost cells = { λ e. A.cell e.0 ∷ [] };

    ghost known = { λ k. known_cell A.cell k.0 ∷ [] };

    ghost known_of = { λ c. arg_value A.constant_cell c.0 ∷ [] };

    ghost lengths = { λ c. arg_length A.count c.0 ∷ [] };

    ghost shows = { λ c i. arg_shows A.shows A.constant_cell c.0 i ∷ [] };

    ghost known_agrees = { λ c i. one_agree A.shows A.constant_cell c.0 i };

    ghost shown_constant = { pick_one_constant A.shown A.shown_constant };

    ghost shown_row = { pick_one_row A.shown A.shown_row };

    fn validate(types: &[DType]) -> Res<()> {
        if !accepts_type::<A>(&types[0]) {
            return Err(Fault::Dtype { index: 0 });
        }
        Ok(())
    }

    fn decode(columns: &[ArrayRef], ctx: ExecutionCtx) -> Res<(ArgColumn<A>,)> {
        let first = ArgColumn::decode(&columns[0], 0, ctx)?;
        Ok((first,))
    }

    fn can_decode_null_tolerant(columns: &[ArrayRef]) -> bool {
        A::can_decode_null_tolerant(&columns[0])
    }

    fn decode_null_tolerant(
        columns: &[ArrayRef],
        ctx: ExecutionCtx,
    ) -> Res<Option<(ArgColumn<A>,)>> {
        if !<(A,) as ElementTuple>::can_decode_null_tolerant(columns) {
            return Ok(None);
        }
        let first = ArgColumn::decode_null_tolerant(&columns[0], 0, ctx)?;
        Ok(Some((first,)))
    }

    fn get(columns: &(ArgColumn<A>,), index: usize) -> (A::Elem,) {
        (columns.0.get(index),)
    }

    fn decoded_lens_match(columns: &(ArgColumn<A>,), row_count: usize) -> bool {
        columns.0.len_matches(row_count)
    }

    fn const_values(columns: &(ArgColumn<A>,)) -> (Option<A::Elem>,) {
        (columns.0.const_value(),)
    }
}

impl<A: InputElement, B: InputElement> ElementTuple for (A, B) {
    ghost use Rattle.rowelems.specs.Argument.{arg_length, arg_shows, arg_value, known_cell};
    ghost use Rattle.rowtypes.specs.Arguments.{pick_two, reads_two, two_agree, pick_two_constant, pick_two_row};

    type Columns = (ArgColumn<A>, ArgColumn<B>);

    type Elems = (A::Elem, B::Elem);

    type ConstElems = (Option<A::Elem>, Option<B::Elem>);

    const ARITY: usize = 2;

    const DENSE_SAFE: bool = A::DENSE_SAFE && B::DENSE_SAFE;

    const DECODE_INFALLIBLE: bool = A::DECODE_INFALLIBLE && B::DECODE_INFALLIBLE;

    ghost ARITY = { 2 };

    ghost DENSE_SAFE = { A.DENSE_SAFE && B.DENSE_SAFE };

    ghost DECODE_INFALLIBLE = { A.DECODE_INFALLIBLE && B.DECODE_INFALLIBLE };

    ghost elements = { record {
      accepts = pick_two A.accepts B.accepts;
      reads = reads_two A.reads B.reads;
      shown = pick_two A.shown B.shown;
      tolerant = pick_two A.null_tolerant B.null_tolerant;
    } };

    ghost cells = { λ e. A.cell e.0 ∷ B.cell e.1 ∷ [] };

    ghost known = { λ k. known_cell A.cell k.0 ∷ known_cell B.cell k.1 ∷ [] };

    ghost known_of = { λ c. arg_value A.constant_cell c.0 ∷ arg_value B.constant_cell c.1 ∷ [] };

    ghost lengths = { λ c. arg_length A.count c.0 ∷ arg_length B.count c.1 ∷ [] };

    ghost shows = { λ c i. arg_shows A.shows A.constant_cell c.0 i ∷ arg_shows B.shows B.constant_cell c.1 i ∷ [] };

    ghost known_agrees = { λ c i. two_agree A.shows A.constant_cell B.shows B.constant_cell c.0 c.1 i };

    ghost shown_constant = { pick_two_constant A.shown B.shown A.shown_constant B.shown_constant };

    ghost shown_row = { pick_two_row A.shown B.shown A.shown_row B.shown_row };

    fn validate(types: &[DType]) -> Res<()> {
        if !accepts_type::<A>(&types[0]) {
            return Err(Fault::Dtype { index: 0 });
        }
        if !accepts_type::<B>(&types[1]) {
            return Err(Fault::Dtype { index: 1 });
        }
        Ok(())
    }

    fn decode(columns: &[ArrayRef], ctx: ExecutionCtx) -> Res<(ArgColumn<A>, ArgColumn<B>)> {
        let first = ArgColumn::decode(&columns[0], 0, ctx)?;
        let second = ArgColumn::decode(&columns[1], 1, ctx)?;
        Ok((first, second))
    }

    fn can_decode_null_tolerant(columns: &[ArrayRef]) -> bool {
        A::can_decode_null_tolerant(&columns[0]) && B::can_decode_null_tolerant(&columns[1])
    }

    fn decode_null_tolerant(
        columns: &[ArrayRef],
        ctx: ExecutionCtx,
    ) -> Res<Option<(ArgColumn<A>, ArgColumn<B>)>> {
        if !<(A, B) as ElementTuple>::can_decode_null_tolerant(columns) {
            return Ok(None);
        }
        let first = ArgColumn::decode_null_tolerant(&columns[0], 0, ctx)?;
        let second = ArgColumn::decode_null_tolerant(&columns[1], 1, ctx)?;
        Ok(Some((first, second)))
    }

    fn get(columns: &(ArgColumn<A>, ArgColumn<B>), index: usize) -> (A::Elem, B::Elem) {
        (columns.0.get(index), columns.1.get(index))
    }

    fn decoded_lens_match(columns: &(ArgColumn<A>, ArgColumn<B>), row_count: usize) -> bool {
        columns.0.len_matches(row_count) && columns.1.len_matches(row_count)
    }

    fn const_values(columns: &(ArgColumn<A>, ArgColumn<B>)) -> (Option<A::Elem>, Option<B::Elem>) {
        (columns.0.const_value(), columns.1.const_value())
    }
}
