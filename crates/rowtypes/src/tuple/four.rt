// Tuples of four arguments.
ghost use Rattle.std.specs.Prelude.{◌≡◌, ℕ, Bool, true, ◌&&◌, List, [], ◌∷◌, length, ◌<◌, ⊤, ◌⊎◌, Option, None, Some, IfOk, IfErr, IfSome, is_some};

use super::{ElementTuple, accepts_type};
use colbase::{ArrayRef, DType, ExecutionCtx, Fault, Res};
use rowelems::{ArgColumn, InputElement};

impl<A: InputElement, B: InputElement, C: InputElement, D: InputElement> ElementTuple
    for (A, B, C, D) {
    ghost use Rattle.rowelems.specs.Argument.{arg_length, arg_shows, arg_value, known_cell};
    ghost use Rattle.rowtypes.specs.Arguments.{pick_four, reads_four, four_agree, pick_four_constant, pick_four_row};

    type Columns = (ArgColumn<A>, ArgColumn<B>, ArgColumn<C>, ArgColumn<D>);

    type Elems = (A::Elem, B::Elem, C::Elem, D::Elem);

    type ConstElems = (
        Option<A::Elem>,
        Option<B::Elem>,
        Option<C::Elem>,
        Option<D::Elem>,
    );

    const ARITY: usize = 4;

    const DENSE_SAFE: bool = A::DENSE_SAFE && B::DENSE_SAFE && C::DENSE_SAFE && D::DENSE_SAFE;

    const DECODE_INFALLIBLE: bool = A::DECODE_INFALLIBLE
        && B::DECODE_INFALLIBLE
        && C::DECODE_INFALLIBLE
        && D::DECODE_INFALLIBLE;

    ghost ARITY = { 4 };

    ghost DENSE_SAFE = { A.DENSE_SAFE && B.DENSE_SAFE && C.DENSE_SAFE && D.DENSE_SAFE };

    ghost DECODE_INFALLIBLE = { A.DECODE_INFALLIBLE && B.DECODE_INFALLIBLE && C.DECODE_INFALLIBLE && D.DECODE_INFALLIBLE };

    ghost elements = { record {
      accepts = pick_four A.accepts B.accepts C.accepts D.accepts;
      reads = reads_four A.reads B.reads C.reads D.reads;
      shown = pick_four A.shown B.shown C.shown D.shown;
      tolerant = pick_four A.null_tolerant B.null_tolerant C.null_tolerant D.null_tolerant;
    } };

    ghost cells = { λ e. A.cell e.0 ∷ B.cell e.1 ∷ C.cell e.2 ∷ D.cell e.3 ∷ [] };

    ghost known = { λ k. known_cell A.cell k.0 ∷ known_cell B.cell k.1 ∷ known_cell C.cell k.2 ∷ known_cell D.cell k.3 ∷ [] };

    ghost known_of = { λ c. arg_value A.constant_cell c.0 ∷ arg_value B.constant_cell c.1 ∷ arg_value C.constant_cell c.2 ∷ arg_value D.constant_cell c.3 ∷ [] };

    ghost lengths = { λ c. arg_length A.count c.0 ∷ arg_length B.count c.1 ∷ arg_length C.count c.2 ∷ arg_length D.count c.3 ∷ [] };

    ghost shows = { λ c i. arg_shows A.shows A.constant_cell c.0 i ∷ arg_shows B.shows B.constant_cell c.1 i ∷ arg_shows C.shows C.constant_cell c.2 i ∷ arg_shows D.shows D.constant_cell c.3 i ∷ [] };

    ghost known_agrees = { λ c i. four_agree A.shows A.constant_cell B.shows B.constant_cell C.shows C.constant_cell D.shows D.constant_cell c.0 c.1 c.2 c.3 i };

    ghost shown_constant = { pick_four_constant A.shown B.shown C.shown D.shown A.shown_constant B.shown_constant C.shown_constant D.shown_constant };

    ghost shown_row = { pick_four_row A.shown B.shown C.shown D.shown A.shown_row B.shown_row C.shown_row D.shown_row };

    fn validate(types: &[DType]) -> Res<()> {
        if !accepts_type::<A>(&types[0]) {
            return Err(Fault::Dtype { index: 0 });
        }
        if !accepts_type::<B>(&types[1]) {
            return Err(Fault::Dtype { index: 1 });
        }
        if !accepts_type::<C>(&types[2]) {
            return Err(Fault::Dtype { index: 2 });
        }
        if !accepts_type::<D>(&types[3]) {
            return Err(Fault::Dtype { index: 3 });
        }
        Ok(())
    }

    fn decode(
        columns: &[ArrayRef],
        ctx: ExecutionCtx,
    ) -> Res<(ArgColumn<A>, ArgColumn<B>, ArgColumn<C>, ArgColumn<D>)> {
        let first = ArgColumn::decode(&columns[0], 0, ctx)?;
        let second = ArgColumn::decode(&columns[1], 1, ctx)?;
        let third = ArgColumn::decode(&columns[2], 2, ctx)?;
        let fourth = ArgColumn::decode(&columns[3], 3, ctx)?;
        Ok((first, second, third, fourth))
    }

    fn can_decode_null_tolerant(columns: &[ArrayRef]) -> bool {
        A::can_decode_null_tolerant(&columns[0])
            && B::can_decode_null_tolerant(&columns[1])
            && C::can_decode_null_tolerant(&columns[2])
            && D::can_decode_null_tolerant(&columns[3])
    }

    fn decode_null_tolerant(
        columns: &[ArrayRef],
        ctx: ExecutionCtx,
    ) -> Res<Option<(ArgColumn<A>, ArgColumn<B>, ArgColumn<C>, ArgColumn<D>)>> {
        if !<(A, B, C, D) as ElementTuple>::can_decode_null_tolerant(columns) {
            return Ok(None);
        }
        let first = ArgColumn::decode_null_tolerant(&columns[0], 0, ctx)?;
        let second = ArgColumn::decode_null_tolerant(&columns[1], 1, ctx)?;
        let third = ArgColumn::decode_null_tolerant(&columns[2], 2, ctx)?;
        let fourth = ArgColumn::decode_null_tolerant(&columns[3], 3, ctx)?;
        Ok(Some((first, second, third, fourth)))
    }

    fn get(
        columns: &(ArgColumn<A>, ArgColumn<B>, ArgColumn<C>, ArgColumn<D>),
        index: usize,
    ) -> (A::Elem, B::Elem, C::Elem, D::Elem) {
        (
            columns.0.get(index),
            columns.1.get(index),
            columns.2.get(index),
            columns.3.get(index),
        )
    }

    fn decoded_lens_match(
        columns: &(ArgColumn<A>, ArgColumn<B>, ArgColumn<C>, ArgColumn<D>),
        row_count: usize,
    ) -> bool {
        columns.0.len_matches(row_count)
            && columns.1.len_matches(row_count)
            && columns.2.len_matches(row_count)
            && columns.3.len_matches(row_count)
    }

    fn const_values(
        columns: &(ArgColumn<A>, ArgColumn<B>, ArgColumn<C>, ArgColumn<D>),
    ) -> (
        Option<A::Elem>,
        Option<B::Elem>,
        Option<C::Elem>,
        Option<D::Elem>,
    ) {
        (
            columns.0.const_value(),
            columns.1.const_value(),
            columns.2.const_value(),
            columns.3.const_value(),
        )
    }
}
