// Two tuples as one. Every ghost member is that of the first below its arity, and that of the second above.
ghost use Rattle.std.specs.Prelude.{◌≡◌, ℕ, ◌+◌, Bool, true, ◌&&◌, List, ◌++◌, length, min, ◌-◌, ◌^◌};

use crate::tuple::ElementTuple;
use colbase::{ArrayRef, DType, ExecutionCtx, Res};
use rowelems::at_place;
use std::marker::PhantomData;

/// Two tuples side by side. The arguments of `B` come after those of `A`, and a row is a pair of their rows.
pub struct Both<A, B>(PhantomData<(A, B)>);

impl<A: ElementTuple, B: ElementTuple> ElementTuple for Both<A, B> {
    ghost use Rattle.rowtypes.specs.SideBySide.{side_by_side, reads_side_by_side, side_by_side_constant, side_by_side_row, both_agree};

    type Columns = (A::Columns, B::Columns);

    type Elems = (A::Elems, B::Elems);

    type ConstElems = (A::ConstElems, B::ConstElems);

    const ARITY: usize = if A::ARITY <= usize::MAX - B::ARITY {
        A::ARITY + B::ARITY
    } else {
        usize::MAX
    };

    const DENSE_SAFE: bool = A::DENSE_SAFE && B::DENSE_SAFE;

    const DECODE_INFALLIBLE: bool = A::DECODE_INFALLIBLE && B::DECODE_INFALLIBLE;

    ghost ARITY = { min (A.ARITY + B.ARITY) (2 ^ 64 - 1) };

    ghost DENSE_SAFE = { A.DENSE_SAFE && B.DENSE_SAFE };

    ghost DECODE_INFALLIBLE = { A.DECODE_INFALLIBLE && B.DECODE_INFALLIBLE };

    ghost elements = { record {
      accepts = side_by_side A.ARITY A.elements.accepts B.elements.accepts;
      reads = reads_side_by_side A.ARITY A.elements.reads B.elements.reads;
      shown = side_by_side A.ARITY A.elements.shown B.elements.shown;
      tolerant = side_by_side A.ARITY A.elements.tolerant B.elements.tolerant;
    } };

    ghost cells = { λ e. A.cells e.0 ++ B.cells e.1 };

    ghost known = { λ k. A.known k.0 ++ B.known k.1 };

    ghost known_of = { λ c. A.known_of c.0 ++ B.known_of c.1 };

    ghost lengths = { λ c. A.lengths c.0 ++ B.lengths c.1 };

    ghost shows = { λ c i. A.shows c.0 i ++ B.shows c.1 i };

    ghost known_agrees = { λ c i. both_agree (A.known_of c.0) (B.known_of c.1) (A.shows c.0 i) (B.shows c.1 i) (A.known_agrees c.0 i) (B.known_agrees c.1 i) };

    ghost shown_constant = { side_by_side_constant A.ARITY A.elements.shown B.elements.shown A.shown_constant B.shown_constant };

    ghost shown_row = { side_by_side_row A.ARITY A.elements.shown B.elements.shown A.shown_row B.shown_row };

    fn validate(types: &[DType]) -> Res<()> {
        let (first, second) = split_types(types, A::ARITY, B::ARITY);
        if let Err(fault) = A::validate(first) {
            return Err(fault);
        }
        match B::validate(second) {
            Ok(()) => Ok(()),
            Err(fault) => Err(at_place(fault, A::ARITY)),
        }
    }

    fn decode(columns: &[ArrayRef], ctx: ExecutionCtx) -> Res<(A::Columns, B::Columns)> {
        let (first, second) = split_columns(columns, A::ARITY, B::ARITY);
        let decoded = A::decode(first, ctx)?;
        match B::decode(second, ctx) {
            Ok(more) => Ok((decoded, more)),
            Err(fault) => Err(at_place(fault, A::ARITY)),
        }
    }

    fn can_decode_null_tolerant(columns: &[ArrayRef]) -> bool {
        let (first, second) = split_columns(columns, A::ARITY, B::ARITY);
        A::can_decode_null_tolerant(first) && B::can_decode_null_tolerant(second)
    }

    fn decode_null_tolerant(
        columns: &[ArrayRef],
        ctx: ExecutionCtx,
    ) -> Res<Option<(A::Columns, B::Columns)>> {
        if !<Both<A, B> as ElementTuple>::can_decode_null_tolerant(columns) {
            return Ok(None);
        }
        let (first, second) = split_columns(columns, A::ARITY, B::ARITY);
        let Some(decoded) = A::decode_null_tolerant(first, ctx)? else {
            return Ok(None);
        };
        match B::decode_null_tolerant(second, ctx) {
            Ok(Some(more)) => Ok(Some((decoded, more))),
            Ok(None) => Ok(None),
            Err(fault) => Err(at_place(fault, A::ARITY)),
        }
    }

    fn get(columns: &(A::Columns, B::Columns), index: usize) -> (A::Elems, B::Elems) {
        (A::get(&columns.0, index), B::get(&columns.1, index))
    }

    fn decoded_lens_match(columns: &(A::Columns, B::Columns), row_count: usize) -> bool {
        A::decoded_lens_match(&columns.0, row_count) && B::decoded_lens_match(&columns.1, row_count)
    }

    fn const_values(columns: &(A::Columns, B::Columns)) -> (A::ConstElems, B::ConstElems) {
        (A::const_values(&columns.0), B::const_values(&columns.1))
    }
}

// The types of the first arguments and those of the second.
fn split_types(types: &[DType], first: usize, second: usize) -> (&[DType], &[DType])
    requires { length types.now ≡ min (first + second) (2 ^ 64 - 1) }
    ensures first { length result.0.now ≡ first }
    ensures second { length result.1.now ≡ second }
    ensures joined { types.now ≡ result.0.now ++ result.1.now }
{
    types.split_at(first)
}

// The columns of the first arguments and those of the second.
fn split_columns(columns: &[ArrayRef], first: usize, second: usize) -> (&[ArrayRef], &[ArrayRef])
    requires { length columns.now ≡ min (first + second) (2 ^ 64 - 1) }
    ensures first { length result.0.now ≡ first }
    ensures second { length result.1.now ≡ second }
    ensures joined { columns.now ≡ result.0.now ++ result.1.now }
{
    columns.split_at(first)
}
