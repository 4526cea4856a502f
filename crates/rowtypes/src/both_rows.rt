// How a loop over the rows of two tuples side by side gets its source: the first tuple picks the type of its source,
// then the second, then the loop runs over both.
ghost use Rattle.std.specs.Prelude.{◌≡◌, ◌<◌, ℕ, true};

use crate::both::Both;
use crate::rows_visitor::RowsVisitor;
use crate::tuple::{ElementTuple, IndexedElementTuple};
use crate::two_sources::SideBySide;
use bitlane::IndexedSource;
use std::marker::PhantomData;

impl<A: IndexedElementTuple, B: IndexedElementTuple> IndexedElementTuple for Both<A, B> {
    fn visit_rows<V: RowsVisitor<Both<A, B>>>(
        columns: &(A::Columns, B::Columns),
        row_count: usize,
        visitor: V,
    ) -> V::Output {
        let first = FirstPart::<B, V> {
            second: &columns.1,
            rows: row_count,
            visitor,
        };
        A::visit_rows(&columns.0, row_count, first)
    }
}

/// Puts the source of the second tuple beside that of the first, and runs a loop over both.
#[derive(Drop)]
struct FirstPart<'a, B: ElementTuple, V> {
    second: &'a B::Columns,
    rows: usize,
    visitor: V,
}

impl<'a, A: ElementTuple, B: IndexedElementTuple, V: RowsVisitor<Both<A, B>>> RowsVisitor<A>
    for FirstPart<'a, B, V> {
    ghost use Rattle.std.specs.Prelude.{◌≡◌, true};
    ghost use Rattle.rowtypes.specs.Rows.{each_length};

    type Output = V::Output;

    ghost rows = { λ s. s.rows };

    ghost may_be = { λ s i x. (y : B.Elems) → B.cells y ≡ B.shows s.second.now i → V.may_be s.visitor i (x, y) };

    ghost ready = { λ s. V.ready s.visitor × (V.rows s.visitor ≡ s.rows) × (each_length s.rows (B.lengths s.second.now) ≡ true) };

    ghost gives = { λ s r. V.gives s.visitor r };

    fn visit<S: IndexedSource<Item = A::Elems> + Drop>(self, source: S) -> V::Output {
        let FirstPart {
            second,
            rows,
            visitor,
        } = self;
        let next = SecondPart::<A, S, V> {
            first: source,
            visitor,
            tuple: PhantomData,
        };
        B::visit_rows(second, rows, next)
    }
}

/// Runs a loop over the source of the first tuple and that of the second beside it.
#[derive(Drop)]
struct SecondPart<A, S, V> {
    first: S,
    visitor: V,
    tuple: PhantomData<A>,
}

impl<
    A: ElementTuple,
    B: ElementTuple,
    S: IndexedSource<Item = A::Elems> + Drop,
    V: RowsVisitor<Both<A, B>>,
> RowsVisitor<B> for SecondPart<A, S, V> {
    ghost use Rattle.std.specs.Prelude.{◌≡◌};

    type Output = V::Output;

    ghost rows = { λ s. S.count s.first };

    ghost may_be = { λ s i y. (x : A.Elems) → S.item_at s.first i x → V.may_be s.visitor i (x, y) };

    ghost ready = { λ s. V.ready s.visitor × (V.rows s.visitor ≡ S.count s.first) };

    ghost gives = { λ s r. V.gives s.visitor r };

    fn visit<R: IndexedSource<Item = B::Elems> + Drop>(self, source: R) -> V::Output {
        let SecondPart { first, visitor, .. } = self;
        visitor.visit(SideBySide {
            first,
            second: source,
        })
    }
}
