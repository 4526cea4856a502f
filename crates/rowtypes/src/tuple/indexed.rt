// Loops over the rows of tuples: each argument picks the type of its source before the loop.
ghost use Rattle.std.specs.Prelude.{◌≡◌, ◌<◌, ℕ, true};

use super::ElementTuple;
use super::beside::Beside;
use super::flat::{Alone, Four, NoArguments, Three, Two};
use crate::rows_visitor::RowsVisitor;
use rowelems::{ArgColumn, InputElement};

/// Tuples whose rows are read by their index.
pub trait IndexedElementTuple: ElementTuple {
    ghost use Rattle.rowtypes.specs.Rows.{each_length};

    /// Runs a loop over this many rows, told before the loop which arguments are one value and which are columns. This
    /// call is this project's own.
    fn visit_rows<V: RowsVisitor<Self>>(
        columns: &Self::Columns,
        row_count: usize,
        visitor: V,
    ) -> V::Output
        requires lengths { each_length row_count (Self.lengths columns.now) ≡ true }
        requires ready { V.ready visitor }
        requires rows { V.rows visitor ≡ row_count }
        requires items { (i : ℕ) (e : Self.Elems) → i < row_count → Self.cells e ≡ Self.shows columns.now i → V.may_be visitor i e }
        ensures { V.gives visitor result };
}

impl IndexedElementTuple for () {
    fn visit_rows<V: RowsVisitor<()>>(_columns: &(), row_count: usize, visitor: V) -> V::Output {
        visitor.visit(NoArguments { rows: row_count })
    }
}

impl<A: InputElement> IndexedElementTuple for (A,) {
    fn visit_rows<V: RowsVisitor<(A,)>>(
        columns: &(ArgColumn<A>,),
        row_count: usize,
        visitor: V,
    ) -> V::Output {
        columns.0.visit(row_count, Alone::<A, V>::new(visitor))
    }
}

impl<A: InputElement, B: InputElement> IndexedElementTuple for (A, B) {
    fn visit_rows<V: RowsVisitor<(A, B)>>(
        columns: &(ArgColumn<A>, ArgColumn<B>),
        row_count: usize,
        visitor: V,
    ) -> V::Output {
        let visitor = Two::<A, B, V>::new(visitor);
        columns
            .0
            .visit(row_count, Beside::new(&columns.1, row_count, visitor))
    }
}

impl<A: InputElement, B: InputElement, C: InputElement> IndexedElementTuple for (A, B, C) {
    fn visit_rows<V: RowsVisitor<(A, B, C)>>(
        columns: &(ArgColumn<A>, ArgColumn<B>, ArgColumn<C>),
        row_count: usize,
        visitor: V,
    ) -> V::Output {
        let visitor = Beside::new(&columns.2, row_count, Three::<A, B, C, V>::new(visitor));
        columns
            .0
            .visit(row_count, Beside::new(&columns.1, row_count, visitor))
    }
}

impl<A: InputElement, B: InputElement, C: InputElement, D: InputElement> IndexedElementTuple
    for (A, B, C, D) {
    fn visit_rows<V: RowsVisitor<(A, B, C, D)>>(
        columns: &(ArgColumn<A>, ArgColumn<B>, ArgColumn<C>, ArgColumn<D>),
        row_count: usize,
        visitor: V,
    ) -> V::Output {
        let visitor = Beside::new(&columns.3, row_count, Four::<A, B, C, D, V>::new(visitor));
        let visitor = Beside::new(&columns.2, row_count, visitor);
        columns
            .0
            .visit(row_count, Beside::new(&columns.1, row_count, visitor))
    }
}
