// How a loop over the rows of several arguments gets its source: each argument in turn is told to be one value or a
// column, and its source is put beside those before it.
ghost use Rattle.std.specs.Prelude.{◌≡◌, ◌<◌, ℕ, true};

use crate::two_sources::SideBySide;
use bitlane::IndexedSource;
use rowelems::{ArgColumn, InputElement, SourceVisitor};

/// Puts the source of the next argument beside a source, and runs a loop over both.
#[derive(Drop)]
pub(super) struct Beside<'a, T: InputElement, V> {
    next: &'a ArgColumn<T>,
    rows: usize,
    visitor: V,
}

impl<'a, T: InputElement, V> Beside<'a, T, V> {
    pub fn new(next: &'a ArgColumn<T>, rows: usize, visitor: V) -> Beside<'a, T, V>
        ensures next { result.next.now ≡ next.now }
        ensures rows { result.rows ≡ rows }
        ensures visitor { result.visitor ≡ visitor }
    {
        Beside {
            next,
            rows,
            visitor,
        }
    }
}

impl<'a, X: Drop, T: InputElement, V: SourceVisitor<(X, T::Elem)>> SourceVisitor<X>
    for Beside<'a, T, V> {
    ghost use Rattle.std.specs.Prelude.{◌≡◌, true};
    ghost use Rattle.rowelems.specs.Argument.{arg_length, arg_shows, is_length};

    type Output = V::Output;

    ghost rows = { λ s. s.rows };

    ghost may_be = { λ s i x. (y : T.Elem) → T.cell y ≡ arg_shows T.shows T.constant_cell s.next.now i → V.may_be s.visitor i (x, y) };

    ghost ready = { λ s. V.ready s.visitor × (V.rows s.visitor ≡ s.rows) × (is_length s.rows (arg_length T.count s.next.now) ≡ true) };

    ghost gives = { λ s r. V.gives s.visitor r };

    fn visit<S: IndexedSource<Item = X> + Drop>(self, source: S) -> V::Output {
        let Beside {
            next,
            rows,
            visitor,
        } = self;
        next.visit(
            rows,
            After {
                first: source,
                visitor,
            },
        )
    }
}

/// Runs a loop over a source that is there and the next one beside it.
#[derive(Drop)]
struct After<S, V> {
    first: S,
    visitor: V,
}

impl<S: IndexedSource + Drop, Y: Drop, V: SourceVisitor<(S::Item, Y)>> SourceVisitor<Y>
    for After<S, V> {
    ghost use Rattle.std.specs.Prelude.{◌≡◌};

    type Output = V::Output;

    ghost rows = { λ s. S.count s.first };

    ghost may_be = { λ s i y. (x : S.Item) → S.item_at s.first i x → V.may_be s.visitor i (x, y) };

    ghost ready = { λ s. V.ready s.visitor × (V.rows s.visitor ≡ S.count s.first) };

    ghost gives = { λ s r. V.gives s.visitor r };

    fn visit<R: IndexedSource<Item = Y> + Drop>(self, source: R) -> V::Output {
        let After { first, visitor } = self;
        visitor.visit(SideBySide {
            first,
            second: source,
        })
    }
}
