// Visitors of rows as visitors of items side by side: a pair, and a pair of a pair and a third, become tuples.
ghost use Rattle.std.specs.Prelude.{◌≡◌};

use crate::rows_visitor::RowsVisitor;
use bitlane::IndexedSource;
use rowelems::{InputElement, SourceVisitor};
use std::marker::PhantomData;

/// Rows of one argument.
#[derive(Drop)]
pub(super) struct Alone<A, V> {
    visitor: V,
    element: PhantomData<A>,
}

impl<A: InputElement, V: RowsVisitor<(A,)>> Alone<A, V> {
    pub fn new(visitor: V) -> Alone<A, V>
        ensures { result.visitor ≡ visitor }
    {
        Alone {
            visitor,
            element: PhantomData,
        }
    }
}

impl<A: InputElement, V: RowsVisitor<(A,)>> SourceVisitor<A::Elem> for Alone<A, V> {
    type Output = V::Output;

    ghost rows = { λ s. V.rows s.visitor };

    ghost may_be = { λ s i x. V.may_be s.visitor i (record { 0 = x }) };

    ghost ready = { λ s. V.ready s.visitor };

    ghost gives = { λ s r. V.gives s.visitor r };

    fn visit<S: IndexedSource<Item = A::Elem> + Drop>(self, source: S) -> V::Output {
        self.visitor.visit(Singles { source })
    }
}

/// The items of a source as tuples of one.
#[derive(Drop)]
struct Singles<S> {
    source: S,
}

impl<S: IndexedSource> IndexedSource for Singles<S> {
    type Item = (S::Item,);

    ghost count = { λ s. S.count s.source };

    ghost item_at = { λ s i e. S.item_at s.source i e.0 };

    fn len(&self) -> usize {
        self.source.len()
    }

    fn get(&self, index: usize) -> (S::Item,) {
        (self.source.get(index),)
    }
}

/// Rows of two arguments.
#[derive(Drop)]
pub(super) struct Two<A, B, V> {
    visitor: V,
    elements: PhantomData<(A, B)>,
}

impl<A: InputElement, B: InputElement, V: RowsVisitor<(A, B)>> Two<A, B, V> {
    pub fn new(visitor: V) -> Two<A, B, V>
        ensures { result.visitor ≡ visitor }
    {
        Two {
            visitor,
            elements: PhantomData,
        }
    }
}

impl<A: InputElement, B: InputElement, V: RowsVisitor<(A, B)>> SourceVisitor<(A::Elem, B::Elem)>
    for Two<A, B, V> {
    type Output = V::Output;

    ghost rows = { λ s. V.rows s.visitor };

    ghost may_be = { λ s i x. V.may_be s.visitor i x };

    ghost ready = { λ s. V.ready s.visitor };

    ghost gives = { λ s r. V.gives s.visitor r };

    fn visit<S: IndexedSource<Item = (A::Elem, B::Elem)> + Drop>(self, source: S) -> V::Output {
        self.visitor.visit(source)
    }
}

/// Rows of three arguments.
#[derive(Drop)]
pub(super) struct Three<A, B, C, V> {
    visitor: V,
    elements: PhantomData<(A, B, C)>,
}

impl<A: InputElement, B: InputElement, C: InputElement, V: RowsVisitor<(A, B, C)>> Three<
    A,
    B,
    C,
    V,
> {
    pub fn new(visitor: V) -> Three<A, B, C, V>
        ensures { result.visitor ≡ visitor }
    {
        Three {
            visitor,
            elements: PhantomData,
        }
    }
}

impl<A: InputElement, B: InputElement, C: InputElement, V: RowsVisitor<(A, B, C)>> SourceVisitor<
    ((A::Elem, B::Elem), C::Elem),
> for Three<A, B, C, V> {
    type Output = V::Output;

    ghost rows = { λ s. V.rows s.visitor };

    ghost may_be = { λ s i x. V.may_be s.visitor i (x.0.0, x.0.1, x.1) };

    ghost ready = { λ s. V.ready s.visitor };

    ghost gives = { λ s r. V.gives s.visitor r };

    fn visit<S: IndexedSource<Item = ((A::Elem, B::Elem), C::Elem)> + Drop>(
        self,
        source: S,
    ) -> V::Output {
        self.visitor.visit(Triples { source })
    }
}

/// The items of a source of a pair and a third as tuples of three.
#[derive(Drop)]
struct Triples<S> {
    source: S,
}

impl<X: Drop, Y: Drop, Z: Drop, S: IndexedSource<Item = ((X, Y), Z)>> IndexedSource for Triples<S> {
    type Item = (X, Y, Z);

    ghost count = { λ s. S.count s.source };

    ghost item_at = { λ s i e. S.item_at s.source i ((e.0, e.1), e.2) };

    fn len(&self) -> usize {
        self.source.len()
    }

    fn get(&self, index: usize) -> (X, Y, Z) {
        let ((x, y), z) = self.source.get(index);
        (x, y, z)
    }
}

/// Rows of four arguments.
#[derive(Drop)]
pub(super) struct Four<A, B, C, D, V> {
    visitor: V,
    elements: PhantomData<(A, B, C, D)>,
}

impl<
    A: InputElement,
    B: InputElement,
    C: InputElement,
    D: InputElement,
    V: RowsVisitor<(A, B, C, D)>,
> Four<A, B, C, D, V> {
    pub fn new(visitor: V) -> Four<A, B, C, D, V>
        ensures { result.visitor ≡ visitor }
    {
        Four {
            visitor,
            elements: PhantomData,
        }
    }
}

impl<
    A: InputElement,
    B: InputElement,
    C: InputElement,
    D: InputElement,
    V: RowsVisitor<(A, B, C, D)>,
> SourceVisitor<(((A::Elem, B::Elem), C::Elem), D::Elem)> for Four<A, B, C, D, V> {
    type Output = V::Output;

    ghost rows = { λ s. V.rows s.visitor };

    ghost may_be = { λ s i x. V.may_be s.visitor i (x.0.0.0, x.0.0.1, x.0.1, x.1) };

    ghost ready = { λ s. V.ready s.visitor };

    ghost gives = { λ s r. V.gives s.visitor r };

    fn visit<S: IndexedSource<Item = (((A::Elem, B::Elem), C::Elem), D::Elem)> + Drop>(
        self,
        source: S,
    ) -> V::Output {
        self.visitor.visit(Quadruples { source })
    }
}

/// The items of a source of nested pairs as tuples of four.
#[derive(Drop)]
struct Quadruples<S> {
    source: S,
}

impl<X: Drop, Y: Drop, Z: Drop, W: Drop, S: IndexedSource<Item = (((X, Y), Z), W)>> IndexedSource
    for Quadruples<S> {
    type Item = (X, Y, Z, W);

    ghost count = { λ s. S.count s.source };

    ghost item_at = { λ s i e. S.item_at s.source i (((e.0, e.1), e.2), e.3) };

    fn len(&self) -> usize {
        self.source.len()
    }

    fn get(&self, index: usize) -> (X, Y, Z, W) {
        let (((x, y), z), w) = self.source.get(index);
        (x, y, z, w)
    }
}

/// As many rows of no argument.
#[derive(Drop)]
pub(super) struct NoArguments {
    pub rows: usize,
}

impl IndexedSource for NoArguments {
    ghost use Rattle.std.specs.Prelude.{⊤};

    type Item = ();

    ghost count = { λ s. s.rows };

    ghost item_at = { λ s i e. ⊤ };

    fn len(&self) -> usize {
        self.rows
    }

    fn get(&self, _index: usize) {}
}
