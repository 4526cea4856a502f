// A row of two tuples, or of an argument and those before it, is read from a source of each: the loop over the pairs is
// made for the types of both, so that neither is told apart in the loop.
ghost use Rattle.std.specs.Prelude.{◌≡◌};

use bitlane::IndexedSource;

/// The items of two sources side by side.
#[derive(Drop)]
pub(crate) struct SideBySide<S: IndexedSource, R: IndexedSource> {
    pub first: S,
    pub second: R,
    pub ghost equal: { S.count first ≡ R.count second },
}

impl<S: IndexedSource + Drop, R: IndexedSource + Drop> IndexedSource for SideBySide<S, R> {
    type Item = (S::Item, R::Item);

    ghost count = { λ s. S.count s.first };

    ghost item_at = { λ s i e. S.item_at s.first i e.0 × R.item_at s.second i e.1 };

    fn len(&self) -> usize {
        self.first.len()
    }

    fn get(&self, index: usize) -> (S::Item, R::Item) {
        (self.first.get(index), self.second.get(index))
    }
}
