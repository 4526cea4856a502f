// The sources of an argument: a slice where the values lie side by side, the decoded column else, and one value in
// each row. Each is a type of its own, so that a loop over it tests nothing.
ghost use Rattle.std.specs.Prelude.{◌≡◌};

use crate::element::InputElement;
use bitlane::IndexedSource;

/// The values of a decoded column that lie side by side.
#[derive(Drop)]
pub(crate) struct Values<'a, T: InputElement> {
    pub values: &'a [T::Elem],
}

impl<'a, T: InputElement> IndexedSource for Values<'a, T> {
    ghost use Rattle.std.specs.Prelude.{◌≡◌, length, slice_index_or};

    type Item = T::Elem;

    ghost count = { λ s. length s.values.now };

    ghost item_at = { λ s i e. (d : T.Elem) → T.cell e ≡ T.cell (slice_index_or s.values.now i d) };

    fn len(&self) -> usize {
        self.values.len()
    }

    fn get(&self, index: usize) -> T::Elem {
        T::again(&self.values[index])
    }
}

/// The rows of a decoded column.
#[derive(Drop)]
pub(crate) struct ColumnRows<'a, T: InputElement> {
    pub column: &'a T::Column,
}

impl<'a, T: InputElement> IndexedSource for ColumnRows<'a, T> {
    ghost use Rattle.std.specs.Prelude.{◌≡◌};

    type Item = T::Elem;

    ghost count = { λ s. T.count s.column.now };

    ghost item_at = { λ s i e. T.cell e ≡ T.shows s.column.now i };

    fn len(&self) -> usize {
        T::column_len(self.column)
    }

    fn get(&self, index: usize) -> T::Elem {
        T::get(self.column, index)
    }
}

/// One value in each row.
#[derive(Drop)]
pub(crate) struct Repeated<T: InputElement> {
    pub value: T::Elem,
    pub rows: usize,
}

impl<T: InputElement> IndexedSource for Repeated<T> {
    ghost use Rattle.std.specs.Prelude.{◌≡◌};

    type Item = T::Elem;

    ghost count = { λ s. s.rows };

    ghost item_at = { λ s i e. T.cell e ≡ T.cell s.value };

    fn len(&self) -> usize {
        self.rows
    }

    fn get(&self, _index: usize) -> T::Elem {
        T::again(&self.value)
    }
}
