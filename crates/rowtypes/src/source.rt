// The rows of a decoded tuple, as items that are read by their index. That each column has the rows is a ghost field,
// so that reading tests nothing.
ghost use Rattle.std.specs.Prelude.{◌≡◌, ℕ, true};
ghost use Rattle.rowtypes.specs.Rows.{each_length};

use crate::tuple::ElementTuple;
use bitlane::IndexedSource;

/// The rows of decoded arguments.
#[derive(Drop)]
pub struct ArgTupleSource<'a, Args: ElementTuple> {
    columns: &'a Args::Columns,
    row_count: usize,
    ghost lengths: { each_length row_count (Args.lengths columns.now) ≡ true },
}

impl<'a, Args: ElementTuple> ArgTupleSource<'a, Args> {
    /// The first `row_count` rows. The decoded columns have just as many.
    pub fn new(columns: &'a Args::Columns, row_count: usize) -> ArgTupleSource<'a, Args>
        requires { each_length row_count (Args.lengths columns.now) ≡ true }
        ensures columns { result.columns.now ≡ columns.now }
        ensures row_count { result.row_count ≡ row_count }
    {
        ArgTupleSource { columns, row_count }
    }
}

impl<'a, Args: ElementTuple> IndexedSource for ArgTupleSource<'a, Args> {
    type Item = Args::Elems;

    ghost count = { λ s. s.row_count };

    ghost item_at = { λ s i e. Args.cells e ≡ Args.shows s.columns.now i };

    fn len(&self) -> usize {
        self.row_count
    }

    fn get(&self, index: usize) -> Args::Elems {
        Args::get(self.columns, index)
    }
}
