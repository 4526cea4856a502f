// The trait of loops over the rows of a tuple. A method with a type parameter for the source, since a closure can't
// have one.
ghost use Rattle.std.specs.Prelude.{◌≡◌, ◌<◌, ℕ};

use crate::tuple::ElementTuple;
use bitlane::IndexedSource;

/// A loop over the rows of decoded arguments, which is run over whichever source reads them fastest.
///
/// It is what [`SourceVisitor`](crate::SourceVisitor) is, for the rows of a tuple. This trait is this project's own.
pub trait RowsVisitor<Args: ElementTuple>: Sized + Drop {
    /// What the loop makes.
    type Output: Drop;

    // How many rows are asked for, and which values may stand at a row.
    ghost rows: { Self → ℕ };

    ghost may_be: { Self → ℕ → Args.Elems → Type 0 };

    // What the maker of the visitor has seen to.
    ghost ready: { Self → Type 0 };

    // What the visitor answers.
    ghost gives: { Self → Self.Output → Type 0 };

    /// Runs the loop over the rows of a source.
    fn visit<S: IndexedSource<Item = Args::Elems> + Drop>(self, source: S) -> Self::Output
        requires ready { ready self }
        requires count { S.count source ≡ rows self }
        requires items { (i : ℕ) (e : Args.Elems) → i < rows self → S.item_at source i e → may_be self i e }
        ensures { gives self result };
}
