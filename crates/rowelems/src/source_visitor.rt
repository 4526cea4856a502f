// The trait of loops over an argument. A method with a type parameter for the source, since a closure can't have one.
ghost use Rattle.std.specs.Prelude.{◌≡◌, ◌<◌, ℕ};

use bitlane::IndexedSource;

/// A loop over items that are read by their index, which is run over whichever source reads them fastest.
///
/// Whether an argument is one value or a column, and what a column's buffer is, is told once, before the loop: the
/// caller picks the type of the source, and each type has a loop of its own. This trait is this project's own.
pub trait SourceVisitor<E: Drop>: Sized + Drop {
    /// What the loop makes.
    type Output: Drop;

    // How many items are asked for, and which items may stand at an index.
    ghost rows: { Self → ℕ };

    ghost may_be: { Self → ℕ → E → Type 0 };

    // What the maker of the visitor has seen to.
    ghost ready: { Self → Type 0 };

    // What the visitor answers.
    ghost gives: { Self → Self.Output → Type 0 };

    /// Runs the loop over the items of a source.
    fn visit<S: IndexedSource<Item = E> + Drop>(self, source: S) -> Self::Output
        requires ready { ready self }
        requires count { S.count source ≡ rows self }
        requires items { (i : ℕ) (e : E) → i < rows self → S.item_at source i e → may_be self i e }
        ensures { gives self result };
}
