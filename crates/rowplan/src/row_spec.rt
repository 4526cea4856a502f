// What a row function states of itself: its options, the names of its arguments and its law. It stands apart from `RowFn`, since a
// visitor is a visitor of laws.
ghost use Rattle.std.specs.Prelude.{◌≡◌, ℕ, Bool, List, length, map};

use crate::options_form::RowOptions;
use crate::texts::Texts;
use bitlane::FailureEvidence;
use std::fmt::Display;
use std::hash::Hash;

/// What a row function means, apart from how it is run.
///
/// Its law goes by the function's options and the logical types of its arguments, and says everything that a contract of a whole
/// column names: how rows are read, what a row comes to, and how failures are judged. A function is lawful by its `impl`: the
/// constructors of laws come with a proof of `lawful`, and [`RowFn::dispatch`](crate::RowFn::dispatch) hands a visitor
/// callbacks that compute the law's meaning.
pub trait RowSpec {
    ghost use Rattle.coltypes.specs.LogicalType.{LogicalType};
    ghost use Rattle.rowplan.specs.Law.{Lawful, RowLaw};

    type Options: RowOptions + Display + Eq + Hash + Drop;

    type Evidence: FailureEvidence;

    /// The names of the arguments, one for each.
    const ARG_NAMES: Texts;

    ghost ARG_NAMES: { List (List ℕ) };

    /// Whether no row fails.
    const INFALLIBLE: bool;

    ghost INFALLIBLE: { Bool };

    // What the function means at these options and types.
    ghost law: { Self.Options → List LogicalType → RowLaw Self.Evidence };

    /// The names of the arguments.
    fn names_of_arguments() -> &'static [&'static str]
        ensures names { map (λ name. name.now) result.now ≡ ARG_NAMES }
        ensures as_many { length result.now ≡ length ARG_NAMES }
    {
        Self::ARG_NAMES.list()
    }

    ghost lawful: { (o : Self.Options) (t : List LogicalType) → Lawful (law o t)
        (length ARG_NAMES) INFALLIBLE Self.Evidence.in_range Self.Evidence.join Self.Evidence.neutral };
}
