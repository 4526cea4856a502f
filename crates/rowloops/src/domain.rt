// Which rows of decoded columns a run goes over, and where its answers stand. The definition of each is `domain_of`.
ghost use Rattle.std.specs.Prelude.{◌≡◌};
ghost use Rattle.rowloops.specs.Domain.{domain_of};

use bitlane::BitBuffer;

/// The rows of decoded columns that run. A run answers with as many rows as there are, or as there are marks.
#[derive(Clone, Copy)]
pub enum RowDomain<'a> {
    /// All of so many rows.
    All(usize),
    /// The rows that are marked true, of columns as they are, decoded with their nulls.
    Marked(&'a BitBuffer),
    /// All rows of columns that were filtered to those marked true; each answer stands at the row that its arguments were filtered from.
    Filtered(&'a BitBuffer),
}

impl<'a> RowDomain<'a> {
    /// How many rows the decoded columns have.
    pub fn width(self) -> usize
        ensures { result ≡ (domain_of self.entry).width }
    {
        match self {
            RowDomain::All(rows) => rows,
            RowDomain::Marked(marks) => marks.len(),
            RowDomain::Filtered(marks) => marks.true_count(),
        }
    }
}
