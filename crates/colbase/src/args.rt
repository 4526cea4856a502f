// The arguments of a call. That each column has `row_count` rows is tested by the call, not here.
ghost use Rattle.std.specs.Prelude.{◌≡◌, ◌<◌, length, Some, slice_get};

use crate::array::ArrayRef;
use shared::Items;

/// The argument columns of a call, and the number of their rows.
///
/// Nothing here says that each column has that many rows.
#[derive(Drop)]
pub struct ExecutionArgs {
    columns: Items<ArrayRef>,
    row_count: usize,
}

impl ExecutionArgs {
    pub fn new(columns: Vec<ArrayRef>, row_count: usize) -> ExecutionArgs
        ensures columns { result.columns ≡ columns.items }
        ensures row_count { result.row_count ≡ row_count }
    {
        ExecutionArgs {
            columns: Items::from_vec(columns),
            row_count,
        }
    }

    pub fn num_inputs(&self) -> usize
        ensures { result ≡ length self.now.columns }
    {
        self.columns.len()
    }

    pub fn row_count(&self) -> usize
        ensures { result ≡ self.now.row_count }
    {
        self.row_count
    }

    pub fn columns(&self) -> &[ArrayRef]
        ensures { result.now ≡ self.now.columns }
    {
        self.columns.as_slice()
    }

    pub fn get(&self, index: usize) -> &ArrayRef
        requires { index < length self.now.columns }
        ensures { slice_get self.now.columns index ≡ Some result.now }
    {
        &self.columns.as_slice()[index]
    }
}
