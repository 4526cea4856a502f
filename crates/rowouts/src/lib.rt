//! What row functions write: output elements, their buffers, and views of rows with their length and their defaults.
#![tactic(auto)]

mod fill_default;
mod output;
mod slice_rows;
mod view_len;

pub use fill_default::FillDefault;
pub use output::{ColumnValue, OutputBuffer, OutputElement, OutputSlots, build_from};
pub use slice_rows::{Preinitialized, SliceRows};
pub use view_len::ViewLen;
