//! The row functions that the program knows, each with its meaning stated over plain cells in specs/.
#![tactic(auto)]

mod checked_add;
mod evidence;
mod label;
mod rescale;
mod truncate;
mod wrapping_add;

pub use checked_add::CheckedAdd;
pub use rescale::Rescale;
pub use truncate::{Truncate, TruncateOptions};
pub use wrapping_add::WrappingAdd;
