//! Row functions for tests and measurements, each written once. Each shows a visit, a policy, a label, an element, evidence or
//! a refusal that no other does; a function that the program knows as well is taken from `rowsample`. Some count the calls of their
//! callbacks or note what they are given, which no contract can say.
#![tactic(auto)]

mod calls;
mod flags;
mod labelled;
mod lengths;
mod measured;
mod ordered;
mod picky;
mod scales;
mod seven;
mod small;
mod sum_prepared;
mod sum_valid;
mod valid_number;

pub use calls::Calls;
pub use flags::Flags;
pub use labelled::Labelled;
pub use lengths::Lengths;
pub use measured::{Direct, Measured};
pub use ordered::Ordered;
pub use picky::Picky;
pub use scales::Scales;
pub use seven::Seven;
pub use small::{Deferral, Small};
pub use sum_prepared::SumPrepared;
pub use sum_valid::SumValid;
pub use valid_number::ValidNumber;
