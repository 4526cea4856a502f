//! Shared lists of truth values, and loops over items that are read by their index.
#![tactic(auto)]

mod bits;
mod collect;
mod failure_evidence;
mod indexed_source;
mod map;
mod set_indices;

pub use bits::BitBuffer;
pub use failure_evidence::{FailureEvidence, NoFailure};
pub use indexed_source::IndexedSource;
pub use map::{map_checked_into, map_collect, map_into};
pub use set_indices::SetIndices;
