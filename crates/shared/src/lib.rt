//! Values with several owners, and lists that contracts see as their elements.
//!
//! [`Shared`] is a counted owner whose `share` cannot fail, [`Items`] is a `Vec` that contracts see as its
//! list, and [`SharedSlice`] is a range of a shared list, which is cut and shared without copying.
//! All three may stand in recursive types.
#![tactic(auto)]

mod counted;
mod items;
mod shared;
mod shared_slice;

pub use items::{Items, at};
pub use shared::Shared;
pub use shared_slice::SharedSlice;
