//! The run over the rows of decoded arguments that a domain names: it calls a callback once for each of them, builds the column of the
//! answers, joins their evidence where there is any, and tells how often it called. One loop for each kind of domain goes over the rows.
//! They know no row function and no plan, so that they are proved beside those.
#![tactic(auto)]

mod attempt;
mod checked;
mod domain;
mod filtered;
mod owned;
mod packed_bool;
mod valid_rows;

pub use attempt::Attempt;
pub use domain::RowDomain;
pub use owned::execute_owned;
pub use packed_bool::execute_owned_bool;
