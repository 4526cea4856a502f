//! Columns as JSON values state them, and the text of a column. The readers answer exactly what the definitions in specs/ give, so
//! that the rules of the input stand there alone; nothing here knows a row function.
#![tactic(auto)]

mod column;
mod print;
mod tree;

pub use column::{MAX_ROWS, columns_in};
pub use print::text_of;
pub use tree::{JsonStop, Stop, array_in, has_keys, integer_in, json_in, number_in, text_in};
