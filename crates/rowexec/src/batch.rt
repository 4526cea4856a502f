//! A row function over whole columns: checks, plan, the choice of the rows that run, the runs, and the column that is answered. Each
//! stage has a file, whose contract is that stage's part of the clauses of `execute_rows`.
mod answer;
mod arguments;
mod call;
mod counted;
mod finish;
mod full_rows;
mod one_row;
mod plan;
mod retry;
mod run;
mod selection;
mod valid;

pub(crate) use call::full_mask;
pub use call::{execute_rows, row_fn_return_dtype};
pub use counted::{Counted, execute_rows_counted};
