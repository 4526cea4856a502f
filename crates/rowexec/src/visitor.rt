//! The visitor that runs a row function over a domain of rows. What it needs of the columns is its `ready`, and what it leaves its
//! `gives`, so that `batch` knows no type of an element.
mod decode;
mod execute;
mod visited;

pub(crate) use execute::ExecuteRows;
pub(crate) use visited::Visited;
