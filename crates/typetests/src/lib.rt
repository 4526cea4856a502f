//! Tests of elements, outputs and tuples: that memory which is there is used, which layouts outputs have, and generic code
//! over any tuple, which shows that the clauses of the traits suffice, called at concrete types. They stand in a crate of
//! their own, since a crate with tests is proved twice.
#![tactic(auto)]

#[cfg(test)]
mod columns;
#[cfg(test)]
mod elements;
#[cfg(test)]
mod generic;
#[cfg(test)]
mod outputs;
#[cfg(test)]
mod rows;
#[cfg(test)]
mod tuples;
