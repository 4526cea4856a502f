//! Tests of the program's call: what its input and output don't show. They are how it reads and writes in pieces and where its source or its
//! sink fails, how often the engine is called, names, and texts of types that no function of the program answers. Cases that the
//! program shows by itself stand in tests/cases.
#![tactic(auto)]

#[cfg(test)]
mod calls;
#[cfg(test)]
mod failing;
#[cfg(test)]
mod names;
#[cfg(test)]
mod texts;
