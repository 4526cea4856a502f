//! Tests of `rowplan`, `rowloops` and `rowexec` over the row functions of `rowcases` and `rowsample`. They show what no contract says: the
//! calls of callbacks by their own count, what `prepare` is given, layouts of answers, which of several arguments is named, and that
//! each visit and each loop runs at a concrete type with the memory that is there.
#![tactic(auto)]

#[cfg(test)]
mod batches;
#[cfg(test)]
mod columns;
#[cfg(test)]
mod constants;
#[cfg(test)]
#[cfg(test)]
mod loops;
#[cfg(test)]
mod payloads;
#[cfg(test)]
mod plans;
#[cfg(test)]
mod prepared;
#[cfg(test)]
mod refusals;
#[cfg(test)]
mod retry;
#[cfg(test)]
mod texts;
#[cfg(test)]
mod truths;
#[cfg(test)]
mod valid;
#[cfg(test)]
mod vtable;
