//! Tests of sources, sinks and top calls: what they do where a call fails, the texts of their errors, and that memory that is
//! there is used.
#![tactic(auto)]

#[cfg(test)]
mod tests;
#[cfg(test)]
mod top_call_tests;
