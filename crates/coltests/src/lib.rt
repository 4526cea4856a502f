//! Tests of columns and of what they are made of. They show what no contract says: that memory that is there is used, on every
//! layout, what an iterator and a hash come to, and that generic calls serve at concrete types.
#![tactic(auto)]

#[cfg(test)]
mod array_tests;
#[cfg(test)]
mod bit_tests;
#[cfg(test)]
mod layouts;
#[cfg(test)]
mod owner_tests;
#[cfg(test)]
mod scalar_tests;
#[cfg(test)]
mod text_tests;
#[cfg(test)]
mod type_tests;
