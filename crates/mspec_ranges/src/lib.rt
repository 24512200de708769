//! What an expression is, with the numbers that it may be, or what is wrong with it.
//!
//! The definitions are those of `mspec_expr` (`Ranges`). The code stands apart from them so that they aren't proved again with it.
#![tactic(auto)]

mod faults;
mod judging;
mod operators;
mod paths;
mod ranges;
mod spans;
#[cfg(test)]
mod tests;
mod verdicts;

pub use ranges::{kind_of, range_of};
