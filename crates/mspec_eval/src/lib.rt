//! The value of an expression: a number, where a flag is 0 or 1, or why there is none. How many bits an entry has.
//!
//! The definitions are those of `mspec_expr` (`Values`, `Sizes`).
#![tactic(auto)]

mod entries;
mod evaluating;
mod paddings;
mod reckoning;
mod sizes;
#[cfg(test)]
mod tests;
mod things;
mod values;
mod views;

pub use sizes::entry_bits;
pub use values::{eval, evaluate};
pub use views::{Facts, View};
