//! Expressions of mspec, which stand in quotes.
//!
//! Parentheses may nest as deep as the text is long, so what is open is kept in a list, and nothing here calls itself.
#![tactic(auto)]

mod laws;
mod operands;
mod operators;
mod pending;
mod quotes;
mod steps;
#[cfg(test)]
mod tests;

pub use laws::one_expression;
pub use quotes::{QuoteFault, quoted};
