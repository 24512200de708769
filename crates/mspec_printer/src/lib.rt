//! The printed form of a description in mspec: one text for each syntax tree, places aside.
//!
//! A definition stands in brackets: its head on one line, each field on a line two blanks deeper, and the closing bracket on a
//! line of its own. Words stand apart by one blank, items after a comma and a blank. In an expression each operand that isn't
//! primary or dotted stands in parentheses.
#![tactic(auto)]

mod definitions;
mod exprs;
mod fields;
mod laws;
mod lists;
#[cfg(test)]
mod tests;
mod words;

pub use definitions::print_description;
pub use laws::parses_back;
