//! Reads descriptions in mspec: from the tokens of a text to its syntax tree, or to the first token with which the text leaves
//! the grammar.
#![tactic(auto)]

mod definitions;
mod faults;
mod fields;
mod heads;
mod laws;
mod lists;
mod literals;
mod parsing;
mod switches;
#[cfg(test)]
mod tests;
mod tokens;
mod types;
mod words;

pub use faults::ParseFault;
pub use laws::{one_fault, one_tree, read_trees, stops_where_no_text_goes_on};
pub use parsing::parse;
