//! The listing of a value: a line for each leaf of it, `PATH = VALUE`, and one for each case that was chosen, `PATH : CASE`.
//!
//! `specs/Listings` says by the syntax what the listing of a value is.
#![tactic(auto)]

mod laws;
mod leaves;
mod listings;
mod paths;
#[cfg(test)]
mod tests;

pub use laws::{each_leaf_has_a_line, each_line_has_its_path, lines_are_plain, one_list_of_lines};
pub use listings::add_listing;
