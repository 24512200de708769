//! Which descriptions are accepted: the rules of checking on expressions, with those on types below it, and the call `check`.
//!
//! `specs/` has the definitions: `Scopes` says what each expression sees, `Wants` which kinds fit a place; `Expressions`,
//! `Arguments`, `Paddings` and `Switches` have a clause for each rule, and `Fields` says where each holds.
#![tactic(auto)]

mod arguments;
mod checking;
mod expressions;
mod fields;
mod paddings;
mod scopes;
mod sites;
mod switches;
#[cfg(test)]
mod tests;
mod wants;

pub use checking::{CheckFault, Checked, check};
pub use mspec_rules::CheckWhy;
