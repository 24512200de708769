//! What may be wrong with a description, and the rules of checking that need no ranges of expressions: names that stand twice, types,
//! widths, orders of bytes, literals, switches, numbers of arguments, and limits.
//!
//! `specs/` has the definitions: `Wrongs` says which of all that is wrong is told, `Names`, `Types`, `Literals`, `Switches` and `Limits`
//! have a clause for each rule, and `Rules` is all of them.
#![tactic(auto)]

mod laws;
mod limits;
mod literals;
mod names;
mod parts;
mod rules;
mod switches;
#[cfg(test)]
mod tests;
mod titles;
mod types;
mod walks;
mod wrongs;

pub use laws::the_first_is_told;
pub use limits::{MOST_CASES, MOST_DEFS, MOST_FIELDS, MOST_PARAMS};
pub use parts::MOST_PARTS;
pub use rules::type_wrong;
pub use walks::told_of_all;
pub use wrongs::{
    CheckWhy, Rule, Wrong, before, earlier, expr_wrong, matters, rule_of, told_if, told_when,
};
