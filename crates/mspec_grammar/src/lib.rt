//! The grammar of mspec, as relations between a text's lexemes and a syntax tree, and where a text leaves it.
#![tactic(auto)]

mod faults;
mod senses;
mod words;

pub use faults::ParseWhy;
pub use senses::{Sense, sense_of};
pub use words::{Word, spells, taken_word};
