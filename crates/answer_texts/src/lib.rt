//! How the answers of a request table are spelled: one line each, of words that stand apart by one space where no frame and no
//! item's values are empty.
#![tactic(auto)]

mod additions;
mod answers;
mod laws;
mod outcomes;
mod reasons;
#[cfg(test)]
mod tests;
mod values;

pub use additions::{
    add_asked, add_cancelled, add_collected, add_outcome, add_polled, add_received, add_released,
    add_sent, add_stopped, add_submitted, add_ticked,
};
pub use laws::{answers_are_lines, words_stand_apart};
pub use reasons::read_why_text;
