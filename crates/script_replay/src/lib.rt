//! Runs the lines of a script over a request table with the raw wire, and gives their answers.
#![tactic(auto)]

mod calls;
mod laws;
mod replays;
mod replies;
#[cfg(test)]
mod tests;

pub use laws::{
    answered_line_by_line, fronts_are_answered, keeps_a_legal_journal, one_script,
    refused_behind_answered, some_script,
};
pub use replays::{Replay, ScriptEnd};
