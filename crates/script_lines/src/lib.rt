//! The lines of a script that runs a request table, as commands.
#![tactic(auto)]

mod commands;
mod places;
mod reading;
mod spellings;
#[cfg(test)]
mod tests;
mod words;

pub use commands::{Call, Command, LineFault};
pub use reading::{command_or_none, one_command, read_command};
