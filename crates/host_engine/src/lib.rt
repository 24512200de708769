//! The engine of the program: what its commands say over files, an input and an output.
#![tactic(auto)]

mod closing;
mod decoding;
mod describing;
mod faults;
mod file_commands;
mod files;
mod inputs;
mod lines;
mod listings;
mod preparing;
mod printing;
mod replaying;
mod replies;
mod statuses;
mod tool;
mod values;
mod words;

pub use closing::close;
pub use faults::Cut;
pub use inputs::How;
pub use statuses::Status;
pub use tool::{conclude, no_form_refuses, one_said, some_said, tool_main};
pub use values::{Rest, ValueWhy, put_values};
