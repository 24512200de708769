//! A simulated device that answers requests of Modbus over an image of its lists, as the MODBUS Application Protocol V1.1b3 says.
//! `specs/Devices.antt` has the definitions.
#![tactic(auto)]

mod answers;
mod functions;
mod images;
mod requests;
mod sims;
#[cfg(test)]
mod tests;

pub use images::{FlagList, Image, WordList};
pub use sims::Sim;
