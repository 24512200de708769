//! Who holds a lease on a connection, and who waits for one.
#![tactic(auto)]

mod answers;
mod leases;
mod lists;
#[cfg(test)]
mod tests;

pub use answers::{LeaseAnswer, LeaseState, QueueFull};
pub use leases::Leases;
