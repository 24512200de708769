//! Numbers at any bit of bytes: read, put in the place of others, and put one after another.
#![tactic(auto)]

mod laws;
mod numbers;
mod orders;
mod outputs;
#[cfg(test)]
mod tests;
mod windows;

pub use laws::{put_and_read, read_and_put};
pub use numbers::{MOST_BYTES, number_at, put_number};
pub use orders::Order;
pub use outputs::BitOut;
