//! The values of an item, and the nodes that carry them.
#![tactic(auto)]

mod laws;
mod nodes;
mod tables;
#[cfg(test)]
mod tests;
mod values;

pub use laws::{nodes_come_back, one_reading, values_come_back};
pub use nodes::node_of;
pub use values::{DataFault, values_of};
