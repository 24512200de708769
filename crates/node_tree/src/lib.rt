//! Values that a description reads and writes, as trees of nodes, and the bits that bytes stand for.
#![tactic(auto)]

mod faults;
mod laws;
mod lists;
mod nodes;
mod readings;
#[cfg(test)]
mod tests;

pub use faults::{EvalFault, ReadFault, ReadWhy, WriteFault, WriteWhy};
pub use laws::{bits_by_bytes, little_numbers_by_bytes, numbers_by_bytes};
pub use lists::OwnedList;
pub use nodes::{ByteList, Node, NodeList};
pub use readings::{Reading, Span, SpanList};
