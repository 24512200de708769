//! What goes over a wire: the asks of callers, the frames that carry them, what comes back, and the
//! trait `Wire`, by which a request table uses a protocol without knowing it.
#![tactic(auto)]

mod asks;
mod ends;
mod framing;
#[cfg(test)]
mod framing_tests;
mod kinds;
mod laws;
mod raw;
#[cfg(test)]
mod tests;
mod wires;

pub use asks::{Ask, ItemList, ValueList, ValueRows};
pub use ends::{EndKind, FrameWhy, Outcome, Reason};
pub use framing::{Framed, Framer};
pub use kinds::{Area, Item, PlcType, PlcValue};
pub use laws::{frames_in_any_cut, one_framing, raw_frames_carry, some_framing};
pub use raw::RawWire;
pub use wires::{FrameFault, LengthRule, Reply, ReplyFault, Wire};
