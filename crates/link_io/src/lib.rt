//! Streams and files behind traits that count their faults, in memory and for real.
//!
//! A contract over these traits can say what was taken and put where the stream tells it, and always why a
//! call failed: a count of faults that never falls has risen.
#![tactic(auto)]

mod calls;
mod counts;
mod file_shelves;
mod mem_shelves;
mod mem_sinks;
mod mem_sources;
mod pieces;
mod retries;
mod std_streams;
#[cfg(test)]
mod tests;
mod texts;
mod traits;

pub use file_shelves::FileShelf;
pub use mem_shelves::MemShelf;
pub use mem_sinks::MemSink;
pub use mem_sources::MemSource;
pub use std_streams::{StdSink, StdSource};
pub use texts::StringList;
pub use traits::{Failed, Shelf, Sink, Source};
