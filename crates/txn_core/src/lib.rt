//! The rows of a request table: which requests are under way and whose, under which references they went
//! out, which reference is still awaited, and when they are due. It knows no wire and no value.
#![tactic(auto)]

mod kept;
mod laws;
mod marks;
mod phases;
mod table;
#[cfg(test)]
mod tests;

pub use laws::{ends_one_by_one, references_are_few};
pub use phases::{AddRefusal, Arrival, Phase, TakeRefusal};
pub use table::Rows;
