//! The request table of one connection: who holds a lease on it, which requests are under way, which
//! frame ends which, and the journal of all that happened.
#![tactic(auto)]

mod answers;
mod conn;
mod drafts;
mod ends;
mod entries;
mod frames;
mod handed;
mod kept;
mod laws;
mod requests;
mod settings;
mod table;
#[cfg(test)]
mod tests;
#[cfg(test)]
mod wire_tests;

pub use answers::{
    Accepted, AskRefusal, CancelRefusal, FrameAnswer, FrameRefusal, LeaseRefusal, SendRefusal,
    Sending, SubmitRefusal, Ticked,
};
pub use conn::ConnState;
pub use entries::{Answer, Entry, EntryList, Event};
pub use laws::{
    entries_by_places, handed_out_by_places, open_by_steps, requests_by_places, table_by_places,
    table_by_turns,
};
pub use lease_core::{LeaseAnswer, LeaseState};
pub use settings::{Key, Settings};
pub use txn_core::TakeRefusal;
