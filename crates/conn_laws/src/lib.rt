//! Laws of a connection's legal journals.
#![tactic(auto)]

mod broken;
mod calls;
mod drawing;
mod ends;
mod histories;
mod rows;

pub use broken::broken_journals;
pub use calls::calls_by_places;
pub use drawing::no_reference_is_exact;
pub use ends::ends_by_places;
pub use histories::history;
pub use rows::rows_until_collected;
