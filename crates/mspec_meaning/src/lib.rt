//! What bits mean by a description, in its plain and slow form.
#![tactic(auto)]

mod laws;
mod numbers;
mod readable;
mod reading;
#[cfg(test)]
mod tests;

pub use laws::{
    a_number_for_each_field, more_bits, one_reading, one_stream, some_reading, some_stream,
};
pub use readable::can_read;
pub use reading::read_plain;
