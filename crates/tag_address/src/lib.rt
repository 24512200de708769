//! Tags and URLs: texts that name the items of a device, and devices.
#![tactic(auto)]

mod laws;
mod modbus_tags;
mod numbers;
mod printing;
mod tags;
#[cfg(test)]
mod tests;
mod urls;
mod words;

pub use laws::{one_fault, one_tag, one_url_fault, printed_is_read};
pub use printing::print_tag;
pub use tags::{TagFault, TagKind, TagWhy, read_tag};
pub use urls::{Url, UrlFault, read_url};
