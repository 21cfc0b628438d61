//! Identifiers, names with a prefix, and texts parted at ASCII characters (RFC 7950, 6.2).
#![tactic(auto)]

mod cut;
mod name;

pub use cut::{offset_of, parts_around};
pub use name::{is_digit, is_identifier, is_name};
