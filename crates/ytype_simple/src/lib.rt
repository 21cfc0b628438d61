//! Types that are no unions: a built-in type with its restrictions, and what it takes (RFC 7950, 9).
#![tactic(auto)]

mod base;
mod canonical;
mod content;
mod identity;
mod matching;
mod octets;
mod raw;
mod simple;

pub use base::{Base, Integer};
pub use content::Content;
pub use identity::{Identities, ModuleNames, cut_at_colon, identity_name};
pub use matching::Matching;
pub use raw::Raw;
pub use simple::SimpleType;
