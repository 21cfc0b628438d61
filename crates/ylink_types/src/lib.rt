//! What `type` statements mean: built-in types with their restrictions, typedefs and identities (RFC 7950, 7.3, 7.4 and 9).
#![tactic(auto)]

mod derived;
mod identities;
mod typedefs;
mod types;

pub use identities::Identities;
pub use typedefs::Typedefs;
pub use types::{Meant, Member, Verdict, judge_type};
pub use ylink_values::{Expressions, Kept};
