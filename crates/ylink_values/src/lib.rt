//! The values that types have: ranges, lengths and patterns that restrict them, and the names that enumerations and bits have
//! (RFC 7950, 9.2.4, 9.4.4, 9.4.5, 9.6.4 and 9.7.4).
#![tactic(auto)]

mod expressions;
mod kept;
mod limit;
mod matching;
mod naming;
mod restricting;

pub use expressions::Expressions;
pub use kept::Kept;
pub use limit::{accepted_type, measured_type, narrowed_type, ranged_type};
pub use matching::{is_pattern_statement, matched_type};
pub use naming::{NamingKind, named_type};
pub use restricting::renamed_type;
