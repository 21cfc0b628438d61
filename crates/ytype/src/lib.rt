//! Types and the values that they take (RFC 7950, 9).
#![tactic(auto)]

mod fault;
mod members;
mod val;
mod ytype;

pub use fault::BadValue;
pub use val::Val;
pub use ytype::YType;
pub use ytype_numbers::{
    Bound, ErrorText, Expression, FractionDigits, Names, Naming, NarrowFault, Part, Range,
    Restriction, Span,
};
pub use ytype_simple::{
    Base, Identities, Integer, Matching, ModuleNames, Raw, SimpleType, cut_at_colon, identity_name,
};
