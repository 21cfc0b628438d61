//! Numbers of types: their texts, the ranges and lengths that restrict them, and the names that stand for them; regular
//! expressions.
#![tactic(auto)]

mod bits;
mod decimal;
mod digits;
mod error_text;
mod expression;
mod fault;
mod left;
mod name;
mod named;
mod names;
mod numeral;
mod range;
mod restriction;

pub use bits::positions_in;
pub use decimal::{decimal_text, integer_text};
pub use digits::FractionDigits;
pub use error_text::ErrorText;
pub use expression::Expression;
pub use fault::NarrowFault;
pub use left::names_left;
pub use name::{Naming, bit_names, enum_names};
pub use named::{bits_text, name_of_number};
pub use names::Names;
pub use numeral::{decimal_in, default_integer_in, integer_in};
pub use range::{Part, Range};
pub use restriction::{Bound, Restriction, Span, restricted};
