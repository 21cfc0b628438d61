//! Regular expressions of `pattern` statements (RFC 7950, 9.4.5): which texts they take.
#![tactic(auto)]

mod building;
mod classes;
mod copies;
mod fault;
pub mod laws;
mod limits;
mod pattern;
mod quantities;
mod reading;
mod sets;
mod symbols;
mod times;
mod whole;

pub use building::{Groups, Level, built, built_step};
pub use classes::{ClassState, Item, OpenClass, Pending, class_step};
pub use fault::PatternFault;
pub use pattern::Pattern;
pub use quantities::{Counting, Part, Token, part_step};
pub use sets::{class_of, within, without};
pub use symbols::{Escape, NamedSet, Symbol, escape_step};
pub use times::Times;
pub use whole::Whole;
