//! The codes that the program prints: the cause of each, which line or place is told, what to do, and where the rule stands.
#![tactic(auto)]

mod explanation;
mod table;

pub use explanation::{
    Explanation, all_explanations, explain, explanations, first_unknown, write_explanation,
    write_reason,
};
