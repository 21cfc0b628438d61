//! What is said of a fault of a document to a person: where it is, by keys, and what is there or is missing.
#![tactic(auto)]

mod cases;
mod explanation;
mod fault;
mod fellows;
mod known;
mod laws;
mod others;
mod sentences;

pub use explanation::{
    explanation_of, explanation_with_fellow, fault_path, own_message, sentence,
    sentence_with_fellow, subject, write_fault_explanation,
};
pub use fault::ExplanationFault;
pub use known::{fellow_of, fellows_of};
pub use laws::{fellow_is_another, repeated_has_fellow};
pub use ysay_place::{keyed_path, position_path};
