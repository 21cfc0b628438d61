//! What is told of the nodes of a document's rows that aren't stored, apart from what is told of those that are.
#![tactic(auto)]

mod laws;
mod worked;

pub use laws::{
    absences_in_order, cases_in_choices, counted_faults, defaults_in_play, listed_documents,
    merged_rows,
};
pub use worked::{worked_list, worked_rows};
