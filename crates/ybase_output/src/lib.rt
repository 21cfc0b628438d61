//! Where bytes are written to, and what of them was taken.
#![tactic(auto)]

mod count;
mod sink;

pub use count::CallCount;
pub use sink::{Cut, Sink, SinkFault, write_all, write_texts};
