//! What an edit of a live document may read, as a number: the definitions stand in `specs/`, over those of `yspec`. The
//! functions here have no code, and their contracts are laws, and worked examples, which compute both sides.
#![tactic(auto)]

pub mod laws;
pub mod reaching;
