//! Definitions of a session over a live document: what each request is answered, and what it leaves. They stand in `specs/`; the
//! functions here have no code, and their contracts are laws, and worked examples, which compute both sides.
#![tactic(auto)]

pub mod examples;
pub mod laws;
