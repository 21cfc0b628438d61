//! Definitions of the command that opens a session: what it comes to by the contents of its files, and how it ends. They stand in
//! `specs/`.
#![tactic(auto)]
