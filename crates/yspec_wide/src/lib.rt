//! Definitions of the wide language's first step: the language as a parameter, versions of YANG, and features. They stand in
//! `specs/`, over those of `yspec`; the functions here have no code, and their contracts are laws, and worked examples, which
//! compute both sides.
#![tactic(auto)]

pub mod anything;
pub mod binaries;
pub mod expressions;
pub mod extending;
pub mod features;
pub mod guards;
pub mod laws;
pub mod operations;
pub mod patterns;
pub mod referring;
pub mod restricting;
pub mod standing;
pub mod versions;
