//! The command line of the program: which words ask for what, by `clap`.
#![tactic(auto)]

mod arguments;
mod command;
mod help;

pub use command::{Asked, CommandLine, NoRequest, Opening, Options, Request, read_words};
