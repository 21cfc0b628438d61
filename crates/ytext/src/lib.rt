//! Module text: from bytes to statements.
#![tactic(auto)]

mod cause;
mod cursor;
mod fault;
mod lexeme;
mod quoted;
mod reader;
mod scan;
mod scanner;
mod statement;
mod text;
mod token;
mod version;

pub use fault::{TextCode, TextFault};
pub use scan::is_white;
pub use scanner::Tokens;
pub use statement::{Module, Stmt};
pub use text::{parse, parse_in, tokens};
pub use token::{Token, TokenKind};
pub use ybase_names::{is_digit, is_identifier, is_name, offset_of, parts_around};
pub use ybase_output::{CallCount, Cut, Sink, SinkFault, write_all, write_texts};
