//! A session over a live document: lines that ask, and what each is answered.
#![tactic(auto)]

mod copying;
mod parts;
mod past;
mod questions;
mod replying;
mod request;
mod rewinding;
mod session;
mod telling;
mod turning;

pub use past::{Later, Past, Since};
pub use request::{Request, request_of};
pub use session::Session;
pub use telling::Earlier;
