//! What a document has at a leaf.

ghost use Rattle.std.specs.Prelude.{◌≡◌, IfOk};

use std::alloc::AllocError;

/// A leaf's value as a document writes it (RFC 7951, 6): a whole number from -2^63 to 2^64 - 1 as `Int`, `[null]` as
/// `Empty`.
#[derive(Debug, Drop)]
pub enum Raw {
    Text(String),
    Int(i128),
    Bool(bool),
    Empty,
}

impl Clone for Raw {
    ghost use Rattle.ytype_simple.specs.View.{raw_of};

    ghost is_clone = { λ raw copy. raw_of copy ≡ raw_of raw };

    fn clone(&self) -> Result<Raw, AllocError>
        ensures { IfOk result (λ raw. raw_of raw ≡ raw_of self.now) }
    {
        match self {
            Raw::Text(text) => Ok(Raw::Text(text.clone()?)),
            Raw::Int(number) => Ok(Raw::Int(*number)),
            Raw::Bool(flag) => Ok(Raw::Bool(*flag)),
            Raw::Empty => Ok(Raw::Empty),
        }
    }
}
