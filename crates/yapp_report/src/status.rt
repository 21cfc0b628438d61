//! The exit statuses.

/// No fault, or help was asked for.
pub const GOOD: u8 = 0;

/// The document has faults, or an edit of it is refused.
pub const FAULTY: u8 = 1;

/// A module or a document is refused.
pub const REFUSED: u8 = 2;

/// The command line is refused.
pub const MISUSED: u8 = 3;

/// A file, a stream or memory failed.
pub const FAILED: u8 = 4;
