//! Expressions that types ask of texts.

/// An expression that the texts of a type match, or that they don't match where it is inverted (RFC 7950, 9.4.5 and 9.4.6).
#[derive(Clone, Copy, Debug)]
pub struct Matching<'a> {
    pub expression: &'a str,
    pub inverted: bool,
}
