//! Ranges and lengths: sets of whole numbers (RFC 7950, 9.2.4, 9.3.4 and 9.4.4).

ghost use Rattle.std.specs.Prelude.{◌≡◌, ◌&&◌, IfOk};
ghost use Rattle.yspec.specs.types.Ranges.{lies_in, holds};

use std::alloc::AllocError;
use std::marker::Model;

/// The whole numbers from one to another, both included.
#[derive(Debug, Drop)]
pub struct Part {
    low: i128,
    high: i128,
}

impl Model for Part {
    ghost use Rattle.yspec.specs.types.Ranges as ranges;

    ghost Value = { ranges.Part };

    ghost view = { λ p. record { low = p.low; high = p.high } };

    ghost inverse = { λ p. record { low = p.low; high = p.high } };
}

impl Clone for Part {
    ghost use Rattle.std.specs.Prelude.{◌≡◌};

    ghost is_clone = { λ part copy. copy ≡ part };

    fn clone(&self) -> Result<Part, AllocError>
        ensures { IfOk result (λ copy. copy ≡ self.now) }
    {
        Ok(*self)
    }
}

impl Copy for Part {}

impl Part {
    /// The numbers from `low` to `high`; none where `high` is below `low`.
    pub fn new(low: i128, high: i128) -> Part
        ensures { result ≡ record { low = low; high = high } }
    {
        Part { low, high }
    }

    pub fn low(&self) -> i128
        ensures { result ≡ self.now.low }
    {
        self.low
    }

    pub fn high(&self) -> i128
        ensures { result ≡ self.now.high }
    {
        self.high
    }

    pub fn contains(&self, number: i128) -> bool
        ensures { result ≡ lies_in number self.now }
    {
        self.low <= number && number <= self.high
    }
}

/// A set of whole numbers: those of its parts.
#[derive(Debug, Drop)]
pub struct Range {
    parts: Vec<Part>,
}

impl Model for Range {
    ghost use Rattle.std.specs.Prelude.{List};
    ghost use Rattle.yspec.specs.types.Ranges as ranges;

    ghost Value = { List ranges.Part };

    ghost view = { λ r. r.parts.items };
}

impl Clone for Range {
    ghost use Rattle.std.specs.Prelude.{◌≡◌};

    ghost is_clone = { λ range copy. copy ≡ range };

    fn clone(&self) -> Result<Range, AllocError>
        ensures { IfOk result (λ copy. copy ≡ self.now) }
    {
        Ok(Range {
            parts: self.parts.clone()?,
        })
    }
}

impl Range {
    /// The numbers of these parts.
    pub fn new(parts: Vec<Part>) -> Range
        ensures { result ≡ parts.items }
    {
        Range { parts }
    }

    pub fn parts(&self) -> &[Part]
        ensures { result.now ≡ self.now }
    {
        &self.parts
    }

    /// Whether a number lies within a part.
    pub fn holds(&self, number: i128) -> bool
        ensures { result ≡ holds self.now number }
    {
        self.parts.iter().any(|part| part.contains(number))
    }
}
