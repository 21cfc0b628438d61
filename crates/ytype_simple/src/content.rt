//! What a type makes of a value that it takes.

ghost use Rattle.std.specs.Prelude.{◌≡◌, IfOk};
ghost use Rattle.yspec.specs.types.Order.{kind_number, text_part, number_part, bits_part, content_cmp};

use std::alloc::AllocError;
use std::cmp::Ordering;

/// What a type makes of a value that it takes.
#[derive(Debug, Drop)]
pub enum Content {
    Text(String),
    Number(i128),
    Bool(bool),
    Empty,
    Bits(Vec<i64>),
    Octets(Vec<u8>),
}

impl Clone for Content {
    ghost use Rattle.std.specs.Prelude.{◌≡◌};
    ghost use Rattle.ytype_simple.specs.View.{content_of};

    ghost is_clone = { λ content copy. content_of copy ≡ content_of content };

    fn clone(&self) -> Result<Content, AllocError>
        ensures { IfOk result (λ copy. content_of copy ≡ content_of self.now) }
    {
        match self {
            Content::Text(text) => Ok(Content::Text(text.clone()?)),
            Content::Number(number) => Ok(Content::Number(*number)),
            Content::Bool(flag) => Ok(Content::Bool(*flag)),
            Content::Empty => Ok(Content::Empty),
            Content::Bits(positions) => Ok(Content::Bits(positions.clone()?)),
            Content::Octets(octets) => Ok(Content::Octets(octets.clone()?)),
        }
    }
}

impl Content {
    ghost use Rattle.ytype_simple.specs.View.{content_of};

    fn kind_number(&self) -> u8
        ensures { result ≡ kind_number (content_of self.now) }
    {
        match self {
            Content::Text(_) => 0,
            Content::Number(_) => 1,
            Content::Bool(_) => 2,
            Content::Empty => 3,
            Content::Bits(_) => 4,
            Content::Octets(_) => 5,
        }
    }

    /// The bytes of a text, or octets.
    fn bytes(&self) -> &[u8]
        ensures { result.now ≡ text_part (content_of self.now) }
    {
        match self {
            Content::Text(text) => text.as_bytes(),
            Content::Octets(octets) => octets,
            _ => &[],
        }
    }

    fn number(&self) -> i128
        ensures { result ≡ number_part (content_of self.now) }
    {
        match self {
            Content::Number(number) => *number,
            Content::Bool(flag) => i128::from(*flag),
            _ => 0,
        }
    }

    fn positions(&self) -> &[i64]
        ensures { result.now ≡ bits_part (content_of self.now) }
    {
        match self {
            Content::Bits(positions) => positions,
            _ => &[],
        }
    }

    /// How it stands to another in the order of values.
    pub fn compare(&self, other: &Content) -> Ordering
        ensures { result ≡ content_cmp (content_of self.now) (content_of other.now) }
    {
        match self.kind_number().cmp(&other.kind_number()) {
            Ordering::Equal => match self.bytes().cmp(other.bytes()) {
                Ordering::Equal => match self.number().cmp(&other.number()) {
                    Ordering::Equal => self.positions().cmp(other.positions()),
                    order => order,
                },
                order => order,
            },
            order => order,
        }
    }
}
