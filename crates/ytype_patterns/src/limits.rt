//! What is too large to be read as a pattern.

ghost use Rattle.std.specs.Prelude.{◌≡◌, ◌*◌};
ghost use Rattle.yspec_patterns.specs.Limits as spec;

/// How often something may be repeated, and how large a pattern may be.
const LARGEST: u64 = 500_000;

/// A number that isn't above the largest.
pub(crate) fn bounded(number: u64) -> Option<u32>
    ensures { result ≡ spec.bounded number }
{
    if number <= LARGEST {
        Some(number as u32)
    } else {
        None
    }
}

/// So many times a number.
pub(crate) fn product(times: u32, number: u32) -> Option<u32>
    ensures { result ≡ spec.bounded (times * number) }
{
    bounded(u64::from(times) * u64::from(number))
}
