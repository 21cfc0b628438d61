//! Cutting texts at ASCII characters.

ghost use Rattle.std.specs.Prelude.{◌≡◌, ◌+◌, ◌<◌, ◌==◌, IfSome, length, take, drop, slice_index, position};

/// Where a byte first stands.
pub fn offset_of(bytes: &[u8], wanted: u8) -> Option<usize>
    ensures value { result ≡ position (λ x. x == wanted) bytes.now }
    ensures within { IfSome result
        (λ n. (n < length bytes.now) × (slice_index bytes.now n ≡ wanted)) }
{
    bytes.iter().position(|byte| *byte == wanted)
}

/// A text before an ASCII character, and behind it.
pub fn parts_around(text: &str, at: usize) -> (&str, &str)
    requires within { at < length text.now }
    requires ascii { slice_index text.now at < 128 }
    ensures before { result.0.now ≡ take at text.now }
    ensures behind { result.1.now ≡ drop (at + 1) text.now }
{
    (&text[..at], &text[at + 1..])
}
