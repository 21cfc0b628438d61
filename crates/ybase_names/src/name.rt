//! Identifiers, and names with a prefix (RFC 7950, 6.2 and 7.1.4).

ghost use Rattle.std.specs.Prelude.{◌≡◌, ◌==◌, ◌<◌, length, position, IfSome};
ghost use Rattle.std.specs.List.{list_all};
ghost use Rattle.yspec.specs.text.Text.{is_letter, is_digit, begins_identifier, continues_identifier, is_identifier, is_name, colon};

fn is_letter(byte: u8) -> bool
    ensures { result ≡ is_letter byte }
{
    matches!(byte, b'A'..=b'Z' | b'a'..=b'z')
}

/// Whether a byte is a decimal digit.
pub fn is_digit(byte: u8) -> bool
    ensures { result ≡ is_digit byte }
{
    matches!(byte, b'0'..=b'9')
}

fn begins_identifier(byte: u8) -> bool
    ensures { result ≡ begins_identifier byte }
{
    is_letter(byte) || byte == b'_'
}

fn continues_identifier(byte: u8) -> bool
    ensures { result ≡ continues_identifier byte }
{
    begins_identifier(byte) || is_digit(byte) || byte == b'-' || byte == b'.'
}

fn all_continue(bytes: &[u8]) -> bool
    ensures { result ≡ list_all continues_identifier bytes.now }
{
    bytes.iter().all(|byte| continues_identifier(*byte))
}

fn is_identifier_of(bytes: &[u8]) -> bool
    ensures { result ≡ is_identifier bytes.now }
{
    match bytes.split_first() {
        None => false,
        Some((first, rest)) => begins_identifier(*first) && all_continue(rest) && rest.len() < 64,
    }
}

fn colon_in(bytes: &[u8]) -> Option<usize>
    ensures value { result ≡ position (λ x. x == colon) bytes.now }
    ensures within { IfSome result (λ n. n < length bytes.now) }
{
    bytes.iter().position(|byte| *byte == b':')
}

/// Whether a text is an identifier: a letter or `_`, then letters, digits, `_`, `-` and `.`, at most 64 in all.
pub fn is_identifier(text: &str) -> bool
    ensures { result ≡ is_identifier text.now }
{
    is_identifier_of(text.as_bytes())
}

/// Whether a text is an identifier, or two with a colon between them.
pub fn is_name(text: &str) -> bool
    ensures { result ≡ is_name text.now }
{
    let bytes = text.as_bytes();
    match colon_in(bytes) {
        None => is_identifier_of(bytes),
        Some(colon) => is_identifier_of(&bytes[..colon]) && is_identifier_of(&bytes[colon + 1..]),
    }
}
