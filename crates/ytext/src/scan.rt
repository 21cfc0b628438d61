//! How far each piece of a text goes (RFC 7950, 6.1). Places are indices into the bytes of the whole text.
ghost use Rattle.std.specs.Prelude.{◌≡◌, ◌+◌, ◌≤◌, ◌<◌, length, drop, slice_index, false, IsTrue, not, ◌==◌, ◌&&◌, Option, Some, None, IfSome, option_map, ◌-◌};
ghost use Rattle.std.specs.Str.{IsCharBoundary};
ghost use Rattle.yspec.specs.text.Text.{begins, is_white, star, slash};
ghost use Rattle.yspec_wide.specs.Texts.{is_quote};
ghost use Rattle.ytext.specs.Versions.{ends_run, run_length};
ghost use Rattle.yspec.specs.text.Token.{is_delimiter, ends_word, line_comment_length, comment_rest_length, single_length, double_length};

/// The place behind an ASCII character, where a text may be cut.
pub(crate) fn behind_ascii(text: &str, at: usize) -> usize
    requires within { at < length text.now }
    requires ascii { slice_index text.now at < 128 }
    ensures next { result ≡ at + 1 }
    ensures place { IsCharBoundary text.now result }
{
    at + 1
}

/// Whether a byte stands at a place.
pub(crate) fn stands_at(bytes: &[u8], at: usize, byte: u8) -> bool
    ensures { result ≡ begins byte (drop at bytes.now) }
{
    at < bytes.len() && bytes[at] == byte
}

/// Whether a byte is a space, a tab or a part of a line break (RFC 7950, 6.1.3).
pub fn is_white(byte: u8) -> bool
    ensures cases { result ≡ is_white byte }
    ensures ascii { IsTrue result → byte < 128 }
{
    byte == b' ' || byte == b'\t' || byte == b'\n' || byte == b'\r'
}

/// White space, a quote, `;`, `{` or `}`.
fn is_delimiter(byte: u8) -> bool
    ensures { result ≡ is_delimiter byte }
{
    is_white(byte) || byte == b'"' || byte == b'\'' || byte == b';' || byte == b'{' || byte == b'}'
}

/// Whether a word ends before this place.
fn ends_word(bytes: &[u8], at: usize) -> bool
    requires { at < length bytes.now }
    ensures cases { result ≡ ends_word (slice_index bytes.now at) (drop (at + 1) bytes.now) }
    ensures ascii { IsTrue result → slice_index bytes.now at < 128 }
{
    let byte = bytes[at];
    is_delimiter(byte)
        || (byte == b'/' && (stands_at(bytes, at + 1, b'/') || stands_at(bytes, at + 1, b'*')))
        || (byte == b'*' && stands_at(bytes, at + 1, b'/'))
}

fn is_quote(byte: u8) -> bool
    ensures { result ≡ is_quote byte }
{
    byte == b'"' || byte == b'\''
}

#[tactic(auto, using(crate::proofs::ScanLemmas::run_test))]
/// Whether a word ends before this place, which may keep quotes: that is an argument of YANG 1 (RFC 6020, 6.1.3).
fn ends_run(bytes: &[u8], at: usize, keeps_quotes: bool) -> bool
    requires { at < length bytes.now }
    ensures cases { result ≡ ends_run keeps_quotes (slice_index bytes.now at) (drop (at + 1) bytes.now) }
    ensures ascii { IsTrue result → slice_index bytes.now at < 128 }
{
    ends_word(bytes, at) && !(keeps_quotes && is_quote(bytes[at]))
}

#[tactic(auto, using(crate::proofs::ScanLemmas::word_more, crate::proofs::ScanLemmas::word_stops, crate::proofs::ScanLemmas::word_all))]
/// Where the word ends that goes on at this place.
pub(crate) fn word_end(bytes: &[u8], from: usize, keeps_quotes: bool) -> usize
    requires { from ≤ length bytes.now }
    ensures length { result ≡ from + run_length keeps_quotes (drop from bytes.now) }
    ensures within { result ≤ length bytes.now }
    ensures ascii { result < length bytes.now → slice_index bytes.now result < 128 }
{
    let mut at = from;
    while at < bytes.len() && !ends_run(bytes, at, keeps_quotes) {
        at += 1;
    }
    at
}

/// Where the line ends.
pub(crate) fn line_end(bytes: &[u8], from: usize) -> usize
    requires { from ≤ length bytes.now }
    ensures length { result ≡ from + line_comment_length (drop from bytes.now) }
    ensures within { result ≤ length bytes.now }
    ensures ascii { result < length bytes.now → slice_index bytes.now result < 128 }
{
    let mut at = from;
    while at < bytes.len() && bytes[at] != b'\n' {
        at += 1;
    }
    at
}

/// Whether `*/` stands at this place.
fn ends_comment(bytes: &[u8], at: usize) -> bool
    requires { at < length bytes.now }
    ensures cases { result ≡ (slice_index bytes.now at == star
        && begins slash (drop (at + 1) bytes.now)) }
    ensures within { IsTrue result
        → (at + 2 ≤ length bytes.now) × (slice_index bytes.now (at + 1) ≡ 47) }
{
    bytes[at] == b'*' && stands_at(bytes, at + 1, b'/')
}

#[tactic(auto, using(crate::proofs::ScanLemmas::comment_stops))]
/// Where the comment ends, behind its `*/`.
pub(crate) fn comment_end(bytes: &[u8], from: usize) -> Option<usize>
    requires { from ≤ length bytes.now }
    ensures length { result ≡ option_map (λ n. from
        + n) (comment_rest_length (drop from bytes.now)) }
    ensures within { IfSome result
        (λ end. (from < end) × (end ≤ length bytes.now) × (slice_index bytes.now (end - 1) ≡ 47)) }
{
    let mut at = from;
    while at < bytes.len() {
        if ends_comment(bytes, at) {
            return Some(at + 2);
        }
        at += 1;
    }
    None
}

/// Where the next single quote stands.
pub(crate) fn single_end(bytes: &[u8], from: usize) -> Option<usize>
    requires { from ≤ length bytes.now }
    ensures length { result ≡ option_map (λ n. from + n) (single_length (drop from bytes.now)) }
    ensures within { IfSome result
        (λ end. (from ≤ end) × (end < length bytes.now) × (slice_index bytes.now end ≡ 39)) }
{
    let mut at = from;
    while at < bytes.len() {
        if bytes[at] == b'\'' {
            return Some(at);
        }
        at += 1;
    }
    None
}

/// Whether a byte is this one, and no backslash stands before it.
pub(crate) fn is_unescaped(is_escaped: bool, byte: u8, wanted: u8) -> bool
    ensures { result ≡ (not is_escaped && (byte == wanted)) }
{
    !is_escaped && byte == wanted
}

/// Where the next double quote stands that no backslash escapes.
pub(crate) fn double_end(bytes: &[u8], from: usize) -> Option<usize>
    requires { from ≤ length bytes.now }
    ensures length { result ≡ option_map (λ n. from
        + n) (double_length false (drop from bytes.now)) }
    ensures within { IfSome result
        (λ end. (from ≤ end) × (end < length bytes.now) × (slice_index bytes.now end ≡ 34)) }
{
    let mut at = from;
    let mut is_escaped = false;
    while at < bytes.len() {
        let byte = bytes[at];
        if is_unescaped(is_escaped, byte, b'"') {
            return Some(at);
        }
        is_escaped = is_unescaped(is_escaped, byte, b'\\');
        at += 1;
    }
    None
}
