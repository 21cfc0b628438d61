//! Cutting texts at ASCII characters.

ghost use Rattle.std.specs.Prelude.{◌≡◌, ◌+◌, ◌<◌, IfSome, length, take, drop, slice_index, option_map, None, ◌==◌, ◌&&◌, not, is_some};
ghost use Rattle.yspec.specs.edit.EditText.{cut_at, quote_behind, behind, after_spaces};
ghost use Rattle.yinst_path.specs.EditView.{sides};

use ytext::parts_around;

/// The quote that is open behind a byte, where one is.
fn quote_behind(byte: u8, quote: Option<u8>) -> Option<u8>
    ensures { result ≡ quote_behind byte quote }
{
    match quote {
        None if byte == b'\'' || byte == b'"' => Some(byte),
        Some(open) if byte != open => Some(open),
        _ => None,
    }
}

/// Whether a text is cut at a byte.
fn is_stop(byte: u8, stop: u8, quote: Option<u8>) -> bool
    ensures { result ≡ (byte == stop && not (is_some quote)) }
{
    byte == stop && quote.is_none()
}

/// Where a byte first stands outside quotes.
#[tactic(auto, using(crate::proofs::CutLemmas::cut_start, crate::proofs::CutLemmas::cut_more, crate::proofs::CutLemmas::cut_here, crate::proofs::CutLemmas::cut_nowhere))]
fn stop_offset(bytes: &[u8], stop: u8) -> Option<usize>
    ensures value { option_map (λ n. (take n bytes.now, drop (n + 1) bytes.now)) result
        ≡ cut_at stop None bytes.now }
    ensures within { IfSome result
        (λ n. (n < length bytes.now) × (slice_index bytes.now n ≡ stop)) }
{
    let mut at = 0;
    let mut quote = None;
    while at < bytes.len() {
        let byte = bytes[at];
        if is_stop(byte, stop, quote) {
            return Some(at);
        }
        quote = quote_behind(byte, quote);
        at += 1;
    }
    None
}

/// A text before and behind the first of these ASCII characters that stands outside quotes.
pub fn cut(text: &str, stop: u8) -> Option<(&str, &str)>
    requires { stop < 128 }
    ensures sides { option_map sides result ≡ cut_at stop None text.now }
    ensures shorter { IfSome result (λ p. length p.1.now < length text.now) }
{
    let at = stop_offset(text.as_bytes(), stop)?;
    Some(parts_around(text, at))
}

/// What stands behind an ASCII character, where a text begins with it.
pub fn behind(text: &str, mark: char) -> Option<&str>
    requires { mark < 128 }
    ensures value { option_map (λ t. t.now) result ≡ behind mark text.now }
    ensures shorter { IfSome result (λ t. length t.now < length text.now) }
{
    text.strip_prefix(mark)
}

/// What stands behind the spaces that a text begins with.
#[tactic(auto, using(crate::proofs::CutLemmas::one_space, crate::proofs::CutLemmas::no_space))]
pub fn after_spaces(text: &str) -> &str
    ensures { result.now ≡ after_spaces text.now }
{
    let mut rest = text;
    while let Some(more) = behind(rest, ' ') {
        rest = more;
    }
    rest
}
