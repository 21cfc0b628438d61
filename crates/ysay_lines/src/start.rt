//! Where tokens begin.

ghost use Rattle.std.specs.Prelude.{◌≡◌};
ghost use Rattle.ysay_lines.specs.Found.{mode_of};
ghost use Rattle.json.specs.Word.{is_space as is_blank};
ghost use Rattle.ysay_lines.specs.Starts as spec;

/// What a byte of a JSON text stands in.
#[derive(Clone, Copy)]
pub(crate) enum Mode {
    Between,
    InWord,
    InString,
    InEscape,
}

fn is_bracket(byte: u8) -> bool
    ensures { result ≡ spec.is_bracket byte }
{
    byte == b'{' || byte == b'}' || byte == b'[' || byte == b']'
}

/// White space, a comma or a colon.
fn is_gap(byte: u8) -> bool
    ensures { result ≡ spec.is_gap byte }
{
    is_space(byte) || byte == b',' || byte == b':'
}

fn is_space(byte: u8) -> bool
    ensures { result ≡ is_blank byte }
{
    byte == b' ' || byte == b'\t' || byte == b'\n' || byte == b'\r'
}

/// Whether a token begins with a byte.
pub(crate) fn begins(mode: Mode, byte: u8) -> bool
    ensures { result ≡ spec.begins (mode_of mode) byte }
{
    match mode {
        Mode::Between => !is_gap(byte),
        Mode::InWord => is_bracket(byte),
        Mode::InString => false,
        Mode::InEscape => false,
    }
}

/// Behind a byte of a word, or of none.
fn behind_word(byte: u8) -> Mode
    ensures { mode_of result ≡ spec.behind_word byte }
{
    if is_bracket(byte) || is_gap(byte) {
        Mode::Between
    } else {
        Mode::InWord
    }
}

/// Behind a byte of a string.
fn behind_string(byte: u8) -> Mode
    ensures { mode_of result ≡ spec.behind_string byte }
{
    if byte == b'"' {
        Mode::Between
    } else if byte == b'\\' {
        Mode::InEscape
    } else {
        Mode::InString
    }
}

/// What the next byte stands in.
pub(crate) fn behind(mode: Mode, byte: u8) -> Mode
    ensures { mode_of result ≡ spec.behind (mode_of mode) byte }
{
    match mode {
        Mode::Between => {
            if byte == b'"' {
                Mode::InString
            } else {
                behind_word(byte)
            }
        }
        Mode::InWord => behind_word(byte),
        Mode::InString => behind_string(byte),
        Mode::InEscape => Mode::InString,
    }
}
