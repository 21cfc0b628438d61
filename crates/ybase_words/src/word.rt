//! Identifiers, dates and words in arguments.

ghost use Rattle.std.specs.Prelude.{◌≡◌, true, false, option_map, codes};
ghost use Rattle.yspec.specs.linking.Arguments as spec;
ghost use Rattle.ybase_words.specs.WordView.{status_view, ordered_by_view};

/// How well a definition stands (RFC 7950, 7.21.2).
#[derive(Clone, Copy, Debug, PartialEq, Eq)]
pub enum Status {
    Current,
    Deprecated,
    Obsolete,
}

/// Who orders the entries of a list (RFC 7950, 7.7.7).
#[derive(Clone, Copy, Debug, PartialEq, Eq)]
pub enum OrderedBy {
    System,
    User,
}

/// The flag that a text spells.
pub fn flag_of(text: &str) -> Option<bool>
    ensures { result ≡ spec.flag_of text.now }
{
    match text {
        "true" => Some(true),
        "false" => Some(false),
        _ => None,
    }
}

/// The status that a text spells.
pub fn status_of(text: &str) -> Option<Status>
    ensures { option_map status_view result ≡ spec.status_of text.now }
{
    match text {
        "current" => Some(Status::Current),
        "deprecated" => Some(Status::Deprecated),
        "obsolete" => Some(Status::Obsolete),
        _ => None,
    }
}

/// Who orders entries, as a text spells it.
pub fn ordered_by_of(text: &str) -> Option<OrderedBy>
    ensures { option_map ordered_by_view result ≡ spec.ordered_by_of text.now }
{
    match text {
        "user" => Some(OrderedBy::User),
        "system" => Some(OrderedBy::System),
        _ => None,
    }
}

fn stands_for(shape: u8, byte: u8) -> bool
    ensures { result ≡ spec.stands_for shape byte }
{
    if shape == b'd' {
        matches!(byte, b'0'..=b'9')
    } else {
        byte == shape
    }
}

fn looks_like(shape: &[u8], text: &[u8]) -> bool
    ensures { result ≡ spec.looks_like shape.now text.now }
{
    let mut rest = text;
    for mark in shape {
        match rest.split_first() {
            None => return false,
            Some((first, more)) => {
                if !stands_for(*mark, *first) {
                    return false;
                }
                rest = more;
            }
        }
    }
    rest.is_empty()
}

/// Whether a text is a date: four, two and two digits.
pub fn is_date(text: &str) -> bool
    ensures { result ≡ spec.looks_like (codes "dddd-dd-dd") text.now }
{
    looks_like("dddd-dd-dd".as_bytes(), text.as_bytes())
}
