//! What built-in types take and need.

ghost use Rattle.std.specs.Prelude.{◌≡◌, IfSome, map, option_map};
ghost use Rattle.ytype_numbers.specs.Words.{IsNarrow};
ghost use Rattle.ysay_types.specs.BuiltIns as spec;

use ytype_numbers::Part;

const NUMBER_NAMES: &[&str] = &[
    "int8",
    "int16",
    "int32",
    "int64",
    "uint8",
    "uint16",
    "uint32",
    "uint64",
    "decimal64",
];

/// Those that are restricted by numbers.
fn takers_of_numbers(word: &str) -> Option<&'static [&'static str]>
    ensures { option_map (λ names. map (λ n. n.now) names.now) result ≡ spec.takers_of_numbers word.now }
{
    match word {
        "range" => Some(NUMBER_NAMES),
        "length" => Some(&["string", "binary"]),
        "fraction-digits" => Some(&["decimal64"]),
        _ => None,
    }
}

/// Those that name others.
fn takers_of_names(word: &str) -> Option<&'static [&'static str]>
    ensures { option_map (λ names. map (λ n. n.now) names.now) result ≡ spec.takers_of_names word.now }
{
    match word {
        "path" => Some(&["leafref"]),
        "require-instance" => Some(&["leafref", "instance-identifier"]),
        "base" => Some(&["identityref"]),
        "type" => Some(&["union"]),
        _ => takers_of_numbers(word),
    }
}

/// The built-in types that take a substatement, if it says something of a type.
pub(crate) fn takers(word: &str) -> Option<&'static [&'static str]>
    ensures { option_map (λ names. map (λ n. n.now) names.now) result ≡ spec.takers word.now }
{
    match word {
        "pattern" => Some(&["string"]),
        "enum" => Some(&["enumeration"]),
        "bit" => Some(&["bits"]),
        _ => takers_of_names(word),
    }
}

/// The substatement that a built-in type needs.
pub(crate) fn needed(name: &str) -> Option<&'static str>
    ensures { option_map (λ w. w.now) result ≡ spec.needed name.now }
{
    match name {
        "decimal64" => Some("fraction-digits"),
        "enumeration" => Some("enum"),
        "bits" => Some("bit"),
        "union" => Some("type"),
        "leafref" => Some("path"),
        "identityref" => Some("base"),
        _ => None,
    }
}

fn signed_numbers(name: &str) -> Option<Part>
    ensures numbers { result ≡ spec.signed_numbers name.now }
    ensures narrow { IfSome result (λ p. IsNarrow p) }
{
    match name {
        "int8" => Some(Part::new(-0x80, 0x7F)),
        "int16" => Some(Part::new(-0x8000, 0x7FFF)),
        "int32" => Some(Part::new(-0x8000_0000, 0x7FFF_FFFF)),
        "int64" => Some(Part::new(-0x8000_0000_0000_0000, 0x7FFF_FFFF_FFFF_FFFF)),
        _ => None,
    }
}

pub(crate) fn whole_numbers(name: &str) -> Option<Part>
    ensures numbers { result ≡ spec.whole_numbers name.now }
    ensures narrow { IfSome result (λ p. IsNarrow p) }
{
    match name {
        "uint8" => Some(Part::new(0, 0xFF)),
        "uint16" => Some(Part::new(0, 0xFFFF)),
        "uint32" => Some(Part::new(0, 0xFFFF_FFFF)),
        "uint64" => Some(Part::new(0, 0xFFFF_FFFF_FFFF_FFFF)),
        _ => signed_numbers(name),
    }
}

/// The numbers that a `range` or a `length` of a built-in type may restrict, if they are whole.
pub(crate) fn numbers_restricted(word: &str, name: &str) -> Option<Part>
    ensures { result ≡ spec.numbers_restricted word.now name.now }
{
    match word {
        "range" => whole_numbers(name),
        "length" => Some(Part::new(0, 0xFFFF_FFFF_FFFF_FFFF)),
        _ => None,
    }
}

/// No type has a number outside.
pub(crate) fn all_numbers() -> Part
    ensures { result ≡ spec.all_numbers }
{
    Part::new(-0x1_0000_0000_0000_0000, 0x1_0000_0000_0000_0000)
}
