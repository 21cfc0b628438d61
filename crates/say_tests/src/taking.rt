//! What is said of a value that a type doesn't take.

use crate::explaining::explained;
use crate::modules::modules_of;
use crate::rows::all_hold;
use std::alloc::Global;
use ylink_grammar::Language;
use yschema::compile_in;
use yschema_model::Schema;

const FRONT: &str = "module t {
  yang-version 1.1; namespace \"urn:t\"; prefix t;
  typedef port { type uint16 { range \"1..100\"; } }
  typedef host { type union { type port; type string { length \"1..8\"; } } }
  typedef percent { type uint8 { range \"0..100\" { error-message 'A part of \"100\".'; } } }
  typedef colour { type enumeration { enum white; enum yellow; enum red; } }
  typedef speed { type bits { bit half; bit fast; bit slow; } }
  identity shape; identity odd; identity round { base shape; } identity square { base shape; }
  identity any;
  identity a01 { base any; } identity a02 { base any; } identity a03 { base any; } identity a04 { base any; }
  identity a05 { base any; } identity a06 { base any; } identity a07 { base any; } identity a08 { base any; }
  identity a09 { base any; } identity a10 { base any; } identity a11 { base any; } identity a12 { base any; }
  identity a13 { base any; } identity a14 { base any; } identity a15 { base any; } identity a16 { base any; }
  identity a17 { base any; } identity a18 { base any; } identity a19 { base any; } identity a20 { base any; }
  identity twenty { base a20; } identity more { base twenty; base a01; }
  leaf target { type int8 { range \"-5..5\"; } }
  leaf v { type ";

const BACK: &str = " }\n}\n";

// A module with other identities.
const OTHER: &str = "module u {
  yang-version 1.1; namespace \"urn:u\"; prefix u;
  import t { prefix of; }
  identity long { base of:shape; } identity only; identity round { base of:odd; }
}
";

// The schema with a leaf of this type, in a language.
fn schema_of(alloc: Global, language: &Language, type_text: &str) -> Option<Schema> {
    let text = [FRONT, type_text, BACK].concat(alloc).ok()?;
    let modules = modules_of(alloc, &[text.as_str(), OTHER])?;
    compile_in(alloc, &modules, language).ok()
}

// What is said of a document with this value.
fn said_of(alloc: Global, language: &Language, type_text: &str, value: &str) -> Option<String> {
    let document = ["{\"t:v\":", value, "}"].concat(alloc).ok()?;
    let schema = schema_of(alloc, language, type_text)?;
    explained(alloc, &schema, document.as_str())
}

// Whether that is what is said of the leaf.
fn is_sentence(alloc: Global, text: &str, sentence: &str) -> Option<bool> {
    let wanted = ["  /t:v: ", sentence, "\n"].concat(alloc).ok()?;
    Some(text == wanted.as_str())
}

// `type => value => what is said`, the value as JSON.
fn is_told_in(alloc: Global, language: &Language, row: &str) -> Option<bool> {
    let (type_text, told) = row.split_once(" => ")?;
    let (value, sentence) = told.split_once(" => ")?;
    let text = said_of(alloc, language, type_text, value)?;
    is_sentence(alloc, text.as_str(), sentence)
}

// The same under the core.
fn is_told(alloc: Global, row: &str) -> Option<bool> {
    is_told_in(alloc, &Language::Core, row)
}

// The same in the wide language.
fn is_told_widely(alloc: Global, row: &str) -> Option<bool> {
    is_told_in(alloc, &Language::rfc_with(Vec::new(alloc)), row)
}

const ROWS: &str =
    r#"int8; => 200 => 200 isn't a value of int8: it takes an integer without quotes in -128..127.
uint32; => "7" => "7" isn't a value of uint32: it takes an integer without quotes in 0..4294967295.
uint8 { range "1..10 | 20 | 30..max"; } => 0 => 0 isn't a value of uint8: it takes an integer without quotes in 1..10 | 20 | 30..255.
port; => 0 => 0 isn't a value of port: it takes an integer without quotes in 1..100.
port { range "20..30"; } => 40 => 40 isn't a value of port: it takes an integer without quotes in 20..30.
int64; => 5 => 5 isn't a value of int64: it takes an integer in quotes in -9223372036854775808..9223372036854775807.
uint64 { range "7"; } => "8" => "8" isn't a value of uint64: it takes an integer in quotes in 7.
decimal64 { fraction-digits 2; range "0.0..9.99"; } => "12.5" => "12.5" isn't a value of decimal64: it takes a number in quotes, with at most 2 digits after the point, in 0.0..9.99.
decimal64 { fraction-digits 1; range "-1.5 | 2..3"; } => "0.25" => "0.25" isn't a value of decimal64: it takes a number in quotes, with at most 1 digit after the point, in -1.5 | 2.0..3.0.
string; => 20 => 20 isn't a value of string: it takes a text in quotes.
string { length "1..8"; } => "" => "" isn't a value of string: it takes a text in quotes of length 1..8.
string { length "2 | 4..max"; } => "abc" => "abc" isn't a value of string: it takes a text in quotes of length 2 | 4 or more.
string { length "0..max"; } => true => true isn't a value of string: it takes a text in quotes.
boolean; => "true" => "true" isn't a value of boolean: it takes true or false without quotes.
empty; => "" => "" isn't a value of empty: it takes [null].
enumeration { enum error; enum warning { value 7; } enum "a b" { value 3; } } => "warn" => "warn" isn't a value of enumeration: it takes one of "error", "a b", "warning".
bits { bit b { position 4; } bit a { position 2; } } => "a c" => "a c" isn't a value of bits: it takes names in quotes, parted by spaces and each once, of: a, b.
host; => 0 => 0 isn't a value of host: it takes an integer without quotes in 1..100 or a text in quotes of length 1..8.
leafref { path /t:target; } => 9 => 9 isn't a value of leafref: it takes an integer without quotes in -5..5.
uint8 { range "1..5" { error-message "Up to five."; } } => 9 => 9 isn't a value of uint8: it takes an integer without quotes in 1..5. Its module says: Up to five.
uint8 { range "1..5" { error-app-tag big; error-message "größer\n\tals 5"; } } => 9 => 9 isn't a value of uint8: it takes an integer without quotes in 1..5. Its module says: größer  als 5
uint8 { range "1..5" { error-message "Up to five."; } } => "9" => "9" isn't a value of uint8: it takes an integer without quotes in 1..5.
string { length "2" { error-message "Two letters."; } } => "abc" => "abc" isn't a value of string: it takes a text in quotes of length 2. Its module says: Two letters.
port { range "20..30" { error-message "The outer one."; } } => 200 => 200 isn't a value of port: it takes an integer without quotes in 20..30.
port { range "20..30" { error-message "The outer one."; } } => 40 => 40 isn't a value of port: it takes an integer without quotes in 20..30. Its module says: The outer one.
percent { range "20..30" { error-message "The outer one."; } } => 200 => 200 isn't a value of percent: it takes an integer without quotes in 20..30. Its module says: A part of "100".
percent { range "20..30"; } => 40 => 40 isn't a value of percent: it takes an integer without quotes in 20..30.
union { type percent; type empty; } => 200 => 200 isn't a value of union: it takes an integer without quotes in 0..100 or [null].
identityref { base shape; } => "rund" => "rund" isn't a value of identityref: it takes the name of an identity in quotes, one of "round", "square", "u:long"; near it: "round".
identityref { base shape; } => "t:sqare" => "t:sqare" isn't a value of identityref: it takes the name of an identity in quotes, one of "round", "square", "u:long".
identityref { base t:shape; } => "u:lng" => "u:lng" isn't a value of identityref: it takes the name of an identity in quotes, one of "round", "square", "u:long"; near it: "u:long".
identityref { base shape; } => "triangle" => "triangle" isn't a value of identityref: it takes the name of an identity in quotes, one of "round", "square", "u:long".
identityref { base shape; } => "" => "" isn't a value of identityref: it takes the name of an identity in quotes, one of "round", "square", "u:long".
identityref { base shape; } => 5 => 5 isn't a value of identityref: it takes the name of an identity in quotes, one of "round", "square", "u:long".
identityref { base shape; } => "long" => "long" isn't a value of identityref: it takes the name of an identity in quotes, one of "round", "square", "u:long"; "long" is an identity of u: write "u:long".
identityref { base shape; } => "of:square" => "of:square" isn't a value of identityref: it takes the name of an identity in quotes, one of "round", "square", "u:long"; "square" is an identity of t: write "t:square".
identityref { base shape; } => "shape" => "shape" isn't a value of identityref: it takes the name of an identity in quotes, one of "round", "square", "u:long"; it is an identity, but doesn't derive from each base of the type.
identityref { base shape; } => "t:odd" => "t:odd" isn't a value of identityref: it takes the name of an identity in quotes, one of "round", "square", "u:long"; it is an identity, but doesn't derive from each base of the type.
identityref { base shape; } => "u:round" => "u:round" isn't a value of identityref: it takes the name of an identity in quotes, one of "round", "square", "u:long"; it is an identity, but doesn't derive from each base of the type.
identityref { base shape; } => "only" => "only" isn't a value of identityref: it takes the name of an identity in quotes, one of "round", "square", "u:long".
identityref { base odd; } => "round" => "round" isn't a value of identityref: it takes the name of an identity in quotes, one of "u:round"; it is an identity, but doesn't derive from each base of the type.
identityref { base shape; base odd; } => "round" => "round" isn't a value of identityref: it takes the name of an identity in quotes, and no identity fits; it is an identity, but doesn't derive from each base of the type.
identityref { base any; base a01; } => "a" => "a" isn't a value of identityref: it takes the name of an identity in quotes, one of "more".
identityref { base any; } => "a23" => "a23" isn't a value of identityref: it takes the name of an identity in quotes, one of "a01", "a02", "a03", "a04", "a05", "a06", "a07", "a08", "a09", "a10", "a11", "a12", "a13", "a14", "a15", "a16", "a17", "a18", "a19", "a20" and 2 more; near it: "a03".
identityref { base any; } => "mroe" => "mroe" isn't a value of identityref: it takes the name of an identity in quotes, one of "a01", "a02", "a03", "a04", "a05", "a06", "a07", "a08", "a09", "a10", "a11", "a12", "a13", "a14", "a15", "a16", "a17", "a18", "a19", "a20" and 2 more; near it: "more".
union { type uint8; type identityref { base shape; } type identityref { base odd; } } => "rund" => "rund" isn't a value of union: it takes an integer without quotes in 0..255 or the name of an identity in quotes, one of "round", "square", "u:long" or the name of an identity in quotes, one of "u:round"; near it: "round".
"#;

#[test]
fn values_of_types(rt: HostRuntime) {
    all_hold(&rt, rt.alloc(), ROWS, is_told);
}

const EXPRESSIONS: &str =
    r#"string { pattern "[a-z]+"; } => "A" => "A" isn't a value of string: it takes a text in quotes that matches "[a-z]+".
string { length "1..3"; pattern "[a-z]+"; pattern "xml.*" { modifier invert-match; } } => "xml" => "xml" isn't a value of string: it takes a text in quotes of length 1..3 that matches "[a-z]+" and doesn't match "xml.*". It matches "xml.*".
string { pattern "[a-z]+"; pattern "..?" { error-message "Up to two."; } } => "abc" => "abc" isn't a value of string: it takes a text in quotes that matches "[a-z]+" and matches "..?". It doesn't match "..?". Its module says: Up to two.
union { type string { pattern "[a-z]+"; pattern "..?"; } type empty; } => "abc" => "abc" isn't a value of union: it takes a text in quotes that matches "[a-z]+" and matches "..?" or [null].
"#;

#[test]
fn texts_with_expressions(rt: HostRuntime) {
    all_hold(&rt, rt.alloc(), EXPRESSIONS, is_told_widely);
}

const OCTETS: &str =
    r#"binary; => "Zm9" => "Zm9" isn't a value of binary: it takes base64 in quotes.
binary { length "3"; } => "Zm8=" => "Zm8=" isn't a value of binary: it takes base64 in quotes, of 3 octets.
binary { length "1..3 | 5..max"; } => 5 => 5 isn't a value of binary: it takes base64 in quotes, of 1..3 | 5 or more octets.
binary { length "0..max"; } => "=" => "=" isn't a value of binary: it takes base64 in quotes.
union { type uint8; type binary { length "3" { error-message "Three."; } } } => "Zm8=" => "Zm8=" isn't a value of union: it takes an integer without quotes in 0..255 or base64 in quotes, of 3 octets.
binary { length "3" { error-message "Three."; } } => "Zm8=" => "Zm8=" isn't a value of binary: it takes base64 in quotes, of 3 octets. Its module says: Three.
"#;

#[test]
fn octets(rt: HostRuntime) {
    all_hold(&rt, rt.alloc(), OCTETS, is_told_widely);
}

const NAMES: &str =
    r#"colour { enum red; enum white; } => "yellow" => "yellow" isn't a value of colour: it takes one of "white", "red".
speed { bit slow; bit fast; } => "fast half" => "fast half" isn't a value of speed: it takes names in quotes, parted by spaces and each once, of: fast, slow.
"#;

#[test]
fn names_that_are_left(rt: HostRuntime) {
    all_hold(&rt, rt.alloc(), NAMES, is_told_widely);
}
