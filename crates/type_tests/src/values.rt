//! What types make of what they are given, and how values are printed and ordered.

use crate::described::described;
use crate::tables::all_hold;
use std::alloc::Global;
use std::cmp::Ordering;
use ytype::{BadValue, ModuleNames, Raw, Val, YType};

fn unquoted(text: &str) -> Option<Raw> {
    match text {
        "null" => Some(Raw::Empty),
        "true" => Some(Raw::Bool(true)),
        _ => Some(Raw::Int(text.parse::<i128>().ok()?)),
    }
}

// What a document has: `'5` for a text, `5`, `true` or `null`.
fn raw(alloc: Global, text: &str) -> Option<Raw> {
    match text.strip_prefix('\'') {
        None => unquoted(text),
        Some(text) => Some(Raw::Text(String::from_str(alloc, text).ok()?)),
    }
}

// How a value is given: by a document, by a document and a type that are copied, or as a default.
#[derive(Clone, Copy)]
enum Way {
    Document,
    Copy,
    Default,
}

fn printed(alloc: Global, of: &YType, raw: &Raw) -> Result<String, BadValue> {
    Ok(of.check(alloc, raw)?.canonical(alloc, of)?)
}

// A default stands in module b, where a has the prefix p.
fn printed_default(alloc: Global, of: &YType, text: &str) -> Result<String, BadValue> {
    let names = ModuleNames {
        own: "b",
        prefixed: &[("q", "b"), ("p", "a")],
    };
    Ok(of.from_text(alloc, text, &names)?.canonical(alloc, of)?)
}

fn printed_copy(alloc: Global, of: &YType, raw: &Raw) -> Result<String, BadValue> {
    printed(alloc, &of.clone()?, &raw.clone()?)
}

// What a value prints as, or why it isn't taken.
fn outcome(alloc: Global, way: Way, of: &YType, text: &str) -> Option<Result<String, BadValue>> {
    match way {
        Way::Document => Some(printed(alloc, of, &raw(alloc, text)?)),
        Way::Copy => Some(printed_copy(alloc, of, &raw(alloc, text)?)),
        Way::Default => Some(printed_default(alloc, of, text)),
    }
}

// Whether a refusal with this app-tag is wanted: `!tag`, or `!` for one without.
fn is_refusal(app_tag: Option<&str>, wanted: &str) -> bool {
    match wanted.strip_prefix('!') {
        None => false,
        Some("") => app_tag.is_none(),
        Some(wanted) => app_tag == Some(wanted),
    }
}

// Whether that is the outcome: a text, or a refusal. None where memory ran out.
fn is_outcome(found: Result<String, BadValue>, wanted: &str) -> Option<bool> {
    match found {
        Ok(text) => Some(text.as_str() == wanted),
        Err(BadValue::Refused { app_tag }) => Some(is_refusal(app_tag.as_deref(), wanted)),
        Err(BadValue::Memory) => None,
    }
}

// Whether a row holds for a type: what it is given, and the outcome. None where the row is malformed or memory ran out.
fn holds_of(alloc: Global, way: Way, steps: &str, row: &str) -> Option<bool> {
    let (text, wanted) = row.split_once('/')?;
    let of = described(alloc, steps)?;
    is_outcome(outcome(alloc, way, &of, text)?, wanted)
}

// The same of a row that begins with the type.
fn holds(alloc: Global, way: Way, row: &str) -> Option<bool> {
    let (steps, rest) = row.split_once('/')?;
    holds_of(alloc, way, steps, rest)
}

fn holds_of_document(alloc: Global, row: &str) -> Option<bool> {
    holds(alloc, Way::Document, row)
}

// Also where the value and its type are copied.
fn holds_of_copy(alloc: Global, row: &str) -> Option<bool> {
    Some(holds(alloc, Way::Document, row)? && holds(alloc, Way::Copy, row)?)
}

fn holds_of_default(alloc: Global, row: &str) -> Option<bool> {
    holds(alloc, Way::Default, row)
}

// Whether a row holds: a type, what a document has, and the message of what excludes it, `-` for none.
fn gives_message(alloc: Global, row: &str) -> Option<bool> {
    let (steps, rest) = row.split_once('/')?;
    let (text, wanted) = rest.split_once('/')?;
    let of = described(alloc, steps)?;
    let message = of.message(alloc, &raw(alloc, text)?).ok()?;
    Some(message.as_deref().unwrap_or("-") == wanted)
}

// The number of a member, `-` for none.
fn member_number(text: &str) -> Option<Option<usize>> {
    match text {
        "-" => Some(None),
        _ => Some(Some(text.parse::<usize>().ok()?)),
    }
}

// Whether that member of a type takes what a document has, and the value is then, of no member, what the member's own type takes.
fn is_taken_by(alloc: Global, of: &YType, raw: &Raw, member: &str, own: &YType) -> Option<bool> {
    let number = member_number(member)?;
    let value = of.check(alloc, raw).ok()?;
    let is_right = value.member() == number && of.is_union() == number.is_some();
    Some(is_right && value.of_member(None) == own.check(alloc, raw).ok()?)
}

// The same of a row: the type, what a document has, the member, and its own type.
fn has_member(alloc: Global, row: &str) -> Option<bool> {
    let (steps, rest) = row.split_once('/')?;
    let (text, rest) = rest.split_once('/')?;
    let (member, own) = rest.split_once('/')?;
    let raw = raw(alloc, text)?;
    is_taken_by(
        alloc,
        &described(alloc, steps)?,
        &raw,
        member,
        &described(alloc, own)?,
    )
}

#[test]
fn members(rt: HostRuntime) {
    let rows = "uint8/5/-/uint8
uint8 > string > union/5/0/uint8
uint8 > string > union/'5/1/string
boolean > uint8 > string > union > union/true/0/boolean
boolean > uint8 > string > union > union/5/1/uint8
boolean > uint8 > string > union > union/'x/2/string
uint8 > uint8 > union/5/0/uint8";
    all_hold(&rt, rt.alloc(), rows, has_member);
}

#[test]
fn messages(rt: HostRuntime) {
    let rows = "uint8 > range:1..10~wide > range:2..5~narrow/7/narrow
uint8 > range:1..10~wide > range:2..5~narrow/20/wide
uint8 > range:1..10 > range:2..5~narrow/20/-
uint8 > range:1..10~wide > range:2..5/7/-
uint8 > range:2..5:tag~narrow/7/narrow
uint8 > range:0..200~a > range:10..150~b > range:20..100~c/250/a
uint8 > range:0..200~a > range:10..150~b > range:20..100~c/160/b
uint8 > range:0..200~a > range:10..150~b > range:20..100~c/120/c
uint8 > range:0..200~a > range:10..150~b > range:20..100~c/100/-
uint8 > range:2..5~narrow/3/-
uint8 > range:2..5~narrow/300/-
string > length:2..5~too short/'a/too short
string > length:2..5~too short > uint8 > union/'a/-
string > length:2..5~too short > pattern:t~no name:[a-z]+/'55/no name
identityref:a|a:x=3,a:y=4|3/'y/-";
    all_hold(&rt, rt.alloc(), rows, gives_message);
}

#[test]
fn patterns(rt: HostRuntime) {
    let rows = "string > length:0..4 > pattern::[0-9a-fA-F]*/'9A00/9A00
string > length:0..4 > pattern::[0-9a-fA-F]*/'00ABAB/!
string > length:0..4 > pattern::[0-9a-fA-F]*/'xx00/!
string > length:0..4 > pattern::[0-9a-fA-F]*/'00xx/!
string > length:0..4 > pattern::[0-9a-fA-F]*/'/
string > length:0..4 > pattern::[0-9a-fA-F]*/5/!
string > length:1..max:short > pattern:name:[a-z_]+ > unless:xml:xml.*/'enabled/enabled
string > length:1..max:short > pattern:name:[a-z_]+ > unless:xml:xml.*/'10/!name
string > length:1..max:short > pattern:name:[a-z_]+ > unless:xml:xml.*/'xml_a/!xml
string > length:1..max:short > pattern:name:[a-z_]+ > unless:xml:xml.*/'/!short
string > pattern:a:a.* > length:0..2:long > pattern:b:.*b/'xyz/!a
string > pattern:a:a.* > length:0..2:long > pattern:b:.*b/'axyz/!long
string > pattern:a:a.* > length:0..2:long > pattern:b:.*b/'ax/!b
string > pattern:a:a.* > length:0..2:long > pattern:b:.*b/'ab/ab
string > pattern:a:a.* > leafref/'b/!a
uint8 > string > pattern:a:a > union/'b/!
uint8 > string > pattern:a:a > union/'a/a";
    all_hold(&rt, rt.alloc(), rows, holds_of_copy);
}

#[test]
fn defaults_of_patterns(rt: HostRuntime) {
    let rows = "string > pattern:t:[a-z]+/abc/abc
string > pattern:t:[a-z]+/ab1/!
string > unless:t:[a-z]+/abc/!";
    all_hold(&rt, rt.alloc(), rows, holds_of_default);
}

// The vectors of RFC 4648, 10, and texts that are no base64.
#[test]
fn octets(rt: HostRuntime) {
    let rows = "binary/'/
binary/'Zg==/Zg==
binary/'Zm8=/Zm8=
binary/'Zm9v/Zm9v
binary/'Zm9vYg==/Zm9vYg==
binary/'Zm9vYmE=/Zm9vYmE=
binary/'Zm9vYmFy/Zm9vYmFy
binary/'+az0/+az0
binary/'-az0/!
binary/'_az0/!
binary/'Z/!
binary/'Zg/!
binary/'Zg=/!
binary/'Zm8/!
binary/'Zm9vYg/!
binary/'=/!
binary/'====/!
binary/'Zg===/!
binary/'Zm9v====/!
binary/'Zg==Zg==/!
binary/'Z=g=/!
binary/'Zh==/!
binary/'Zm9=/!
binary/' Zm9v/!
binary/'Zm9v /!
binary/'Zm9\u{E9}/!
binary/5/!
binary/null/!
binary > length:3|5..max:octets/'Zm9v/Zm9v
binary > length:3|5..max:octets/'Zm8=/!octets
binary > length:3|5..max:octets/'Zm9vYg==/!octets
binary > length:3|5..max:octets/'Zm9vYmE=/Zm9vYmE=
binary > length:3|5..max:octets/'/!octets
binary > length:3|5..max:octets/'Zm8/!
binary > length:1..4:outer > length:2..3:inner/'Zg==/!inner
binary > length:1..4:outer > length:2..3:inner/'Zm9vYmE=/!outer
binary > leafref/'Zm8=/Zm8=
binary > leafref/'Zm8/!
binary > string > union/'Zm8/Zm8
binary > uint8 > union/'Zm8/!";
    all_hold(&rt, rt.alloc(), rows, holds_of_copy);
    assert!(rt; holds_of_copy(rt.alloc(), "binary/'Zm9v\nYmFy/!") == Some(true));
    assert!(rt; holds_of_copy(rt.alloc(), "binary/'Zm9v\r\nYmFy/!") == Some(true));
    assert!(rt; holds_of_copy(rt.alloc(), "binary/'Zm9vYmFy\n/!") == Some(true));
}

#[test]
fn defaults_of_octets(rt: HostRuntime) {
    let rows = "binary//
binary/Zm9vYg==/Zm9vYg==
binary/Zm9vYg/!
binary/Zm9vYh==/!
binary > length:3/Zm9v/Zm9v
binary > length:3/Zm8=/!";
    all_hold(&rt, rt.alloc(), rows, holds_of_default);
}

#[test]
fn documents(rt: HostRuntime) {
    let rows = "int8/-128/-128
int8/127/127
int8/-129/!
int8/128/!
int16/-32768/-32768
int16/32767/32767
int16/-32769/!
int16/32768/!
int32/-2147483648/-2147483648
int32/2147483647/2147483647
int32/-2147483649/!
int32/2147483648/!
uint8/0/0
uint8/255/255
uint8/-1/!
uint8/256/!
uint16/0/0
uint16/65535/65535
uint16/-1/!
uint16/65536/!
uint32/0/0
uint32/4294967295/4294967295
uint32/-1/!
uint32/4294967296/!
int64/5/!
uint64/5/!
boolean/5/!
string/5/!
empty/5/!
boolean/true/true
boolean/null/!
empty/null/
empty/true/!
int64/'+5/5
int64/'007/7
int64/' 5/!
int64/'-/!
int64/'0x1F/!
int64/'-0/0
int64/'-9223372036854775808/-9223372036854775808
int64/'-9223372036854775809/!
int64/'9223372036854775807/9223372036854775807
int64/'9223372036854775808/!
uint64/'0/0
uint64/'-1/!
uint64/'18446744073709551615/18446744073709551615
uint64/'18446744073709551616/!
int8/'5/!
boolean/'true/!
string/'\u{FFFF}/!
decimal64:2/'+007.5/7.5
decimal64:2/'7/7.0
decimal64:2/'-0/0.0
decimal64:2/'-0.05/-0.05
decimal64:2/'.5/!
decimal64:2/'1./!
decimal64:2/'1.234/!
decimal64:1/'922337203685477580.7/922337203685477580.7
decimal64:1/'922337203685477580.8/!
decimal64:1/'-922337203685477580.8/-922337203685477580.8
decimal64:1/'-922337203685477580.9/!
decimal64:18/'9.223372036854775807/9.223372036854775807
decimal64:18/'9.223372036854775808/!
decimal64:18/'-9.223372036854775808/-9.223372036854775808
decimal64:18/'-9.223372036854775809/!
uint8 > range:min..5|7|9..max:gap/5/5
uint8 > range:min..5|7|9..max:gap/6/!gap
uint8 > range:min..5|7|9..max:gap/7/7
uint8 > range:min..5|7|9..max:gap/8/!gap
uint8 > range:min..5|7|9..max:gap/9/9
uint8 > range:min..5|7|9..max:gap/255/255
uint8 > range:min..5|7|9..max:gap/256/!
uint8 > range:1..10:t1 > range:2..5:t2/5/5
uint8 > range:1..10:t1 > range:2..5:t2/7/!t2
uint8 > range:1..10:t1 > range:2..5:t2/20/!t1
uint8 > range:1..10:t1 > range:2..5:t2/300/!
uint8 > range:1..10 > range:2..5:t2/7/!t2
uint8 > range:1..10 > range:2..5:t2/20/!
uint8 > range:1..10:t1 > range:2..5/7/!
uint8 > range:1..10:t1 > range:2..5/20/!t1
uint8 > range:0..200:a > range:10..150:b > range:20..100:c > range:30..90:d > range:40..80:e/300/!
uint8 > range:0..200:a > range:10..150:b > range:20..100:c > range:30..90:d > range:40..80:e/250/!a
uint8 > range:0..200:a > range:10..150:b > range:20..100:c > range:30..90:d > range:40..80:e/160/!b
uint8 > range:0..200:a > range:10..150:b > range:20..100:c > range:30..90:d > range:40..80:e/5/!b
uint8 > range:0..200:a > range:10..150:b > range:20..100:c > range:30..90:d > range:40..80:e/120/!c
uint8 > range:0..200:a > range:10..150:b > range:20..100:c > range:30..90:d > range:40..80:e/95/!d
uint8 > range:0..200:a > range:10..150:b > range:20..100:c > range:30..90:d > range:40..80:e/35/!e
uint8 > range:0..200:a > range:10..150:b > range:20..100:c > range:30..90:d > range:40..80:e/81/!e
uint8 > range:0..200:a > range:10..150:b > range:20..100:c > range:30..90:d > range:40..80:e/80/80
uint16 > range:1..1024|8080:bad-port/1024/1024
uint16 > range:1..1024|8080:bad-port/1025/!bad-port
uint16 > range:1..1024|8080:bad-port/8080/8080
uint16 > range:1..1024|8080:bad-port/70000/!
string > length:1..3/'/!
string > length:1..3/'a/a
string > length:1..3/'\u{1F600}\u{1F600}\u{1F600}/\u{1F600}\u{1F600}\u{1F600}
string > length:1..3/'\u{1F600}\u{1F600}\u{1F600}\u{1F600}/!
string > length:1..3/'abcd/!
string > length:1..3:long/'abcd/!long
string > length:1..3 > length:2..2:even/'abcd/!
string > length:1..3 > length:2..2:even/'a/!even
enumeration:a,b=5,c,d=2,e/'a/a
enumeration:a,b=5,c,d=2,e/'b/b
enumeration:a,b=5,c,d=2,e/'c/c
enumeration:a,b=5,c,d=2,e/'d/d
enumeration:a,b=5,c,d=2,e/'e/e
enumeration:a,b=5,c,d=2,e/'f/!
enumeration:a,b=5,c > enums:c,a/'c/c
enumeration:a,b=5,c > enums:c,a/'a/a
enumeration:a,b=5,c > enums:c,a/'b/!
enumeration:a,b,c,d,e,f,g,h,i,j > enums:a,b,c,d,e,f,g,h,i/'i/i
enumeration:a,b,c,d,e,f,g,h,i,j > enums:a,b,c,d,e,f,g,h,i/'j/!
bits:x=3,y,z=0 > bits-left:y,z/'y z/z y
bits:x=3,y,z=0 > bits-left:y,z/'x z/!
bits:x=3,y,z=0/'y  z/z y
bits:x=3,y,z=0/' x y z /z x y
bits:x=3,y,z=0/'/
bits:x=3,y,z=0/'y y/!
bits:x=3,y,z=0/'w/!
bits:x=3,y,z=0/'x\ty/!
boolean > uint8 > string > union > union/5/5
boolean > uint8 > string > union > union/true/true
boolean > uint8 > string > union > union/256/!
boolean > uint8 > string > union > union/null/!
boolean > uint8 > string > union > union/'5/5
uint8 > string > union/256/!
decimal64:1 > range:0..1 > decimal64:2 > range:2..3 > union > decimal64:3 > union/'1/1.0
decimal64:1 > range:0..1 > decimal64:2 > range:2..3 > union > decimal64:3 > union/'2.25/2.25
decimal64:1 > range:0..1 > decimal64:2 > range:2..3 > union > decimal64:3 > union/'3.125/3.125
decimal64:1 > range:0..1 > decimal64:2 > range:2..3 > union > decimal64:3 > union/'1.05/1.05
decimal64:1 > range:0..1 > decimal64:2 > range:2..3 > union > decimal64:3 > union/'4.0001/!
uint8 > leafref > instance:true/255/255
uint8 > leafref > instance:true/256/!
identityref:a|a:x=3,a:y=4,b:x=7,b:z=9|3,9/'x/a:x
identityref:a|a:x=3,a:y=4,b:x=7,b:z=9|3,9/'a:x/a:x
identityref:a|a:x=3,a:y=4,b:x=7,b:z=9|3,9/'b:z/b:z
identityref:a|a:x=3,a:y=4,b:x=7,b:z=9|3,9/'z/!
identityref:a|a:x=3,a:y=4,b:x=7,b:z=9|3,9/'y/!
identityref:a|a:x=3,a:y=4,b:x=7,b:z=9|3,9/'b:x/!
identityref:a|a:x=3,a:y=4,b:x=7,b:z=9|3,9/'c:x/!
identityref:a|a:x=3,a:y=4,b:x=7,b:z=9|3,9/'/!
identityref:a|a:x=3,a:y=4,b:x=7,b:z=9|3,9/':x/!
identityref:a|a:x=3,a:y=4,b:x=7,b:z=9|3,9/'a:/!
identityref:a|a:x=3,a:y=4,b:x=7,b:z=9|3,9/'a:x:/!
identityref:a|a:x=3,a:y=4,b:x=7,b:z=9|3,9/' x/!
identityref:a|a:x=3,a:y=4,b:x=7,b:z=9|3,9/3/!
identityref:a|a:x=3,a:y=4,b:x=7,b:z=9|3,9/null/!
identityref:a|a:x=3,a:y=4,b:x=7,b:z=9|3,9 > module:b/'z/b:z
identityref:a|a:x=3,a:y=4,b:x=7,b:z=9|3,9 > module:b/'x/!
identityref:a|a:x=3,a:y=4,b:x=7,b:z=9|3,9 > module:b/'a:x/a:x
identityref:a|a:x=3,a:y=4,b:x=7,b:z=9|3,9 > leafref > module:b/'z/b:z
identityref:a|a:x=3,b:x=4|3 > uint8 > union/'x/a:x
identityref:a|a:x=3,b:x=4|3 > uint8 > union > module:b/'x/!
identityref:a|a:x=3,b:x=4|4 > uint8 > union > module:b/'x/b:x
identityref:a|a:x=3,b:x=4|4 > uint8 > union > module:b/4/4
string > uint8 > union > module:b/'x/x
identityref:a|a:a=1,a:b=2,a:c=3,a:d=4,a:e=5,a:f=6,a:g=7,a:h=8,b:a=9|2,9/'b/a:b
identityref:a|a:a=1,a:b=2,a:c=3,a:d=4,a:e=5,a:f=6,a:g=7,a:h=8,b:a=9|2,9/'b:a/b:a
identityref:a|a:a=1,a:b=2,a:c=3,a:d=4,a:e=5,a:f=6,a:g=7,a:h=8,b:a=9|2,9/'a/!";
    all_hold(&rt, rt.alloc(), rows, holds_of_document);
    let row = "string/'a\tb\r\n/a\tb\r\n";
    assert!(rt; holds_of_document(rt.alloc(), row) == Some(true));
}

#[test]
fn defaults(rt: HostRuntime) {
    let rows = "uint8/0x1F/31
uint8/+0xfF/255
uint8/0x100/!
uint8/0x/!
uint8/017/15
uint8/00/0
uint8/08/!
uint8/256/!
int8/-0x80/-128
int8/-0x81/!
int8/-0200/-128
int8/-0201/!
int8/-0/0
int8/+0/0
uint64/0xFFFFFFFFFFFFFFFF/18446744073709551615
boolean/false/false
boolean/True/!
decimal64:2/+007.5/7.5
decimal64:2/-0.05/-0.05
decimal64:2/1.234/!
decimal64:2/0x1F/!
bits:x=3,y,z=0/y  z/z y
bits:x=3,y,z=0//
bits:x=3,y,z=0/y y/!
bits:x=3,y,z=0/w/!
enumeration:a=-5,b/b/b
enumeration:a=-5,b/c/!
enumeration:a=-5,b//!
uint8 > range:1..10 > range:2..5:t2/0x7/!
empty//!
identityref:a|a:x=3,a:y=4,b:x=7,b:z=9|3,9/p:x/a:x
identityref:a|a:x=3,a:y=4,b:x=7,b:z=9|3,9/z/b:z
identityref:a|a:x=3,a:y=4,b:x=7,b:z=9|3,9/q:z/b:z
identityref:a|a:x=3,a:y=4,b:x=7,b:z=9|3,9/x/!
identityref:a|a:x=3,a:y=4,b:x=7,b:z=9|3,9/a:x/!
identityref:a|a:x=3,a:y=4,b:x=7,b:z=9|3,9/p:y/!
identityref:a|a:x=3,a:y=4,b:x=7,b:z=9|3,9/p:/!
identityref:a|a:x=3,a:y=4,b:x=7,b:z=9|3,9/p:x:/!
identityref:a|a:x=3,a:y=4,b:x=7,b:z=9|3,9//!
identityref:a|a:x=3,a:y=4,b:x=7,b:z=9|3,9 > module:b/p:x/a:x
identityref:a|a:x=3,b:x=7|7 > string > union > module:a/x/b:x
identityref:a|a:x=3,b:x=7|3 > string > union > module:a/x/x";
    all_hold(&rt, rt.alloc(), rows, holds_of_default);
}

fn shows(alloc: Global, fault: &BadValue, wanted: &str) -> Option<bool> {
    let text = format!(in alloc; "{fault}").ok()?;
    Some(text.as_str() == wanted)
}

// Whether a row holds: a type, a value that it doesn't take, and what is told of that.
fn is_told(alloc: Global, row: &str) -> Option<bool> {
    let (steps, rest) = row.split_once('/')?;
    let (text, wanted) = rest.split_once('/')?;
    match described(alloc, steps)?.check(alloc, &raw(alloc, text)?) {
        Ok(_) => Some(false),
        Err(fault) => shows(alloc, &fault, wanted),
    }
}

#[test]
fn faults_told(rt: HostRuntime) {
    let rows = "uint8 > range:1..10:t1/20/invalid-value t1
uint8 > range:1..10:t1/300/invalid-value";
    all_hold(&rt, rt.alloc(), rows, is_told);
    assert!(rt; shows(rt.alloc(), &BadValue::Memory, "memory") == Some(true));
}

fn value(alloc: Global, of: &YType, text: &str) -> Option<Val> {
    of.check(alloc, &raw(alloc, text)?).ok()
}

fn are_ascending(first: &Val, second: &Val) -> bool {
    first.cmp(second) == Ordering::Less && first != second
}

// Whether a row holds: a type, and two values of it, the first below the second and not equal to it. None also where
// one isn't taken.
fn is_below(alloc: Global, row: &str) -> Option<bool> {
    let (steps, values) = row.split_once('/')?;
    let (first, second) = values.split_once('<')?;
    let of = described(alloc, steps)?;
    let first = value(alloc, &of, first)?;
    Some(are_ascending(&first, &value(alloc, &of, second)?))
}

#[test]
fn orders(rt: HostRuntime) {
    // A number and its text are two values of a union.
    let rows = "enumeration:a,b=5,c,d=2,e/'a<'d
enumeration:a,b=5,c,d=2,e > enums:e,d,a/'d<'e
enumeration:a,b=5,c,d=2,e/'d<'b
enumeration:a,b=5,c,d=2,e/'b<'c
enumeration:a,b=5,c,d=2,e/'c<'e
identityref:a|a:y=3,b:x=7,a:x=9|3,7,9/'y<'b:x
identityref:a|a:y=3,b:x=7,a:x=9|3,7,9/'b:x<'x
binary/'<'AA==
binary/'Zg==<'Zm8=
binary/'zw==<'0A==
uint8 > string > union/5<'5
boolean > uint8 > string > union > union/5<'5
string > length:1..1 > string > length:2..2 > union > string > length:3..3 > string > union > union/'c<'bb
string > length:1..1 > string > length:2..2 > union > string > length:3..3 > string > union > union/'bb<'aaa
string > length:1..1 > string > length:2..2 > union > string > length:3..3 > string > union > union/'aaa<'aa aa";
    all_hold(&rt, rt.alloc(), rows, is_below);
}

// A leafref whose target has members of several kinds.
const OF_ALL_KINDS: &str = "uint8 > range:1..10:t1 > range:2..5:t2 > decimal64:1 > union > \
    bits:x=3,y,z=0 > enumeration:a,b=5,c,d=2,e > union > binary > length:5 > union > string > length:3..4 > union > union > leafref";

// What it is given, and the outcome.
const OF_MEMBERS: &str = "'y z/z y
'e/e
'+01.5/1.5
'Zm9vYmE=/Zm9vYmE=
'wxyz/wxyz";

fn is_member_copied(alloc: Global, row: &str) -> Option<bool> {
    holds_of(alloc, Way::Copy, OF_ALL_KINDS, row)
}

#[test]
fn copies(rt: HostRuntime) {
    all_hold(&rt, rt.alloc(), OF_MEMBERS, is_member_copied);
    assert!(rt; holds_of(rt.alloc(), Way::Default, OF_ALL_KINDS, "0x5/5") == Some(true));
}

// Each request for memory may be refused: the answer is that, or the one with ample memory. The rows are those of the
// tests above, where they hold.
#[test]
fn memory(rt: HostRuntime) {
    all_hold(&rt, rt.alloc(), OF_MEMBERS, |alloc, row| {
        Some(is_member_copied(alloc, row) != Some(false))
    });
    assert!(rt; holds_of(rt.alloc(), Way::Default, OF_ALL_KINDS, "0x5/5") != Some(false));
    let tagged = "uint8 > range:1..10:t1 > range:2..5:t2/20/!t1";
    assert!(rt; holds(rt.alloc(), Way::Document, tagged) != Some(false));
    let named = "identityref:a|a:x=3,b:x=7|7 > uint8 > union > module:b/'x/b:x";
    assert!(rt; holds(rt.alloc(), Way::Copy, named) != Some(false));
    let stated = "identityref:a|a:x=3,b:x=7|7/x/b:x";
    assert!(rt; holds(rt.alloc(), Way::Default, stated) != Some(false));
}
