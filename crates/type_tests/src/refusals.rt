//! Which types there are, and what they require.

use crate::described::{described, narrowed};
use crate::tables::all_hold;
use std::alloc::Global;
use ytype::{NarrowFault, Part, Range};

// Whether a row holds: a type, and whether it is made or refused in its last step.
fn holds(alloc: Global, row: &str) -> Option<bool> {
    let (steps, wanted) = row.split_once('/')?;
    match narrowed(alloc, steps)? {
        Ok(_) => Some(wanted == "made"),
        Err(NarrowFault::Refused) => Some(wanted == "refused"),
        Err(NarrowFault::Memory) => None,
    }
}

#[test]
fn types(rt: HostRuntime) {
    let rows = "uint8 > range:1..10:t1 > range:1..10:t2/made
uint8 > range:1..10:t1 > range:0..10:t2/refused
uint8 > range:1..10:t1 > range:1..11:t2/refused
uint8 > range:1..10:t1 > range:5..4:t2/refused
uint8 > range:1..10:t1 > range:min..max:t2/made
uint8 > range:1..10:t1 > range:10e-1..5:t2/refused
decimal64:1 > range:10e-1..5:t/made
uint8 > range:1..5|5..9:t/refused
string > range:1..5:t/refused
uint8 > leafref > instance:true > range:1..5:t/refused
string > length:0..18446744073709551615/made
string > length:0..18446744073709551616/refused
string > pattern::a/made
string > unless::a/made
string > length:0..4 > pattern::a > length:1..4/made
string > length:0..4 > pattern::a > length:0..5/refused
uint8 > pattern::1/refused
binary > length:0..18446744073709551615/made
binary > length:0..18446744073709551616/refused
binary > length:1..3 > length:0..3/refused
binary > range:1..3/refused
binary > pattern::a/refused
binary > instance:true/refused
enumeration:a > pattern::a/refused
string > leafref > pattern::a/refused
uint8 > string > union > pattern::a/refused
decimal64:0/refused
decimal64:19/refused
enumeration:a=2147483647,b=0/made
enumeration:a=2147483647,b/refused
enumeration:a=-2147483648,b/made
enumeration:a=-2147483649,b/refused
enumeration:a=-5,b,c=-4/refused
enumeration:a=-5,b,c=0/made
enumeration:a=5,b=2,c,d=6/refused
enumeration:a=5,b=2,c,d=3/made
enumeration:a,a/refused
enumeration:a,b=0/refused
enumeration:a,/refused
enumeration:a,b /refused
enumeration:a,b c/made
enumeration:a,b=5,c > enums:a,c/made
enumeration:a,b=5,c > enums:c,a/made
enumeration:a,b=5,c > enums:b=5,c=6/made
enumeration:a,b=5,c > enums:a,d/refused
enumeration:a,b=5,c > enums:a,b=4/refused
enumeration:a,b=5,c > enums:a,a/refused
enumeration:a,b=5,c > enums:a,a=0/refused
enumeration:a,b=5,c > enums:a,c > enums:c/made
enumeration:a,b=5,c > enums:a,c > enums:b/refused
enumeration:a,b=5,c > bits-left:a/refused
enumeration:a,b=5,c > leafref > enums:a/refused
enumeration:a > string > union > enums:a/refused
bits:x=3,y,z=0 > bits-left:y,z=0/made
bits:x=3,y,z=0 > bits-left:w/refused
bits:x=3,y,z=0 > bits-left:y=3/refused
bits:x=3,y,z=0 > bits-left:y,y/refused
bits:x=3,y,z=0 > enums:y/refused
string > enums:a/refused
identityref:a|a:x=3|3 > enums:a:x/refused
bits:a=4294967295,b=0/made
bits:a=4294967295,b/refused
bits:a=4294967296,b/refused
bits:a=-1,b/refused
bits:a,a/refused
bits:a,b=0/refused
identityref:a|a:x=3|3/made
identityref:a|a:x=3|3 > leafref/made
identityref:a|a:x=3|3 > range:3..3/refused
identityref:a|a:x=3|3 > length:1..3/refused
identityref:a|a:x=3|3 > instance:true/refused
identityref:a|a:x=3|3 > leafref > instance:false/made";
    all_hold(&rt, rt.alloc(), rows, holds);
}

#[test]
fn carriage_returns_in_names(rt: HostRuntime) {
    // White space at an end is refused, a carriage return too; lines of a table can't hold it.
    assert!(rt; holds(rt.alloc(), "enumeration:a,b\r/refused") == Some(true));
    assert!(rt; holds(rt.alloc(), "enumeration:a,\rb/refused") == Some(true));
    assert!(rt; holds(rt.alloc(), "enumeration:a,b\rc/made") == Some(true));
}

fn shows(alloc: Global, fault: NarrowFault, wanted: &str) -> Option<bool> {
    let text = format!(in alloc; "{fault}").ok()?;
    Some(text.as_str() == wanted)
}

// Whether a type whose last step is refused is told so.
fn is_told(alloc: Global, steps: &str) -> Option<bool> {
    match narrowed(alloc, steps)? {
        Ok(_) => Some(false),
        Err(fault) => shows(alloc, fault, "no such type"),
    }
}

#[test]
fn faults_told(rt: HostRuntime) {
    assert!(rt; is_told(rt.alloc(), "enumeration:a,a") == Some(true));
    assert!(rt; is_told(rt.alloc(), "string > range:1..5") == Some(true));
    assert!(rt; shows(rt.alloc(), NarrowFault::Memory, "memory") == Some(true));
}

// Whether a type requires an instance: `true`, `false`, or `none` for one that is no leafref.
fn is_required(alloc: Global, row: &str) -> Option<bool> {
    let (steps, wanted) = row.split_once('/')?;
    let wanted = match wanted {
        "none" => None,
        _ => Some(wanted.parse::<bool>().ok()?),
    };
    Some(described(alloc, steps)?.requires_instance() == wanted)
}

#[test]
fn instances(rt: HostRuntime) {
    let rows = "uint8 > leafref > instance:true/true
uint8 > leafref > instance:false/false
uint8/none";
    all_hold(&rt, rt.alloc(), rows, is_required);
}

fn range_with_gaps(alloc: Global) -> Option<Range> {
    let mut parts = Vec::new(alloc);
    parts.push(Part::new(0, 5)).ok()?;
    parts.push(Part::new(7, 7)).ok()?;
    parts.push(Part::new(9, 255)).ok()?;
    Some(Range::new(parts))
}

// Whether a row holds: a number, and whether the range has it.
fn is_held(alloc: Global, row: &str) -> Option<bool> {
    let (number, wanted) = row.split_once('/')?;
    let number = number.parse::<i128>().ok()?;
    Some(range_with_gaps(alloc)?.holds(number) == wanted.parse::<bool>().ok()?)
}

#[test]
fn gaps(rt: HostRuntime) {
    let rows = "5/true
6/false
7/true
8/false
9/true
255/true
256/false";
    all_hold(&rt, rt.alloc(), rows, is_held);
}
