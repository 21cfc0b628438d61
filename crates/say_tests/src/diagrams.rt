//! Diagrams of modules.

use crate::modules::schema_of;
use std::alloc::Global;
use ybase_output::Cut;
use ydiagram::{DiagramFault, write};

const NETWORK: &str = "module ex-net {
  yang-version 1.1;
  namespace \"urn:ex-net\";
  prefix n;
  container net {
    list host {
      key name; unique \"addr port\"; min-elements 1; max-elements 3;
      leaf name { type string { length 1..8; } }
      leaf addr { type string; }
      leaf port {
        type uint16 { range \"1..1024 | 8080\" { error-app-tag bad-port; } }
        default 80;
      }
      leaf uplink { type leafref { path /n:net/n:host/n:name; } }
      leaf use-port { type leafref { path /n:net/n:host/n:port; } }
      choice mode {
        mandatory true;
        case auto { leaf auto { type empty; } }
        case fixed { leaf speed { type uint32; } }
      }
    }
  }
}
";

const NETWORK_DIAGRAM: &str = "module: ex-net
  +--rw net
     +--rw host* [name]
        +--rw name        string
        +--rw addr?       string
        +--rw port?       uint16
        +--rw uplink?     -> /net/host/name
        +--rw use-port?   -> /net/host/port
        +--rw (mode)
           +--:(auto)
           |  +--rw auto?   empty
           +--:(fixed)
              +--rw speed?   uint32
";

const STATE: &str = "module w {
  yang-version 1.1;
  namespace \"urn:w\";
  prefix w;
  container c {
    presence on;
    leaf-list tag { type string; }
    leaf up { status deprecated; config false; type boolean; }
  }
  list log { config false; leaf at { type uint64; mandatory true; } }
}
";

const STATE_DIAGRAM: &str = "module: w
  +--rw c!
  |  +--rw tag*   string
  |  x--ro up?    boolean
  +--ro log*
     +--ro at   uint64
";

// A container, one that is added to it, and a leaf that is added to that; the last module is given first.
const AUGMENTED: [&str; 3] = [
    "module a { yang-version 1.1; namespace u; prefix a; import m { prefix m; } import b { prefix b; }
  augment /m:c/b:x { leaf y { type string; } } }",
    "module b { yang-version 1.1; namespace u; prefix b; import m { prefix m; } augment /m:c { container x; } }",
    "module m { yang-version 1.1; namespace u; prefix m; container c; }",
];

const ADDED: &str = "module: a

  augment /m:c/b:x:
    +--rw y?   string
";

const WITH_ADDED: &str = "module: m
  +--rw c
     +--rw b:x
        +--rw a:y?   string
";

/// Whether that is the diagram of the module of a number, through a sink that takes so many bytes a call.
pub(crate) fn shows(
    alloc: Global,
    texts: &[&str],
    place: usize,
    bytes_per_call: usize,
    wanted: &str,
) -> Option<bool> {
    let schema = schema_of(alloc, texts)?;
    let mut sink = Cut::new(alloc, 4096, bytes_per_call, None).ok()?;
    match write(&schema, place, &mut sink) {
        Ok(()) => Some(sink.bytes() == wanted.as_bytes()),
        Err(_) => Some(false),
    }
}

// Whether a failing call ends it, with so many bytes taken.
fn breaks(alloc: Global, call: u64) -> Option<bool> {
    let schema = schema_of(alloc, &[NETWORK, STATE])?;
    let mut sink = Cut::new(alloc, 4096, 4096, Some(call)).ok()?;
    match write(&schema, 1, &mut sink) {
        Ok(()) => Some(false),
        Err(DiagramFault::Device) => {
            Some(sink.calls() == call && STATE_DIAGRAM.as_bytes().starts_with(sink.bytes()))
        }
    }
}

#[test]
fn first_module(rt: HostRuntime) {
    let shown = shows(rt.alloc(), &[NETWORK, STATE], 0, 4096, NETWORK_DIAGRAM);
    assert!(rt; shown == Some(true));
}

#[test]
fn byte_by_byte(rt: HostRuntime) {
    let shown = shows(rt.alloc(), &[NETWORK, STATE], 1, 1, STATE_DIAGRAM);
    assert!(rt; shown == Some(true));
}

#[test]
fn no_module(rt: HostRuntime) {
    let shown = shows(rt.alloc(), &[NETWORK, STATE], 2, 4096, "module: \n");
    assert!(rt; shown == Some(true));
}

#[test]
fn augments(rt: HostRuntime) {
    let alloc = rt.alloc();
    assert!(rt; shows(alloc, &AUGMENTED, 0, 4096, ADDED) == Some(true));
    assert!(rt; shows(alloc, &AUGMENTED, 2, 4096, WITH_ADDED) == Some(true));
}

#[test]
fn failing_calls(rt: HostRuntime) {
    for call in 1..40 {
        assert!(rt; breaks(rt.alloc(), call) == Some(true), "{call}");
    }
}
