//! The configuration of documents alone. Rows with lines of their own are parted by lines `==`.

use crate::explaining::prints;
use crate::rows::all_parts_hold;
use crate::running::file;
use std::alloc::Global;

const HOSTS: &str = "module s {
  yang-version 1.1; namespace \"urn:s\"; prefix s;
  list host {
    key name;
    leaf name { type string; }
    leaf up { type boolean; config false; mandatory true; }
    list counter { config false; min-elements 1; leaf n { type uint8; } }
    leaf level { type uint8; config false; default 5; }
    unique level;
    choice mode {
      mandatory true;
      leaf auto { type empty; }
      leaf seen { type empty; config false; }
    }
    container fan { config false; leaf speed { type uint8; mandatory true; } }
  }
}
";

const ROWS: &str = "yanglive validate sent s.yang
1 0
V3 data-missing - /s:host[1]/up -
V6 operation-failed too-few-elements /s:host[1]/counter -
V3 data-missing - /s:host[1]/fan/speed -
3 faults
==
yanglive validate --config sent s.yang
0 0
0 faults
==
yanglive validate --config stored s.yang
1 0
V12 unknown-element - /s:host[1]/up -
V12 unknown-element - /s:host[1]/counter -
V12 unknown-element - /s:host[1]/fan -
V12 unknown-element - /s:host[2]/seen -
V4 data-missing missing-choice /s:host[2] mode
5 faults
==
yanglive validate --config --format json one s.yang
1 0
{\"error-message\":\"up is config false, so no configuration holds it.\",\"error-path\":\"/s:host[name='a']/up\",\"error-tag\":\"unknown-element\",\"error-type\":\"application\",\"yanglive:code\":\"V12\",\"yanglive:path\":\"/s:host[1]/up\"}
{\"yanglive:faults\":1}
==
yanglive validate --explain --config one s.yang
1 0
V12 unknown-element - /s:host[1]/up -
  /s:host[name='a']/up: up is config false, so no configuration holds it.
  A node of state is stored, where configuration alone is looked at. Take it out of the document, or leave out --config.
1 fault
==
yanglive edit --config sent script s.yang
1 1
line 2: E7
V12 unknown-element - /s:host[1]/up -
1 faults
==
yanglive edit --config --dump sent script s.yang
1 1
line 2: E7
{\"s:host\":[{\"auto\":[null],\"name\":\"a\",\"up\":true}]}
";

fn is_said_of_configuration_alone(alloc: Global, row: &str) -> Option<bool> {
    let files = [
        file("s.yang", HOSTS),
        file("sent", "{\"s:host\":[{\"name\":\"a\",\"auto\":[null]}]}"),
        file(
            "stored",
            "{\"s:host\":[{\"name\":\"a\",\"auto\":[null],\"up\":\"x\",\"counter\":[{\"n\":1},{\"n\":300}],\"fan\":{}},{\"name\":\"b\",\"seen\":[null]}]}",
        ),
        file(
            "one",
            "{\"s:host\":[{\"name\":\"a\",\"auto\":[null],\"up\":true}]}",
        ),
        file(
            "script",
            "create /s:host[name='a']/up true\nremove /s:host[1]/seen\n",
        ),
    ];
    prints(alloc, &files, row)
}

#[test]
fn configuration_alone(rt: HostRuntime) {
    all_parts_hold(&rt, rt.alloc(), ROWS, is_said_of_configuration_alone);
}
