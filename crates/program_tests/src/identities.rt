//! Modules with identities: what is told of documents that name them (RFC 7950, 9.10; RFC 7951, 6.8). Rows are parted by
//! lines `==`.

use crate::commands::is_shown;
use crate::rows::all_parts_hold;
use crate::running::{file, shown_of};
use std::alloc::Global;

const IDENTITIES: &str = "module i {
  yang-version 1.1;
  namespace \"urn:i\";
  prefix i;
  identity base1;
  identity eth { base base1; }
  identity fast { base eth; }
  identity odd;
  typedef kind { type identityref { base base1; } }
  typedef kind-eth { type kind; default eth; }
  grouping g { leaf k { type kind; } leaf d { type kind-eth; } }
  leaf-list x { type kind; }
  container c;
  container o { uses g; }
}
";

/// A module with identities of its own, one of them of a name that the other module has too.
const NAMING: &str = "module j {
  yang-version 1.1;
  namespace \"urn:j\";
  prefix j;
  import i { prefix p; }
  identity eth { base p:base1; }
  identity slow { base p:fast; }
  uses p:g;
  leaf-list r { type leafref { path /p:x; } }
  leaf u { type union { type p:kind; type uint8; } }
  augment /p:c { leaf k { type p:kind; } }
  list l { key n; unique k; leaf n { type string; } leaf k { type p:kind-eth; } }
  list m { key n; unique k; leaf n { type string; } leaf k { type p:kind; default eth; } }
}
";

/// Whether this is told of a document under both modules: the row is the document, and the output.
fn is_told_of_both(alloc: Global, row: &str) -> Option<bool> {
    let (document, output) = row.split_once('\n')?;
    let files = [
        file("i.yang", IDENTITIES),
        file("j.yang", NAMING),
        file("d.json", document),
    ];
    let shown = shown_of(alloc, "yanglive validate d.json i.yang j.yang", &files).ok()?;
    let status = if output == "0 faults\n" { "0" } else { "1" };
    is_shown(&shown, status, "", output)
}

// A name without a module is that of the leaf: of the module that uses a grouping, of one that augments, of a leafref.
#[test]
fn names_of_identities(rt: HostRuntime) {
    let rows = "{\"j:k\":\"eth\"}
0 faults
==
{\"j:k\":\"j:eth\"}
0 faults
==
{\"j:k\":\"slow\"}
0 faults
==
{\"j:k\":\"fast\"}
V1 invalid-value - /j:k -
1 faults
==
{\"j:k\":\"i:fast\"}
0 faults
==
{\"j:k\":\"p:fast\"}
V1 invalid-value - /j:k -
1 faults
==
{\"j:k\":\"i:odd\"}
V1 invalid-value - /j:k -
1 faults
==
{\"j:k\":\"i:base1\"}
V1 invalid-value - /j:k -
1 faults
==
{\"j:k\":\":eth\"}
V1 invalid-value - /j:k -
1 faults
==
{\"j:k\":7}
V1 invalid-value - /j:k -
1 faults
==
{\"i:o\":{\"k\":\"fast\"}}
0 faults
==
{\"i:o\":{\"k\":\"slow\"}}
V1 invalid-value - /i:o/k -
1 faults
==
{\"i:o\":{\"k\":\"j:slow\"}}
0 faults
==
{\"i:c\":{\"j:k\":\"slow\"}}
0 faults
==
{\"i:c\":{\"j:k\":\"fast\"}}
V1 invalid-value - /i:c/j:k -
1 faults
==
{\"i:c\":{\"j:k\":\"i:fast\"}}
0 faults
==
{\"j:u\":\"slow\"}
0 faults
==
{\"j:u\":\"fast\"}
V1 invalid-value - /j:u -
1 faults
==
{\"i:x\":[\"eth\",\"j:eth\"],\"j:r\":[\"eth\",\"i:eth\"]}
0 faults
==
{\"i:x\":[\"fast\"],\"j:r\":[\"i:fast\"]}
0 faults
==
{\"i:x\":[\"fast\"],\"j:r\":[\"fast\"]}
V1 invalid-value - /j:r[1] -
1 faults
==
{\"i:x\":[\"i:eth\"],\"j:r\":[\"eth\"]}
V11 data-missing instance-required /j:r[1] -
1 faults
==
{\"i:x\":[\"eth\",\"i:eth\"]}
V10 operation-failed - /i:x[1] -
V10 operation-failed - /i:x[2] -
2 faults
==
{\"j:l\":[{\"n\":\"a\",\"k\":\"i:eth\"},{\"n\":\"b\"}]}
V9 operation-failed data-not-unique /j:l[1] 1
V9 operation-failed data-not-unique /j:l[2] 1
2 faults
==
{\"j:l\":[{\"n\":\"a\",\"k\":\"eth\"},{\"n\":\"b\"}]}
0 faults
==
{\"j:m\":[{\"n\":\"a\",\"k\":\"i:eth\"},{\"n\":\"b\"}]}
0 faults
==
{\"j:m\":[{\"n\":\"a\",\"k\":\"eth\"},{\"n\":\"b\"}]}
V9 operation-failed data-not-unique /j:m[1] 1
V9 operation-failed data-not-unique /j:m[2] 1
2 faults
";
    all_parts_hold(&rt, rt.alloc(), rows, is_told_of_both);
}
