//! Features that are chosen of some modules, and sets of modules of both versions.

use crate::compiling::{is_told_of_set, is_told_where_chosen};
use crate::rows::all_hold;

// A feature is on where it is chosen and its own conditions hold.
#[test]
fn of_one_module(rt: HostRuntime) {
    let rows =
        "m:/2 nodes/feature f; leaf a { if-feature f; type string; } leaf b { if-feature 'not f'; type string; } leaf c { type string; }
m:f/1 nodes/feature f; feature g; leaf a { if-feature f; type string; } leaf b { if-feature g; type string; } leaf c { if-feature 'f and g'; type string; }
m:g/2 nodes/feature f; feature g { if-feature f; } leaf a { if-feature g; type string; } container c { if-feature 'not g'; leaf b { if-feature 'not f'; type string; } }
m:f,g/1 nodes/feature f; feature g { if-feature f; } leaf a { if-feature g; type string; }
m:f,h/1 nodes/feature f { if-feature 'g or h'; } feature g; feature h { if-feature 'not g'; } leaf a { if-feature f; type string; } leaf b { if-feature g; type string; }
m:z/0 nodes/feature f; leaf a { if-feature f; type string; }
n:/1 nodes/feature f; leaf a { if-feature f; type string; }
m:f/3 nodes/feature f; feature g; choice c { default d; case d { if-feature g; leaf a { type string; } } case e { leaf b { type string; } } }
m:f/1 nodes/feature f; feature g; leaf a { type enumeration { enum x { if-feature g; } enum y; } default y; }
m:f/C11:5/feature f; feature g;|leaf a { type enumeration { enum x { if-feature g; } enum y; } default x; }
m:/1 nodes/feature g;|leaf a { type enumeration { enum x { if-feature g; } } }
m:/1 nodes/feature g;|leaf a { type bits { bit x { if-feature g; } } default ''; }
m:/1 nodes/feature g; identity i { if-feature g; }|leaf a { type identityref { base i; } }
m:/2 nodes/feature g; grouping h { leaf a { type string; mandatory true; } } container c { uses h { if-feature g; } leaf b { type string; } }
m:/C12:4/feature g; list l { key k; leaf k { if-feature g; type string; } }
m:/0 nodes/feature g; list l { if-feature g; leaf a { type string; } }
m:/C13:5/feature g; leaf a { if-feature g; type string; }|leaf a { type string; }
m:/C22:4/feature g; leaf a { if-feature h; type string; }
m:/1 nodes/feature g; choice c { mandatory true; case d { if-feature g; leaf a { type string; } } }
m:/C17:4/feature g; leaf a { type leafref { path /m:b; } }|leaf b { if-feature g; type string; }
m:g/2 nodes/feature g; leaf a { type leafref { path /m:b; } }|leaf b { if-feature g; type string; }
m:/C12:4/feature g; list l { key k; leaf k { type string; } unique u; leaf u { if-feature g; type string; } }
m:/0 nodes/feature g; container c { if-feature g; leaf a { type string; } }|augment /m:c { leaf b { type string; } }
m:/C11:4/feature g; leaf a { if-feature 'not g'; type uint8; default 256; }";
    all_hold(&rt, rt.alloc(), rows, is_told_where_chosen);
}

// Features of modules that are imported.
#[test]
fn of_other_modules(rt: HostRuntime) {
    let rows =
        "all/1 nodes/m:1.1 import n { prefix o; } leaf a { if-feature o:f; type string; } ~ n:1.1 feature f;
n:/1 nodes/m:1.1 import n { prefix o; } leaf a { if-feature o:f; type string; } leaf b { if-feature 'not o:f'; type string; } ~ n:1.1 feature f; leaf c { if-feature f; type string; }
n: m:f/1 nodes/m:1.1 import n { prefix o; } feature f { if-feature 'not o:f'; } leaf a { if-feature f; type string; } ~ n:1.1 feature f; leaf c { if-feature f; type string; }
n:f m:/1 nodes/m:1.1 import n { prefix o; } feature f { if-feature o:f; } leaf a { if-feature f; type string; } ~ n:1.1 feature f; leaf c { if-feature f; type string; }
all/C22:6/m:1.1 import n { prefix o; }|leaf a {| if-feature o:g; type string; } ~ n:1.1 feature f;
all/C22:6 of 1/m:1.1 feature f; ~ n:1.1 import m { prefix o; }|leaf a {| if-feature f; type string; }
all/C6:4/m:1.1 import n { prefix o; } leaf a { if-feature n:f; type string; } ~ n:1.1 feature f;
all/C9:4/m:1.1 import n { prefix n; } feature f { if-feature n:f; } ~ n:1.1 import m { prefix m; } feature f { if-feature m:f; }
all/1 nodes/m: import n { prefix o; } leaf a { if-feature o:f; type string; } ~ n:1.1 feature f;
n:/1 nodes/m:1.1 import n { prefix n; }|augment /n:c {| leaf a { type string; } } ~ n:1.1 feature f; container c { if-feature f; } leaf b { type string; }
m:/2 nodes/m:1.1 import n { prefix n; } feature f;|augment /n:c { if-feature f; leaf a { type string; } } ~ n:1.1 container c { leaf b { type string; } }
all/1 nodes/m:1.1 import n { prefix n; } identity j { base n:i; }|leaf a { type identityref { base n:i; } default j; } ~ n:1.1 feature f; identity i { if-feature f; }
n:/C11:5/m:1.1 import n { prefix n; }|leaf a { type n:t; default x; } ~ n:1.1 feature f; typedef t { type enumeration { enum x { if-feature f; } enum y; } }
n:/2 nodes/m:1.1 import n { prefix n; } container c { uses n:g; } ~ n:1.1 feature f; grouping g { leaf a { if-feature f; type string; } leaf b { if-feature 'not f'; type string; } }
m:f/2 nodes/m:1.1 import n { prefix n; } feature f; container c { uses n:g; } ~ n:1.1 feature f; grouping g { leaf a { if-feature 'not f'; type string; } leaf b { type string; } }";
    all_hold(&rt, rt.alloc(), rows, is_told_of_set);
}

// A module is read in its own version, and what it takes of another one in that of the other.
#[test]
fn of_both_versions(rt: HostRuntime) {
    let rows = "all/C2:1/m: yang-version 1; yang-version 1;
all/C4:4/m: yang-version 1.0;
all/C4:3/m:2 leaf a { type string; }
all/C5:4/m: import n { prefix o; revision-date 2020-01-01; } ~ n:1.1 revision 2020-01-01;
all/0 nodes/m: import n { prefix o; revision-date 2020-01-01; } ~ n: revision 2020-01-01;
all/0 nodes/m:1 import n { prefix o; revision-date 2020-01-01; } ~ n:1 revision 2020-01-01;
all/0 nodes/m:1.1 import n { prefix o; revision-date 2020-01-01; } ~ n: revision 2020-01-01;
all/C5:4/m: import n { prefix o; revision-date 2020-01-02; } ~ n: revision 2020-01-01;
all/0 nodes/m: import n { prefix o; } ~ n:1.1 revision 2020-01-01;
all/C14:5/m: import n { prefix n; }|augment /n:c { choice d { leaf a { type string; } } } ~ n:1.1 choice c;
all/5 nodes/m:1.1 import n { prefix n; }|augment /n:c { choice d { leaf a { type string; } } } ~ n: choice c;
all/C10:5/m: import n { prefix n; }|leaf a { type union { type n:t; type uint8; } } ~ n:1.1 typedef t { type empty; }
all/6 nodes/m: import n { prefix n; }|uses n:g; ~ n:1.1 grouping g { choice a { choice b { leaf c { type string; } } } leaf xmla { type string; } }
all/C3:4 of 1/m:1.1 leaf a { type string; } ~ n: leaf xmla { type string; }
all/3 nodes/m:1.1 leaf a { type string; } ~ n: leaf a { type string; } leaf-list b { type uint8; }";
    all_hold(&rt, rt.alloc(), rows, is_told_of_set);
}

// What is added to another module: whether its target stands or not, and without what is taken away.
#[test]
fn added_to_other_modules(rt: HostRuntime) {
    let rows =
        "all/C15:5/m:1.1 import n { prefix n; }|augment /n:c {| leaf a { type string; mandatory true; } } ~ n:1.1 container c;
all/C15:5/m:1.1 import n { prefix n; } feature f;|augment /n:c {| if-feature f; leaf a { type string; mandatory true; } } ~ n:1.1 container c;
all/1 nodes/m:1.1 import n { prefix n; } feature f;|augment /n:c {| if-feature 'not f'; leaf a { type string; mandatory true; } } ~ n:1.1 container c;
m:/1 nodes/m:1.1 import n { prefix n; } feature f;|augment /n:c {| leaf a { if-feature f; type string; mandatory true; } } ~ n:1.1 container c;
m:f/C15:5/m:1.1 import n { prefix n; } feature f;|augment /n:c {| leaf a { if-feature f; type string; mandatory true; } } ~ n:1.1 container c;
n:/C15:5/m:1.1 import n { prefix n; }|augment /n:c {| leaf a { type string; mandatory true; } } ~ n:1.1 feature f; container c { if-feature f; }
m:/1 nodes/m:1.1 import n { prefix n; } feature f; grouping g { leaf a { type string; mandatory true; } }|augment /n:c {| uses g { if-feature f; } } ~ n:1.1 container c;
m:/3 nodes/m:1.1 import n { prefix n; } feature f;|augment /n:c {| container d { leaf a { if-feature f; type string; mandatory true; } leaf b { type string; } } } ~ n:1.1 container c;
all/C15:5/m: import n { prefix n; }|augment /n:c {| leaf a { type string; mandatory true; } } ~ n:1.1 container c;";
    all_hold(&rt, rt.alloc(), rows, is_told_of_set);
}
