//! Texts of modules that tests are about.
#![tactic(auto)]

/// A module whose container has the name of one of the other module, and the name of its leaf twice.
pub const FIRST: &str = "module a {
  yang-version 1.1; namespace \"urn:a\"; prefix pa;
  container c {
    leaf x { type uint8; mandatory true; }
    container d { leaf x { type string; } }
  }
  leaf y { type string; }
}
";

pub const SECOND: &str = "module b {
  yang-version 1.1; namespace \"urn:b\"; prefix pb;
  container c { leaf x { type string; } }
}
";

/// The module of the documents.
pub const MODULE: &str = "module p {
  yang-version 1.1;
  namespace \"urn:p\";
  prefix p;
  container c {
    leaf id { type uint8; mandatory true; }
    leaf note { type string; }
  }
}
";

/// Hosts with a key, a `unique`, amounts, a default, references and a choice.
pub const NETWORK: &str = "module ex-net {
  yang-version 1.1;
  namespace \"urn:ex-net\";
  prefix n;
  container net {
    list host {
      key name; unique \"addr port\"; min-elements 1; max-elements 3;
      leaf name { type string { length 1..8; } }
      leaf addr { type string; }
      leaf port {
        type uint16 { range \"1..1024 | 8080\" { error-app-tag bad-port; } }
        default 80;
      }
      leaf uplink { type leafref { path /n:net/n:host/n:name; } }
      leaf use-port { type leafref { path /n:net/n:host/n:port; } }
      choice mode {
        mandatory true;
        case auto { leaf auto { type empty; } }
        case fixed { leaf speed { type uint32; } }
      }
    }
  }
}
";

/// A choice with a default case, to whose leaf another one refers.
pub const DEFAULT_CASE: &str = "module k {
  yang-version 1.1;
  namespace \"urn:k\";
  prefix k;
  choice how {
    default slow;
    case slow { leaf rate { type uint8; default 3; } }
    case fast { leaf boost { type uint8; } }
  }
  leaf want { type leafref { path /k:rate; } }
}
";

/// Entries with a `unique` through a container, and items.
pub const ENTRIES: &str = "module v {
  yang-version 1.1;
  namespace \"urn:v\";
  prefix v;
  list e {
    key id; unique \"in/x\";
    leaf id { type uint8; }
    container in { leaf x { type string; } }
    leaf-list m { type uint8; }
  }
}
";

/// A container with presence and its items, and a list of state without keys.
pub const STATE: &str = "module w {
  yang-version 1.1;
  namespace \"urn:w\";
  prefix w;
  container c {
    presence on;
    leaf-list tag { type string; }
    leaf up { status deprecated; config false; type boolean; }
  }
  list log { config false; leaf at { type uint64; mandatory true; } }
}
";
