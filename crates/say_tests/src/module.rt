//! The modules of the documents.

/// Hosts with a key, a `unique` and a reference; other lists, items and a choice, in containers with presence.
pub(crate) const NET: &str = "module net {
  yang-version 1.1; namespace \"urn:net\"; prefix n;
  list host {
    key name; unique port; max-elements 3;
    leaf name { type string; }
    leaf speed { type uint16; mandatory true; }
    leaf port { type uint16; }
    leaf uplink { type leafref { path /n:host/n:name; } }
    leaf-list tag { type string; }
  }
  container pairs {
    list pair { key \"a b\"; leaf a { type string; } leaf b { type boolean; } leaf v { type uint8; } }
  }
  list site {
    key name; unique \"at/ip port\";
    leaf name { type string; }
    leaf port { type uint16; default 80; }
    container at { leaf ip { type string; } }
  }
  typedef percent { type uint8 { range \"0..100\" { error-message \"A part\\n  of 100.\"; error-app-tag part; } } }
  container limits {
    leaf small { type uint8 { range \"1..5 | 7\" { error-app-tag \"too big\"; } } }
    leaf word { type string { length 2; } }
    leaf much { type percent { range \"50..100\" { error-message 'At least \"half\".'; } } }
  }
  container more {
    presence more;
    leaf-list item { type uint8; min-elements 2; }
    choice how {
      mandatory true;
      case slow { leaf rate { type uint8; } }
      case fast { choice way { case up { leaf up { type empty; } } leaf down { type empty; } } }
    }
  }
}
";

/// What another module adds to its hosts.
pub(crate) const ADDED: &str = "module added {
  yang-version 1.1; namespace \"urn:added\"; prefix a;
  import net { prefix n; }
  augment /n:host { container in { config false; list port { leaf number { type int8; } } } }
  augment /n:more { choice how { leaf one { type uint8; } leaf two { type uint8; } } }
  augment /n:more { leaf-list of { config false; type leafref { path /n:host/a:in/a:port/a:number; } } }
}
";
