//! The modules of the documents and edits, and their schemas.

use std::alloc::Global;
use yschema::compile;
use yschema_model::Schema;
use ytext::{Module, parse};

/// A host with items, entries and a choice, and links.
const NET: &str = "module net {
  yang-version 1.1; namespace \"urn:net\"; prefix n;
  container host {
    leaf name { type string; }
    leaf-list tag { type string; }
    list port {
      key id; leaf id { type uint8; } leaf speed { type uint16; }
      container state { leaf up { type boolean; } }
    }
    choice how { case slow { leaf rate { type uint8; } } leaf fast { type empty; } }
  }
  list link { key id; leaf id { type uint8; } }
}
";

/// What another module adds to its ports.
const ADDED: &str = "module added {
  yang-version 1.1; namespace \"urn:added\"; prefix a;
  import net { prefix n; }
  augment /n:host/n:port { leaf label { type string; } container more { leaf depth { type uint8; } } }
}
";

/// A list with a key, one with two and one with none; items, a container and a choice.
pub(crate) const LINES: &str = "module net {
  yang-version 1.1; namespace \"urn:net\"; prefix n;
  container host { leaf name { type string; } leaf-list server { type string; } }
  list link { key id; leaf id { type string; } leaf mtu { type uint16; }
    container state { leaf up { type boolean; } choice how { case quick { leaf rate { type uint8; } } leaf slow { type uint8; } } }
  }
  list route { key \"prefix metric\"; leaf prefix { type string; } leaf metric { type uint8; } }
  list note { config false; leaf text { type string; } }
}
";

// Puts the module of a text behind others.
fn push_module(alloc: Global, modules: &mut Vec<Module>, text: &str) -> Option<()> {
    modules.push(parse(alloc, text.as_bytes()).ok()?).ok()
}

/// The modules of texts; nothing where memory runs out or one is refused.
pub(crate) fn modules_of(alloc: Global, texts: &[&str]) -> Option<Vec<Module>> {
    let mut modules = Vec::new(alloc);
    for text in texts {
        push_module(alloc, &mut modules, text)?;
    }
    Some(modules)
}

/// The schema of modules.
pub(crate) fn schema_of(alloc: Global, texts: &[&str]) -> Option<Schema> {
    let modules = modules_of(alloc, texts)?;
    compile(alloc, &modules).ok()
}

/// The schema of the host with what is added to its ports.
pub(crate) fn host_schema(alloc: Global) -> Option<Schema> {
    schema_of(alloc, &[NET, ADDED])
}
