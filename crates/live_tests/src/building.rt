//! A live document under the schema of a module; nothing where memory runs out, or what it is made of is refused.

use std::alloc::Global;
use test_modules::MODULE;
use yinst::read;
use ylive::Live;
use yschema::compile;
use yschema_model::Schema;
use ytext::{Module, TextFault, parse};

/// The modules of texts, without those that are refused. Nothing for want of memory.
pub(crate) fn modules_of(alloc: Global, texts: &[&str]) -> Option<Vec<Module>> {
    let mut modules = Vec::new(alloc);
    for text in texts {
        match parse(alloc, text.as_bytes()) {
            Ok(module) => modules.push(module).ok()?,
            Err(TextFault::Memory) => return None,
            Err(_) => {}
        }
    }
    Some(modules)
}

pub(crate) fn schema_of(alloc: Global, texts: &[&str]) -> Option<Schema> {
    let modules = modules_of(alloc, texts)?;
    compile(alloc, &modules).ok()
}

/// A live document under the schema of a module.
pub(crate) fn live_under(alloc: Global, module: &str, document: &str) -> Option<Live> {
    let schema = schema_of(alloc, &[module])?;
    match read(alloc, &schema, document.as_bytes()) {
        Ok(tree) => Live::from_parts(alloc, schema, tree).ok(),
        Err(_) => None,
    }
}

/// A live document under the schema of the documents' module.
pub(crate) fn live_of(alloc: Global, document: &str) -> Option<Live> {
    live_under(alloc, MODULE, document)
}
