//! Modules from their texts, and their schema; nothing where memory runs out or one of them is refused.

use std::alloc::{AllocError, Global};
use yschema::compile;
use yschema_model::Schema;
use ytext::{Module, TextFault, parse};

// Puts a module behind others, unless its text is refused. Nothing for want of memory.
fn push_module(alloc: Global, modules: &mut Vec<Module>, text: &str) -> Option<()> {
    match parse(alloc, text.as_bytes()) {
        Ok(module) => modules.push(module).ok(),
        Err(TextFault::Memory) => None,
        Err(_) => Some(()),
    }
}

/// The modules of texts, without those that are refused. Nothing for want of memory.
pub(crate) fn modules_of(alloc: Global, texts: &[&str]) -> Option<Vec<Module>> {
    let mut modules = Vec::new(alloc);
    for text in texts {
        push_module(alloc, &mut modules, text)?;
    }
    Some(modules)
}

pub(crate) fn schema_of(alloc: Global, texts: &[&str]) -> Option<Schema> {
    let modules = modules_of(alloc, texts)?;
    compile(alloc, &modules).ok()
}

/// A text of a row: `|` stands for a line feed.
pub(crate) fn with_line_feeds(alloc: Global, text: &str) -> Result<String, AllocError> {
    let mut whole = String::new(alloc);
    push_with_line_feeds(&mut whole, text)?;
    Ok(whole)
}

/// The same behind another text.
pub(crate) fn push_with_line_feeds(whole: &mut String, text: &str) -> Result<(), AllocError> {
    for letter in text.chars() {
        whole.push(if letter == '|' { '\n' } else { letter })?;
    }
    Ok(())
}

pub(crate) fn push_times(text: &mut String, part: &str, times: u32) -> Result<(), AllocError> {
    for _ in 0..times {
        text.push_str(part)?;
    }
    Ok(())
}

/// A module of these statements, the first of which stands in line 3.
pub(crate) fn module_text(alloc: Global, statements: &str) -> Result<String, AllocError> {
    let mut text = String::from_str(alloc, "module m {\n namespace 'u';\n prefix p;")?;
    text.push_str(statements)?;
    text.push_str("}")?;
    Ok(text)
}
