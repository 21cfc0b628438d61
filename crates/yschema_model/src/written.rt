//! Names as documents write them (RFC 7951, 4).

ghost use Rattle.std.specs.Prelude.{◌≡◌, ◌++◌, [], Some, codes, IfOk, string_bytes, position, false};
ghost use Rattle.std.specs.Option.{option_map_or};
ghost use Rattle.yspec.specs.Forest.{end, node};
ghost use Rattle.yspec.specs.text.Text.{is_text};
ghost use Rattle.yspec.specs.schema.Schema as spec;
ghost use Rattle.yspec.specs.schema.Schema.{data_row, first_in_row, is_called};
ghost use Rattle.yspec.specs.document.Writing.{IsNamed, ModulesDiffer};
ghost use Rattle.yschema_model.specs.Layout.{node_view, number_of, schema_view};
ghost use Rattle.yschema_model.specs.View.{row_view, label_of, below_of};

use crate::children::{Child, Children};
use crate::node::{SchemaId, SchemaNode};
use crate::schema::SchemaModule;
use std::alloc::{AllocError, Global};

/// The name that a document writes for a node whose parent is of a module, or that stands at the top.
pub(crate) fn written_name(
    alloc: Global,
    modules: &[SchemaModule],
    parent_module: Option<usize>,
    node: &SchemaNode,
) -> Result<String, AllocError>
    ensures { IfOk result (λ s. string_bytes s
        ≡ spec.written_name (schema_view modules.now []) parent_module (node_view 0 node.now)) }
{
    if parent_module == Some(node.module) {
        String::from_str(alloc, node.name.as_str())
    } else {
        qualified_name(alloc, modules, node)
    }
}

/// The form that isn't due there.
pub(crate) fn other_name(
    alloc: Global,
    modules: &[SchemaModule],
    parent_module: Option<usize>,
    node: &SchemaNode,
) -> Result<String, AllocError>
    ensures { IfOk result (λ s. string_bytes s
        ≡ spec.other_name (schema_view modules.now []) parent_module (node_view 0 node.now)) }
{
    if parent_module == Some(node.module) {
        qualified_name(alloc, modules, node)
    } else {
        String::from_str(alloc, node.name.as_str())
    }
}

/// The name of a node's module, a colon and its name.
pub(crate) fn qualified_name(
    alloc: Global,
    modules: &[SchemaModule],
    node: &SchemaNode,
) -> Result<String, AllocError>
    ensures { IfOk result (λ s. string_bytes s
        ≡ spec.qualified_name (schema_view modules.now []) (node_view 0 node.now)) }
{
    let mut name = String::from_str(alloc, name_at(modules, node.module))?;
    name.push_str(":")?;
    name.push_str(node.name.as_str())?;
    Ok(name)
}

/// The first data node of a row whose name a document writes so where the parent is of a module; choices and cases are
/// passed through (RFC 7950, 7.9).
#[cycle(written)]
pub(crate) fn first_written(
    modules: &[SchemaModule],
    parent_module: usize,
    children: Children<'_>,
    name: &str,
) -> Option<SchemaId>
    ensures { number_of result ≡ first_in_row
        (λ n. is_text name.now (spec.written_name (schema_view modules.now [])
        (Some parent_module) n)) (data_row (row_view children.entry)) }
{
    for child in children {
        if let Some(found) = written_at(modules, parent_module, child, name) {
            return Some(found);
        }
    }
    None
}

/// A data node, if its name is written so, or the first such in a choice or case.
#[cycle(written)]
fn written_at(
    modules: &[SchemaModule],
    parent_module: usize,
    child: Child<'_>,
    name: &str,
) -> Option<SchemaId>
    ensures { number_of result ≡ first_in_row (λ n. is_text name.now
        (spec.written_name (schema_view modules.now []) (Some parent_module) n))
        (data_row (node (label_of child.entry) (below_of child.entry) end)) }
{
    if !child.node().kind.is_data() {
        first_written(modules, parent_module, child.children(), name)
    } else if is_written(modules, Some(parent_module), child.node(), name) {
        Some(child.id())
    } else {
        None
    }
}

/// Whether a document writes the name of a node so where the parent is of a module, or the node stands at the top.
pub(crate) fn is_written(
    modules: &[SchemaModule],
    parent_module: Option<usize>,
    node: &SchemaNode,
    name: &str,
) -> bool
    ensures { result ≡ is_text name.now
        (spec.written_name (schema_view modules.now []) parent_module (node_view 0 node.now)) }
{
    if parent_module == Some(node.module) {
        name == node.name.as_str()
    } else {
        let module = name_at(modules, node.module);
        is_qualified(name.as_bytes(), module.as_bytes(), node.name.as_bytes())
    }
}

/// Whether a text is the name of a module, a colon and a name.
fn is_qualified(text: &[u8], module: &[u8], name: &[u8]) -> bool
    ensures { result ≡ is_text text.now («module».now ++ codes ":" ++ name.now) }
{
    match text.strip_prefix(module) {
        Some(behind) => match behind.split_first() {
            Some((first, rest)) => *first == b':' && rest == name,
            None => false,
        },
        None => false,
    }
}

/// The name of the module of a number, or no text.
fn name_at(modules: &[SchemaModule], module: usize) -> &str
    ensures { result.now ≡ spec.module_name (schema_view modules.now []) «module» }
{
    match modules.get(module) {
        Some(found) => found.name.as_str(),
        None => "",
    }
}

/// A name as it is meant: of a module, by its number.
#[derive(Clone, Copy)]
pub(crate) struct MeantName<'n> {
    pub module: usize,
    pub name: &'n str,
}

/// What a name means that a document writes below a node of a module, or at the top.
pub(crate) fn meant_name<'n>(
    modules: &[SchemaModule],
    own: Option<usize>,
    name: &'n str,
) -> Option<MeantName<'n>>
    ensures { let schema = schema_view modules.now [] in
        ModulesDiffer schema → (n : _) → IsNamed schema n
        → is_text name.now (spec.written_name schema own n)
        ≡ option_map_or (λ m. is_called m.«module» m.name.now n) result false }
{
    let Some((module, behind)) = name.split_once(':') else {
        return Some(MeantName { module: own?, name });
    };
    let module = module_named(modules, module)?;
    if own == Some(module) {
        return None;
    }
    Some(MeantName {
        module,
        name: behind,
    })
}

/// The number of the first of some modules that has a name.
pub(crate) fn module_named(modules: &[SchemaModule], name: &str) -> Option<usize>
    ensures { result ≡ position (λ m. is_text (string_bytes m.name) name.now) modules.now }
{
    modules
        .iter()
        .position(|module| module.name.as_str() == name)
}
