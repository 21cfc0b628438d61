//! Names that two modules share (RFC 7950, 5.1).

ghost use Rattle.std.specs.Prelude.{◌≡◌, [], IfOk};
ghost use Rattle.yspec.specs.schema.Schema.{argument_text};
ghost use Rattle.yspec.specs.schema.Breaks.{least_from, module_breaks};
ghost use Rattle.ytext.specs.View.{view, modules_view};
ghost use Rattle.ylink_grammar.specs.BreakView.{seen};

use indexmap::IndexSet;
use std::alloc::{AllocError, Global};
use ylink_grammar::{BrokenRule, CompileCode, broken, least_when};
use ytext::{Module, Stmt};

/// The name of a module's statement.
fn name_of(statement: &Stmt) -> &str
    ensures { result.now ≡ argument_text (view statement.now).0 }
{
    statement.argument().unwrap_or(statement.keyword())
}

/// The least of one so far and of the modules that are named as one before them in the set.
pub(crate) fn repeated_module(
    alloc: Global,
    modules: &[Module],
    so_far: Option<BrokenRule>,
) -> Result<Option<BrokenRule>, AllocError>
    ensures { IfOk result (λ told. seen told
        ≡ least_from (seen so_far) (module_breaks 0 [] (modules_view modules.now))) }
{
    let mut names: IndexSet<&str> = IndexSet::new(alloc);
    let mut told = so_far;
    for (module, text) in modules.iter().enumerate() {
        let is_new = names.insert(name_of(&text.top))?;
        let repeated = broken(CompileCode::C7, module, &text.top);
        told = least_when(!is_new, told, repeated);
    }
    Ok(told)
}
