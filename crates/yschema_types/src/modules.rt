//! What the modules of a set call themselves and one another (RFC 7950, 7.1.4 and 7.1.5).

ghost use Rattle.std.specs.Prelude.{◌≡◌, IfOk};
ghost use Rattle.ybase_preorder.specs.View.{row_by, label_by};
ghost use Rattle.ylink_grammar.specs.SourceView.{source_view};
ghost use Rattle.yschema_types.specs.ModulesView.{named_view, names_by};

use std::alloc::{AllocError, Global};
use std::rc::Rc;
use ybase_preorder::Node;
use ylink::{Linked, prefixed_in};
use ylink_grammar::{Source, argument_of};
use ytype::{ModuleNames, YType};

/// What a module calls itself, and which modules its prefixes stand for, by name.
#[derive(Drop)]
struct NamedModule<'t> {
    // Shared by the types of its leafs.
    own: Rc<String>,
    prefixed: Vec<(&'t str, &'t str)>,
}

/// The modules of a set, by their numbers.
#[derive(Drop)]
pub struct ModuleTable<'t> {
    modules: Vec<NamedModule<'t>>,
}

/// What a `module` statement calls itself and others.
fn named_module<'t>(alloc: Global, top: Node<'_, Source<'t>>) -> Result<NamedModule<'t>, AllocError>
    ensures { IfOk result (λ m. named_view m ≡ names_by (label_by source_view top.entry)
        (row_by source_view top.entry.children)) }
{
    let name = argument_of(top);
    let own = Rc::new(alloc, String::from_str(alloc, name)?)?;
    let prefixed = prefixed_in(alloc, name, top.children())?;
    Ok(NamedModule { own, prefixed })
}

impl<'t> ModuleTable<'t> {
    ghost use Rattle.std.specs.Prelude.{◌≡◌, IfOk};
    ghost use Rattle.yspec.specs.types.Types.{type_in};
    ghost use Rattle.ytype.specs.Identities.{module_names_view};
    ghost use Rattle.ylink.specs.LinkedView.{view};
    ghost use Rattle.yschema_types.specs.ModulesView.{AreNamesOf, names_in};

    /// The modules whose statements are linked.
    pub fn of(alloc: Global, linked: &Linked<'t>) -> Result<ModuleTable<'t>, AllocError>
        ensures { IfOk result (λ table. AreNamesOf table (view linked.now)) }
    {
        let mut modules = Vec::new(alloc);
        for top in linked.sources().modules() {
            modules.push(named_module(alloc, top)?)?;
        }
        Ok(ModuleTable { modules })
    }

    /// What the module of a number calls itself and others; nothing where there is no such module.
    pub fn names(&self, number: usize) -> ModuleNames<'_>
        ensures { module_names_view result ≡ names_in self.now number }
    {
        match self.modules.get(number) {
            Some(named) => ModuleNames {
                own: named.own.as_str(),
                prefixed: named.prefixed.as_slice(),
            },
            None => ModuleNames {
                own: "",
                prefixed: &[],
            },
        }
    }

    /// A type as the leafs of the module of a number have it (RFC 7951, 6.8).
    pub fn type_in(
        &self,
        alloc: Global,
        number: usize,
        value_type: &YType,
    ) -> Result<YType, AllocError>
        ensures { IfOk result (λ made. made
            ≡ type_in (names_in self.now number).own value_type.now) }
    {
        match self.modules.get(number) {
            Some(named) => value_type.of_module(alloc, &named.own),
            None => {
                let none = Rc::new(alloc, String::new(alloc))?;
                value_type.of_module(alloc, &none)
            }
        }
    }
}
