//! How `uses` are replaced by the nodes of their groupings (RFC 7950, 7.13).

ghost use Rattle.std.specs.Prelude.{◌≡◌, IfOk, None};
ghost use Rattle.yspec_wide.specs.Expansion.{expanded_parts_in, unfit_breaks_in};
ghost use Rattle.yspec.specs.schema.Breaks.{least_from};
ghost use Rattle.ybase_preorder.specs.Layout.{places};
ghost use Rattle.ylink_grammar.specs.BreakView.{seen};
ghost use Rattle.yschema_expand.specs.NamedView.{language_of, modules_of};
ghost use Rattle.yschema_expand.specs.TableView.{parts_in};
ghost use Rattle.yschema_expand.specs.Knowing.{Knows};

use crate::groupings::Groupings;
use crate::named::Named;
use crate::table::NodeTable;
use crate::walking::add_nodes;
use std::alloc::{AllocError, Global};
use ylink_grammar::BrokenRule;

/// The nodes that are made, and the least of the refines that aren't fit (C14).
#[derive(Drop)]
pub struct Made<'a, 't> {
    pub table: NodeTable<'a, 't>,
    pub told: Option<BrokenRule>,
}

/// What is looked up on the way: statements, and what is known of groupings.
#[derive(Drop)]
pub struct Context<'a, 't> {
    pub named: &'a Named<'a, 't>,
    pub groupings: &'a Groupings,
}

/// Where nodes come to stand.
#[derive(Clone, Copy)]
pub(crate) struct Place {
    /// The number of the node above them.
    pub parent: Option<u32>,
    /// The number of the module that uses them.
    pub owner: usize,
    /// By way of how many groupings they may come.
    pub depth: usize,
}

/// The nodes that all modules define, each `uses` replaced and its conditions asked of what it brings, and the least of the
/// refines that aren't fit.
pub fn expanded<'a, 't>(
    alloc: Global,
    named: &'a Named<'a, 't>,
    groupings: &'a Groupings,
) -> Result<Made<'a, 't>, AllocError>
    requires { Knows groupings.now (language_of named.now) (modules_of named.now) }
    ensures nodes { IfOk result (λ made. parts_in made.table
        ≡ places None 0 (expanded_parts_in (language_of named.entry.now) (modules_of named.entry.now))) }
    ensures told { IfOk result (λ made. seen made.told
        ≡ least_from None (unfit_breaks_in (language_of named.entry.now) (modules_of named.entry.now))) }
{
    let context = Context { named, groupings };
    let sources = named.sources();
    let depth = sources.slots().len() + 1;
    let mut made = Made {
        table: NodeTable::new(alloc),
        told: None,
    };
    for top in sources.modules() {
        let place = Place {
            parent: None,
            owner: top.label().home,
            depth,
        };
        add_nodes(alloc, &context, place, false, top.children(), &mut made)?;
    }
    Ok(made)
}
