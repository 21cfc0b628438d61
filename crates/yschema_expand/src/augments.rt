//! The augments of a set of modules (RFC 7950, 7.17).

ghost use Rattle.std.specs.Prelude.{◌≡◌, ◌++◌, IfOk, OnOk, map};
ghost use Rattle.yspec.specs.linking.Augments as spec;
ghost use Rattle.ybase_preorder.specs.View.{row_by};
ghost use Rattle.ylink_grammar.specs.SourceView.{source_view};
ghost use Rattle.yschema_expand.specs.AugmentView.{augments_seen};
ghost use Rattle.yschema_expand.specs.NamedView.{modules_of};

use crate::named::Named;
use std::alloc::{AllocError, Global};
use ybase_preorder::{Node, Siblings};
use ybase_words::Keyword;
use ylink_grammar::Source;

/// Adds the augments of a row of statements to others.
fn collect<'a, 't>(
    statements: Siblings<'a, Source<'t>>,
    augments: &mut Vec<Node<'a, Source<'t>>>,
) -> Result<(), AllocError>
    ensures { OnOk result (augments_seen augments.new.items ≡ augments_seen augments.old.items
        ++ spec.augments_in (row_by source_view statements.entry)) }
{
    for statement in statements {
        if Keyword::Augment.is(statement.label().keyword) {
            augments.push(statement)?;
        }
    }
    Ok(())
}

/// The `augment` statements of a set of modules, in order.
pub fn augments_of<'a, 't>(
    alloc: Global,
    named: &Named<'a, 't>,
) -> Result<Vec<Node<'a, Source<'t>>>, AllocError>
    ensures { IfOk result (λ augments. augments_seen augments.items
        ≡ spec.augments_of (modules_of named.now)) }
{
    let mut augments = Vec::new(alloc);
    for top in named.sources().modules() {
        collect(top.children(), &mut augments)?;
    }
    Ok(augments)
}
