//! What the modules of a set call themselves and others (RFC 7950, 7.1.4 and 7.1.5).

ghost use Rattle.std.specs.Prelude.{◌≡◌, ◌++◌, IfOk, OnOk, map, option_map};
ghost use Rattle.yspec.specs.linking.Identities.{prefixed_in};
ghost use Rattle.ybase_preorder.specs.View.{row_by, label_by};
ghost use Rattle.ylink_grammar.specs.LinkView.{view};
ghost use Rattle.ylink_grammar.specs.SourceView.{node_view, source_view};
ghost use Rattle.ytype.specs.Identities.{pair_view};
ghost use Rattle.ylink.specs.ModuleView.{declared_by, module_in};

use std::alloc::{AllocError, Global};
use ybase_preorder::{Node, Siblings};
use ybase_words::Keyword;
use ylink_grammar::{Source, Sources, argument_of, argument_with};

/// The `module` statement of a number in a set.
pub(crate) fn module_at<'a, 't>(
    sources: &'a Sources<'t>,
    number: usize,
) -> Option<Node<'a, Source<'t>>>
    ensures { option_map node_view result ≡ module_in (view sources.entry.now) number }
{
    let mut left = number;
    for top in sources.modules() {
        if left == 0 {
            return Some(top);
        }
        left -= 1;
    }
    None
}

/// Adds the prefix that a statement declares in a module of a name, and the name of the module for which that stands.
fn add_prefix<'t>(
    own: &'t str,
    statement: Node<'_, Source<'t>>,
    made: &mut Vec<(&'t str, &'t str)>,
) -> Result<(), AllocError>
    ensures { OnOk result (map pair_view made.new.items ≡ map pair_view made.old.items
        ++ declared_by own.entry.now (node_view statement.entry)) }
{
    let keyword = statement.label().keyword;
    if Keyword::Prefix.is(keyword) {
        made.push((argument_of(statement), own))?;
    } else if Keyword::Import.is(keyword) {
        if let Some(prefix) = argument_with(Keyword::Prefix, statement.children()) {
            made.push((prefix, argument_of(statement)))?;
        }
    }
    Ok(())
}

/// The prefixes that the row of a module of a name declares, each with the name of the module for which it stands.
pub fn prefixed_in<'t>(
    alloc: Global,
    own: &'t str,
    body: Siblings<'_, Source<'t>>,
) -> Result<Vec<(&'t str, &'t str)>, AllocError>
    ensures { IfOk result (λ made. map pair_view made.items
        ≡ prefixed_in own.entry.now (row_by source_view body.entry)) }
{
    let mut made = Vec::new(alloc);
    for statement in body {
        add_prefix(own, statement, &mut made)?;
    }
    Ok(made)
}
