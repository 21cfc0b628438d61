//! What conditions ask (RFC 7950, 7.20.2; RFC 6020, 7.18.2).

ghost use Rattle.std.specs.Prelude.{◌≡◌, [], IfOk};
ghost use Rattle.std.specs.Option.{option_map_or};
ghost use Rattle.yspec_wide.specs.Expressions.{names_in, expression_of};
ghost use Rattle.ytext.specs.View as text;
ghost use Rattle.ylink_arguments.specs.NameView.{names_view};
ghost use Rattle.ylink_conditions.specs.View.{version_view};
ghost use Rattle.ylink_grammar.specs.NamedType.{argument_text};

use std::alloc::{AllocError, Global};
use ylink_arguments::Name;
use ylink_conditions::{YangVersion, expression_of};
use ylink_grammar::Source;

/// The names of the features that a condition asks for, in a module of a version.
pub(crate) fn names_asked<'t>(
    alloc: Global,
    version: YangVersion,
    condition: &Source<'t>,
) -> Result<Vec<Name<'t>>, AllocError>
    ensures { IfOk result (λ names. names_view names.items ≡ option_map_or names_in
        (expression_of (version_view version)
        (argument_text (text.view condition.now.statement.now).0)) []) }
{
    let mut names = Vec::new(alloc);
    match expression_of(alloc, version, condition.argument())? {
        Some(expression) => {
            expression.add_names(&mut names)?;
            Ok(names)
        }
        None => Ok(names),
    }
}
