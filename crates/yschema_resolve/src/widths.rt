//! Unions that have too many members with those of what their leafrefs lead to.

ghost use Rattle.std.specs.Prelude.{◌≡◌, ◌&&◌, Some, slice_get};
ghost use Rattle.yspec.specs.linking.Planned as spec;
ghost use Rattle.yspec_wide.specs.Types as wide;
ghost use Rattle.ylink_grammar.specs.LanguageView.{language_view};
ghost use Rattle.yschema_plan.specs.NodesView.{node_view};
ghost use Rattle.yschema_types.specs.TypesView.{AreTyped, is_wide_in};
ghost use Rattle.yspec_wide.specs.Language as languages;

use ylink::Language;
use yschema_plan::PlanNode;
use yschema_types::Types;

/// Whether a leaf or leaf-list has such a union for its type.
fn is_wide_leaf(types: &Types<'_, '_>, node: PlanNode<'_, '_>) -> bool
    ensures { (language : languages.Language) (plan : spec.Plan) → AreTyped types.now language plan
        → slice_get (spec.nodes_of plan) node.entry.number ≡ Some (node_view node.entry)
        → let p = node_view node.entry in result ≡ (spec.is_leaf_or_leaf_list p
        && wide.is_wide_over (wide.standing_names language plan.modules) plan p) }
{
    if node.planned.is_leaf_or_leaf_list() {
        types.is_wide(node.number)
    } else {
        false
    }
}

/// The same in a language: the core has no such unions.
pub(crate) fn is_too_wide(
    language: &Language,
    types: &Types<'_, '_>,
    node: PlanNode<'_, '_>,
) -> bool
    ensures { (plan : spec.Plan) → AreTyped types.now (language_view language.now) plan
        → slice_get (spec.nodes_of plan) node.entry.number ≡ Some (node_view node.entry)
        → result ≡ is_wide_in (language_view language.now) plan (node_view node.entry) }
{
    match language {
        Language::Core => false,
        Language::Rfc(_) => is_wide_leaf(types, node),
    }
}
