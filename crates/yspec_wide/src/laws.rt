//! The core is what it is without a language, and nothing is cut where all conditions hold.

ghost use Rattle.std.specs.Prelude.{◌≡◌, true, false, []};
ghost use Rattle.std.specs.List.{list_any};
ghost use Rattle.yspec.specs.Forest.{preorder};
ghost use Rattle.yspec.specs.linking.Table.{rule_of};
ghost use Rattle.yspec.specs.linking.StatementBreaks.{statement_phase};
ghost use Rattle.yspec.specs.linking.Source.{sources_of};
ghost use Rattle.yspec.specs.linking.TypeStatements.{is_pattern_statement};
ghost use Rattle.yspec.specs.linking.Expansion.{unfit_breaks};
ghost use Rattle.yspec.specs.linking.Augments.{augmented, augment_breaks};
ghost use Rattle.yspec.specs.linking.Planned.{type_of};
ghost use Rattle.yspec.specs.linking.Compiling.{linking_phases, linked, compiled};
ghost use Rattle.yspec_wide.specs.Language.{core, rfc, yang_1_1, version_below};
ghost use Rattle.yspec_wide.specs.Words.{known};
ghost use Rattle.yspec_wide.specs.Table.{rule_in, rule_before};
ghost use Rattle.yspec_wide.specs.StatementBreaks.{top_breaks, statement_phase_in};
ghost use Rattle.yspec_wide.specs.Sources.{is_feature, is_condition, sources_in};
ghost use Rattle.yspec_wide.specs.Compiling.{linking_phases_in, linked_in, compiled_in};
ghost use Rattle.yspec_wide.specs.Expansion.{augmented_in, unfit_breaks_in, augment_breaks_in};
ghost use Rattle.yspec_wide.specs.Types.{all_names, type_of_kept};
ghost use Rattle.yspec_wide.specs.Standing.{standing, standing_by, all_stand};

/// Under the core a set of modules compiles to the schema that it has without a language, or the same rule is told of it.
pub fn core_compiles()
    ensures { (modules : _) → compiled_in core modules ≡ compiled modules }
{}

/// The table row by row; and of every set of modules the rules of the table that it breaks, and the statements that linking
/// stands on.
pub fn core_table()
    ensures rows { (version k : _) → rule_in core version (known k) ≡ rule_before (rule_of k) }
    ensures told { (modules : _) → statement_phase_in core modules ≡ statement_phase modules }
    ensures kept { (modules : _) → sources_in core modules ≡ sources_of modules }
{}

/// Of what the core keeps no language would say that it is a feature, a condition or a pattern.
pub fn no_conditions_in_the_core()
    ensures features { (wide modules : _) → list_any (is_feature (rfc wide)) (preorder (sources_in core modules)) ≡ false }
    ensures conditions { (wide modules : _) → list_any (is_condition (rfc wide)) (preorder (sources_in core modules)) ≡ false }
    ensures patterns { (modules : _) → list_any is_pattern_statement (preorder (sources_in core modules)) ≡ false }
{}

/// A module of which the core breaks no rule of the table says that it is one of YANG 1.1.
pub fn versions_in_the_core()
    ensures { (m s below : _) → top_breaks core m s below ≡ [] → version_below below ≡ yang_1_1 }
{}

/// Linking breaks the same rules phase by phase, and a set of modules links to the same statements.
pub fn core_links()
    ensures linked { (modules : _) → linked_in core modules ≡ linked modules }
    ensures phases { (modules : _) → linking_phases_in core modules ≡ linking_phases modules }
{}

/// Groupings and augments are expanded to the same nodes, the same augments are left, and all of the nodes stand.
pub fn core_expands()
    ensures expanded { (modules : _) → augmented_in core modules ≡ augmented modules }
    ensures unfit { (modules : _) → unfit_breaks_in core modules ≡ unfit_breaks modules }
    ensures left { (modules : _) → augment_breaks_in core modules ≡ augment_breaks modules }
    ensures uncut { (modules parts : _) → standing core modules parts ≡ parts }
{}

/// Where all names of values are kept, the type of each leaf and leaf-list is what it is without a language.
pub fn kept_types()
    ensures { (plan p : _) → type_of_kept all_names plan p ≡ type_of plan p }
{}

/// Where all parts pass a test, all of them stand as they are.
pub fn all_stand_as_they_are()
    ensures { (test parts : _) → all_stand test parts ≡ true → standing_by test parts ≡ parts }
{}
