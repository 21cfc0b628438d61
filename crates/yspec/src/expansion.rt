//! Laws of groupings in use.

ghost use Rattle.std.specs.Prelude.{◌≡◌, ◌+◌, ◌++◌, ℕ, suc, List, [], Some, true, if◌then◌else◌};
ghost use Rattle.std.specs.List.{list_any};
ghost use Rattle.yspec.specs.Forest.{Forest, end, first_of, join, row, size};
ghost use Rattle.yspec.specs.linking.Source.{Source, all_with, found_with, is_source_of};
ghost use Rattle.yspec.specs.linking.Keyword.{Keyword, grouping_word};
ghost use Rattle.yspec.specs.linking.Parts.{Part};
ghost use Rattle.yspec.specs.linking.Expansion.{Grouping, all_refine_breaks, expanded_parts, groupings_of, laid, others, replaced, row_in, row_used, stands_for, unfit_for, unfit_in};
ghost use Rattle.yspec.specs.linking.Augments.{augments_of, sizes_added};
ghost use Rattle.yspec.specs.linking.Scopes.{Placed, statement_at};
ghost use Rattle.yspec.specs.linking.NodeCounts.{count_used, counts_within, node_count};
ghost use Rattle.yspec.specs.linking.Rewriting.{Ends, Rewritten, is_settled, settled};

/// In whatever order each `uses` is replaced whose grouping holds none: once none is left, the nodes are those of the
/// recursion.
pub fn replaced_by_steps()
    ensures { (modules : Forest Source) (owner depth : ℕ) (groupings : List Grouping)
        (nodes last : Forest Part) → Ends modules groupings depth
        → Rewritten modules owner groupings nodes last → is_settled last ≡ true
        → replaced (stands_for modules groupings owner depth) owner nodes ≡ settled owner last }
{}

/// Such steps can be taken until no `uses` is left.
pub fn steps_end()
    ensures { (modules : Forest Source) (owner depth : ℕ) (groupings : List Grouping)
        (nodes : Forest Part) → Ends modules groupings depth → (last : Forest Part)
        × Rewritten modules owner groupings nodes last × (is_settled last ≡ true) }
{}

/// Counting without expanding gives the number of nodes that expanding makes, in modules and in augments.
pub fn counted_nodes()
    ensures { (modules : Forest Source) → node_count modules
        ≡ size (expanded_parts modules) + sizes_added modules (augments_of modules) }
{}

/// A `uses` that is counted as none stands for nothing, so nothing of it needs to be expanded.
pub fn nothing_counted()
    ensures { (modules : Forest Source) (groupings : List Grouping) (owner depth : ℕ) (u : Part)
        → count_used modules (counts_within modules groupings depth) u ≡ 0
        → stands_for modules groupings owner depth u ≡ end }
{}

/// Where a grouping has no nodes, each refine of it is told, whoever uses it.
pub fn refines_without_nodes()
    ensures { (modules : Forest Source) (groupings : List Grouping) (owner depth : ℕ) (u : Part)
        → count_used modules (counts_within modules groupings (suc depth)) u ≡ 0
        → unfit_for modules groupings owner (suc depth) u
        ≡ unfit_in (unfit_for modules groupings owner depth) (row_used modules groupings u)
        ++ all_refine_breaks u.own }
{}

/// The row of a grouping is that of its statement.
pub fn rows_of_groupings()
    ensures { (modules : Forest Source) (number : ℕ) (p : Placed)
        → statement_at modules number ≡ Some p → is_source_of grouping_word p.source ≡ true
        → row_in (groupings_of modules) number ≡ laid p.below }
{}

/// After a refine a node states of each keyword what the refine gives, or where it gives none what it stated before.
pub fn stated_after_refines()
    ensures first { (k : Keyword) (given own : Forest Source)
        → found_with k (join (others given own) given)
        ≡ first_of (found_with k given) (found_with k own) }
    ensures all { (k : Keyword) (given own : Forest Source)
        → all_with k (join (others given own) given)
        ≡ (if list_any (is_source_of k) (row given) then all_with k given else all_with k own) }
{}
