//! Laws of what is told, and of totals, in a store.

ghost use Rattle.std.specs.Prelude.{◌≡◌, ◌<◌, ◌≤◌, ◌^◌, ℕ, List, Option, option_map};
ghost use Rattle.yspec.specs.Forest.{end, node, join, size};
ghost use Rattle.ystore_rows.specs.Rows.{Child};
ghost use Rattle.ystore.specs.Held.{with_children, with_room};
ghost use Rattle.ystore.specs.Entries.{Entry};
ghost use Rattle.ystore.specs.Store.{total_at, ChangesRow, ChangesEntry, Stays};
ghost use Rattle.ystore.specs.declared.key.Key.{Key};
ghost use Rattle.ystore_rows.specs.declared.row.NodeId.{NodeId};
ghost use Rattle.ystore_rows.specs.declared.row.Row.{Row};
ghost use Rattle.ystore_rows.specs.declared.row.Row.TheVariants.{Top, Below};
ghost use Rattle.ystore.specs.declared.nodes.Nodes.{Nodes};
ghost use Rattle.ystore_tree.specs.Hanging.{Numbered, Branches, Keeps, times};
ghost use Rattle.ystore_tree.specs.Ways.{Way, around, end_of};
ghost use Rattle.ystore_tree.specs.Changes.{SameShapes, with_node, with_node_at};
ghost use Rattle.ystore_tree.specs.Parts.{OnlyReads};
ghost use Rattle.ylive_marks.specs.Totals.{AreTotals, Climbs, IsSmall, IsTree, OnlyFaults, SameFaults, TellsNothing, Totals, told_at, told_count};

/// What leaves all that is told and all totals: changes of a row's children or of its room, entries of the index, growths and
/// reads.
pub fn same_faults()
    ensures children { (above : Row) (before after : Nodes) (change : List Child → List Child)
        → ChangesRow above (option_map (with_children change)) before after → SameFaults before after }
    ensures room { (above : Row) (before after : Nodes) (room : ℕ)
        → ChangesRow above (option_map (with_room room)) before after → SameFaults before after }
    ensures entries { (key : Key) (change : Option Entry → Option Entry) (before after : Nodes)
        → ChangesEntry key change before after → SameFaults before after }
    ensures growth { (before after : Nodes) → Stays before after → SameFaults before after }
    ensures reads { (before after : Nodes) → OnlyReads before after → SameFaults before after }
    ensures joined { (first second third : Nodes) → SameFaults first second → SameFaults second third → SameFaults first third }
{}

/// Totals are right as long as what is told and all totals stay, and a climb is one beside changes that leave them. It leaves
/// the totals of nodes beside the forest.
pub fn kept_totals()
    ensures totals { (before after : Nodes) (f : Branches) → SameFaults before after → Totals before f → Totals after f }
    ensures climbs { (first before after last : Nodes) (way : Way) (more less : ℕ) → SameFaults first before
        → Climbs way more less before after → SameFaults after last → Climbs way more less first last }
    ensures beside { (before after : Nodes) (way : Way) (f : Branches) (more less : ℕ) (id : NodeId) → Climbs way more less before after
        → times id.0 (around way f) ≡ 0 → total_at after (Below id) ≡ total_at before (Below id) }
{}

/// A forest hangs on the top as long as all shapes stay; writes of faults leave them.
pub fn kept_trees()
    ensures kept { (nodes : Nodes) (f : Branches) (above : Row) (loose : Branches) → Keeps nodes f above loose → IsTree nodes f }
    ensures shapes { (before after : Nodes) (f : Branches) → SameShapes before after → IsTree before f → IsTree after f }
    ensures faults { (before after : Nodes) → OnlyFaults before after → SameShapes before after }
    ensures joined { (first second third : Nodes) → OnlyFaults first second → OnlyFaults second third → OnlyFaults first third }
{}

/// Where a row changes, wherever it stands, the totals are right once the rows above it have climbed by the total of what came
/// into it and of what was taken out; a node that moves in its row changes none.
pub fn changed_totals()
    ensures added { (before after : Nodes) (way : Way) (f : Branches) (n : Numbered) (below : Branches) (more : ℕ)
        → Totals before (around way f) → IsTree before (around way f) → AreTotals after (node n below end)
        → total_at after (Below n.id) ≡ more → size (around way (with_node n below f)) ≤ 2 ^ 28
        → Climbs way more 0 before after → Totals after (around way (with_node n below f)) }
    ensures put { (before after : Nodes) (way : Way) (first rest : Branches) (m : Numbered) (under : Branches) (n : Numbered) (below : Branches) (more less : ℕ)
        → Totals before (around way (join first (node m under rest))) → IsTree before (around way (join first (node m under rest)))
        → AreTotals after (node n below end)
        → total_at after (Below n.id) ≡ more → total_at before (Below m.id) ≡ less → size (around way (join first (node n below rest))) ≤ 2 ^ 28
        → Climbs way more less before after → Totals after (around way (join first (node n below rest))) }
    ensures taken { (before after : Nodes) (way : Way) (first rest : Branches) (m : Numbered) (under : Branches) (less : ℕ)
        → Totals before (around way (join first (node m under rest))) → IsTree before (around way (join first (node m under rest)))
        → total_at before (Below m.id) ≡ less
        → Climbs way 0 less before after → Totals after (around way (join first rest)) }
    ensures moved { (before after : Nodes) (way : Way) (first rest : Branches) (m : Numbered) (under : Branches) (place : ℕ)
        → Totals before (around way (join first (node m under rest))) → IsTree before (around way (join first (node m under rest)))
        → SameFaults before after → Totals after (around way (with_node_at place m under (join first rest))) }
{}

/// A branch of nodes at which nothing is told, and whose totals are 0, has right totals, and so has a document of such nodes;
/// where such a branch is added, nothing climbs. It stays so as long as the same is told of its nodes, with the same totals.
pub fn silent_branches()
    ensures totals { (nodes : Nodes) (f : Branches) → TellsNothing nodes f → AreTotals nodes f }
    ensures document { (nodes : Nodes) (f : Branches) → TellsNothing nodes f → told_count nodes Top ≡ 0 → total_at nodes Top ≡ 0
        → IsSmall nodes f → Totals nodes f }
    ensures kept { (before after : Nodes) (f : Branches) → ((id : NodeId) → 0 < times id.0 f
        → (told_at after (Below id) ≡ told_at before (Below id)) × (total_at after (Below id) ≡ total_at before (Below id)))
        → TellsNothing before f → TellsNothing after f }
    ensures added { (before after : Nodes) (way : Way) (f : Branches) (n : Numbered) (below : Branches)
        → Totals before (around way f) → IsTree before (around way f) → TellsNothing after (node n below end)
        → size (around way (with_node n below f)) ≤ 2 ^ 28
        → SameFaults before after → Totals after (around way (with_node n below f)) }
{}
