//! Laws of what is told of nodes that aren't stored, and of the list of faults.

ghost use Rattle.std.specs.Prelude.{◌≡◌, ◌≤◌, ◌+◌, ℕ, List, [], Option, Some, Ok, true, false, length, count_by};
ghost use Rattle.yspec.specs.Forest.{Forest, size, weigh_nodes};
ghost use Rattle.yspec.specs.text.Statement.{Statement};
ghost use Rattle.yspec.specs.types.Types.{Val};
ghost use Rattle.yspec.specs.schema.Schema.{Schema, SchemaNode, is_data, node_at, row_at};
ghost use Rattle.yspec.specs.document.Document.{Tree, instances_in};
ghost use Rattle.yspec.specs.document.Fitting.{Fits, IsNumbered};
ghost use Rattle.yspec.specs.document.Play.{in_play};
ghost use Rattle.yspec.specs.document.Instances.{times_below, times_in};
ghost use Rattle.yspec.specs.document.Faults.{Times, RowTimes, Told, faults_of, row_times, told_in, woven};
ghost use Rattle.yspec.specs.linking.Compiling.{compiled};
ghost use Rattle.yspec_play.specs.Absences.{absences_in, defaults_below, defaults_in, given_at, is_default};
ghost use Rattle.yspec_fit.specs.Fit.{CasesInChoices};
ghost use Rattle.yspec_play.specs.Merging.{Ascends, AreChildren, FitsRow, absences_below, listed, listed_in, merged, told_count};

/// Of a numbered row each fault is told of another node, in order, and so of no more nodes than there are in it.
pub fn absences_in_order()
    ensures order { (children : Forest SchemaNode) (least : ℕ) (stored : ℕ → ℕ) (chosen : List ℕ) → IsNumbered least children
        → Ascends least (absences_in stored chosen children) }
    ensures few { (children : Forest SchemaNode) (stored : ℕ → ℕ) (chosen : List ℕ)
        → length (absences_in stored chosen children) ≤ size children }
{}

/// A value is in play unstored as often as it is a default in use; so how many instances of a schema node have a value is
/// counted by stored values and defaults in use.
pub fn defaults_in_play()
    ensures below { (schema : Schema) (number : ℕ) (v : Val) (children : Forest SchemaNode) (below : Tree)
        → times_below schema number v children below
        ≡ count_by (is_default number v) (defaults_in (instances_in below) [] children) }
    ensures document { (schema : Schema) (tree : Tree) (number : ℕ) (v : Val)
        → times_in schema tree number v ≡ defaults_below number v schema.nodes tree
        + weigh_nodes (given_at schema number v) tree }
{}

/// What is in play of a row that fits, each visit replaced by what its instances tell, is what is told of the nodes that
/// aren't stored, merged with that.
pub fn merged_rows()
    ensures { (schema : Schema) (above : Option ℕ) (t : Tree) (children : List Told) → IsNumbered 0 schema.nodes
        → CasesInChoices false (row_at schema above) → FitsRow schema above t → AreChildren children t
        → woven (in_play (instances_in t) (row_at schema above)) children
        ≡ merged schema above (absences_below (row_at schema above) t) children }
{}

/// So the faults of a document that fits are listed row by row.
pub fn listed_documents()
    ensures faults { (schema : Schema) (tree : Tree) → IsNumbered 0 schema.nodes → CasesInChoices false schema.nodes
        → Fits schema tree → faults_of schema tree ≡ listed schema tree }
    ensures rows { (times : Times) (row : RowTimes) (schema : Schema) (above : Option ℕ) (t : Tree) → IsNumbered 0 schema.nodes
        → CasesInChoices false (row_at schema above) → FitsRow schema above t
        → told_in times row schema t ≡ listed_in times row schema t }
{}

/// How many they are: those that are told of the top row, and at each node its own and those of the row below it.
pub fn counted_faults()
    ensures listed { (schema : Schema) (tree : Tree) → length (listed schema tree)
        ≡ length (absences_below schema.nodes tree)
        + told_count (times_in schema tree) (row_times schema tree) schema tree }
    ensures faults { (schema : Schema) (tree : Tree) → IsNumbered 0 schema.nodes → CasesInChoices false schema.nodes
        → Fits schema tree → length (faults_of schema tree)
        ≡ length (absences_below schema.nodes tree)
        + told_count (times_in schema tree) (row_times schema tree) schema tree }
{}

/// In a schema of linked modules each case stands right below a choice, and so none stands right below a data node.
pub fn cases_in_choices()
    ensures linked { (modules : Forest Statement) (schema : Schema) → compiled modules ≡ Ok schema
        → CasesInChoices false schema.nodes }
    ensures below { (schema : Schema) (number : ℕ) (n : SchemaNode) → CasesInChoices false schema.nodes
        → node_at schema number ≡ Some n → is_data n.kind ≡ true
        → CasesInChoices false (row_at schema (Some number)) }
{}
