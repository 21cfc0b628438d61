//! Laws of stores that tell of a document by indexes.

ghost use Rattle.std.specs.Prelude.{◌≡◌, false, length};
ghost use Rattle.yspec.specs.schema.Schema.{Schema};
ghost use Rattle.yspec.specs.document.Fitting.{Fits, IsNumbered};
ghost use Rattle.yspec.specs.document.Faults.{faults_of};
ghost use Rattle.yspec_fit.specs.Fit.{CasesInChoices};
ghost use Rattle.ylive_list.specs.Listed.{list_told};
ghost use Rattle.ylive_list.specs.Telling.{Tells};
ghost use Rattle.ystore.specs.Store.{total_at};
ghost use Rattle.ystore.specs.declared.nodes.Nodes.{Nodes};
ghost use Rattle.ystore_rows.specs.declared.row.Row.TheVariants.{Top};
ghost use Rattle.ystore_tree.specs.Hanging.{Branches, tree_of};
ghost use Rattle.ylive_marks.specs.Totals.{IsTree};
ghost use Rattle.ylive_retell.specs.IsTold.{IsTold};

/// A store whose indexes say what its document holds, and whose flags and totals agree with them, tells of each node what is
/// told there: what it lists are the faults of the document, and the total of its top row is their number.
pub fn told_documents()
    ensures tells { (schema : Schema) (nodes : Nodes) (f : Branches) → IsTree nodes f → IsTold schema nodes f → Tells schema nodes f }
    ensures faults { (schema : Schema) (nodes : Nodes) (f : Branches) → IsTree nodes f → IsTold schema nodes f
        → IsNumbered 0 schema.nodes → CasesInChoices false schema.nodes → Fits schema (tree_of f)
        → list_told schema nodes ≡ faults_of schema (tree_of f) }
    ensures total { (schema : Schema) (nodes : Nodes) (f : Branches) → IsTree nodes f → IsTold schema nodes f
        → IsNumbered 0 schema.nodes → CasesInChoices false schema.nodes → Fits schema (tree_of f)
        → total_at nodes Top ≡ length (faults_of schema (tree_of f)) }
{}
