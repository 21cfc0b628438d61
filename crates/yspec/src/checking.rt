//! Laws of the faults of a document.

ghost use Rattle.std.specs.Prelude.{◌≡◌, []};
ghost use Rattle.yspec.specs.schema.Schema.{Schema};
ghost use Rattle.yspec.specs.document.Document.{Tree};
ghost use Rattle.yspec.specs.document.Fitting.{IsNumbered};
ghost use Rattle.yspec.specs.document.Instances.{times_in};
ghost use Rattle.yspec.specs.document.Faults.{faults_of, row_times};
ghost use Rattle.yspec.specs.document.RowFaults.{row_faults};
ghost use Rattle.yspec.specs.document.Sorting.{IsSorted};
ghost use Rattle.yspec.specs.document.FrontFaults.{front_faults};

/// The faults of a document are found by one walk over the rows of its schema and its own.
pub fn faults_by_rows()
    ensures { (schema : Schema) (tree : Tree) → IsNumbered 0 schema.nodes
        → faults_of schema tree ≡ row_faults (times_in schema tree) schema
        (row_times schema tree) [] schema.nodes tree }
{}

/// In a document whose rows stand in order each schema node takes what is stored of it from the front of a row.
pub fn faults_by_one_walk()
    ensures { (schema : Schema) (tree : Tree) → IsNumbered 0 schema.nodes → IsSorted tree
        → faults_of schema tree ≡ front_faults (times_in schema tree) schema
        (row_times schema tree) [] schema.nodes tree }
{}
