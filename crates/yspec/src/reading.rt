//! Laws of reading and writing documents.

ghost use Rattle.std.specs.Prelude.{◌≡◌, ◌≤◌, ℕ, List, Some, Ok};
ghost use Rattle.serde_json.specs.Data.{Data};
ghost use Rattle.yspec.specs.Forest.{size};
ghost use Rattle.yspec.specs.schema.Schema.{Schema};
ghost use Rattle.yspec.specs.document.Document.{Tree, document_limit};
ghost use Rattle.yspec.specs.document.Reading.{json_of, visits, right_nodes, document_of};
ghost use Rattle.yspec.specs.document.Fitting.{IsNumbered, LeafsAreBare, Fits};
ghost use Rattle.yspec.specs.document.Sorting.{IsSorted};
ghost use Rattle.yspec.specs.document.Writing.{ModulesDiffer, AreNamed, NamesDiffer, IsDocument, written_value};

/// A document that is read fits its schema, and its rows stand in order.
pub fn read_documents_fit()
    ensures fit { (schema : Schema) (bytes : List ℕ) (tree : Tree) → IsNumbered 0 schema.nodes
        → document_of schema bytes ≡ Ok tree → Fits schema tree }
    ensures sorted { (schema : Schema) (tree : Tree) → Fits schema tree → IsSorted tree }
{}

/// It does so in its values too, where no two siblings are written with one name and below a leaf stands nothing.
pub fn read_documents_are_whole()
    ensures { (schema : Schema) (bytes : List ℕ) (tree : Tree) → IsNumbered 0 schema.nodes
        → NamesDiffer schema → LeafsAreBare schema.nodes
        → document_of schema bytes ≡ Ok tree → IsDocument schema tree }
{}

/// Then each of its nodes is visited once: there are as many right visits as nodes, and not more than the limit.
pub fn read_nodes_are_visited()
    ensures visited { (schema : Schema) (bytes : List ℕ) (value : Data) (tree : Tree)
        → NamesDiffer schema → LeafsAreBare schema.nodes
        → json_of bytes ≡ Some value → document_of schema bytes ≡ Ok tree
        → right_nodes (visits schema value) ≡ size tree }
    ensures within { (schema : Schema) (bytes : List ℕ) (tree : Tree) → NamesDiffer schema
        → LeafsAreBare schema.nodes → document_of schema bytes ≡ Ok tree → size tree ≤ document_limit }
{}

/// A text with the value that is written for a document within the limit reads as that document.
pub fn written_documents_read_back()
    ensures { (schema : Schema) (tree : Tree) (bytes : List ℕ) → IsNumbered 0 schema.nodes
        → NamesDiffer schema → LeafsAreBare schema.nodes
        → IsDocument schema tree → size tree ≤ document_limit
        → json_of bytes ≡ Some (written_value schema tree) → document_of schema bytes ≡ Ok tree }
{}

/// Where siblings differ in module or name and modules in name, no two siblings are written with one name.
pub fn written_names_differ()
    ensures { (schema : Schema) → ModulesDiffer schema → AreNamed schema → NamesDiffer schema }
{}
