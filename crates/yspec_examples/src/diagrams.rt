//! Worked examples of tree diagrams, from modules' texts.

ghost use Rattle.std.specs.Prelude.{◌≡◌, ◌++◌, [], ◌∷◌, codes};
ghost use Rattle.yspec_examples.specs.CompilingSamples.{net_module, k_module, v_module, w_module};
ghost use Rattle.yspec_examples.specs.DiagramExamples.{diagram_of, diagram_lines, diagram_among, diagram_of_two, own_augment, empty_augment, choice_augments, many_augments, mixed_augments};
ghost use Rattle.yspec_examples.specs.SchemaExamples.{m_schema};
ghost use Rattle.yspec.specs.schema.Diagram.{diagram};
ghost use Rattle.yspec.specs.edit.Examples.{module_text};

/// Every kind of node, with keys, options, references and types in columns of their rows.
pub fn network()
    ensures { diagram_of net_module ≡ codes "module: ex-net\n  +--rw net\n     +--rw host* [name]\n        +--rw name        string\n"
        ++ (codes "        +--rw addr?       string\n        +--rw port?       uint16\n        +--rw uplink?     -> /net/host/name\n"
        ++ (codes "        +--rw use-port?   -> /net/host/port\n        +--rw (mode)\n           +--:(auto)\n"
        ++ codes "           |  +--rw auto?   empty\n           +--:(fixed)\n              +--rw speed?   uint32\n")) }
{}

/// Presence, state, and statuses that aren't current.
pub fn states()
    ensures presence { diagram_of w_module ≡ codes "module: w\n  +--rw c!\n  |  +--rw tag*   string\n  |  x--ro up?    boolean\n"
        ++ codes "  +--ro log*\n     +--ro at   uint64\n" }
    ensures obsolete { diagram_lines (codes "choice a { status obsolete; config false; case b { status deprecated; leaf c { type empty; } } leaf d { type int8; status deprecated; } }")
        ≡ codes "module: m\n  o--ro (a)?\n     x--:(b)\n     |  +--ro c?   empty\n     +--:(d)\n        x--ro d?   int8\n" }
{}

/// Choices and cases: a single node stands in a case of its own, and a path passes through them.
pub fn choices()
    ensures default_case { diagram_of k_module ≡ codes "module: k\n  +--rw (how)?\n  |  +--:(slow)\n  |  |  +--rw rate?   uint8\n"
        ++ codes "  |  +--:(fast)\n  |     +--rw boost?   uint8\n  +--rw want?   -> /rate\n" }
{}

/// A path is shown by the data nodes that it leads through, whatever white space and prefixes it is written with.
pub fn references()
    ensures { diagram_lines (codes
        "leaf r { type leafref { path \" /m:c /\n m:d\"; } } container c { choice h { leaf-list d { type leafref { path /m:s; } } } } leaf s { type decimal64 { fraction-digits 2; } mandatory true; }")
        ≡ codes "module: m\n  +--rw r?   -> /c/d\n  +--rw c\n  |  +--rw (h)?\n  |     +--:(d)\n  |        +--rw d*   -> /s\n  +--rw s    decimal64\n" }
{}

/// Several keys, keys whatever they state, and the columns of rows with nodes that have no type.
pub fn keys()
    ensures unique { diagram_of v_module ≡ codes "module: v\n  +--rw e* [id]\n     +--rw id   uint8\n     +--rw in\n     |  +--rw x?   string\n     +--rw m*   uint8\n" }
    ensures several { diagram_lines
        (codes "list l { key \"bb a\"; leaf a { type string; default x; } leaf bb { mandatory true; type bits { bit z; } } container a-long-name { } }")
        ≡ codes "module: m\n  +--rw l* [bb a]\n     +--rw a    string\n     +--rw bb   bits\n     +--rw a-long-name\n" }
{}

/// The nodes of one module of a set.
pub fn modules()
    ensures first { diagram_of_two 0 ≡ codes "module: a\n  +--rw x?   string\n  +--rw y\n     +--rw w?   int64\n" }
    ensures second { diagram_of_two 1 ≡ codes "module: b\n  +--rw z*   enumeration\n" }
{}

/// A type is shown by its name as its statement has it; a typedef of a leafref isn't shown by the path.
pub fn derived_types()
    ensures of_another { diagram_among (module_text (codes "u") (codes "  import s { prefix x; }\n  typedef t { type string; }\n  leaf v { type x:t; }\n  leaf w { type t; }\n")
        ∷ module_text (codes "s") (codes "  typedef t { type uint8; }\n") ∷ []) 0
        ≡ codes "module: u\n  +--rw v?   x:t\n  +--rw w?   t\n" }
    ensures own { diagram_lines (codes "typedef t { type uint8; } typedef r { type leafref { path /m:a; } } leaf a { type t; } leaf b { type m:t; } leaf c { type r; }")
        ≡ codes "module: m\n  +--rw a?   t\n  +--rw b?   m:t\n  +--rw c?   r\n" }
{}

/// A module's augments of nodes of other modules, each behind the way to its target; below that, what others add too.
pub fn augments()
    ensures target { diagram m_schema 2 ≡ codes "module: m\n  +--rw c\n     +--rw b:x\n        +--rw a:y?   string\n" }
    ensures outer { diagram m_schema 1 ≡ codes "module: b\n\n  augment /m:c:\n    +--rw x\n       +--rw a:y?   string\n" }
    ensures inner { diagram m_schema 0 ≡ codes "module: a\n\n  augment /m:c/b:x:\n    +--rw y?   string\n" }
    ensures own { diagram own_augment 0 ≡ codes "module: p\n  +--rw c\n     +--rw x?   string\n     +--rw y?   string\n" }
    ensures nothing { diagram empty_augment 1 ≡ codes "module: q\n\n  augment /p:c:\n" }
{}

/// Cases that are added, ways through choices and cases, and columns of what one augment adds alone, in order of the text.
pub fn several_augments()
    ensures choices { diagram choice_augments 1
        ≡ codes "module: q\n\n  augment /p:h:\n    +--:(t)\n       +--rw t?   string\n\n  augment /p:h/p:s:\n    +--rw u?   string\n" }
    ensures cases { diagram choice_augments 0 ≡ codes "module: p\n  +--rw (h)?\n     +--:(s)\n     |  +--rw s?     string\n"
        ++ codes "     |  +--rw q:u?   string\n     +--:(q:t)\n        +--rw q:t?   string\n" }
    ensures order { diagram many_augments 1 ≡ codes "module: q\n\n  augment /p:c:\n    +--rw four?   string\n"
        ++ codes "\n  augment /p:c:\n    +--rw one?     string\n    +--rw three?   string\n" }
    ensures column { diagram many_augments 0 ≡ codes "module: p\n  +--rw c\n     +--rw x?             string\n     +--rw q:one?         string\n"
        ++ codes "     +--rw q:three?       string\n     +--rw r:long-name?   string\n     +--rw q:four?        string\n" }
{}

/// Whose augment it is depends on the first node of the way alone.
pub fn mixed_ways()
    ensures own { diagram mixed_augments 0 ≡ codes "module: p\n  +--rw c\n     +--rw q:x\n        +--rw y?     string\n        +--rw q:z?   string\n" }
    ensures other { diagram mixed_augments 1
        ≡ codes "module: q\n\n  augment /p:c:\n    +--rw x\n       +--rw p:y?   string\n       +--rw z?     string\n"
        ++ codes "\n  augment /p:c/q:x:\n    +--rw z?   string\n" }
{}
