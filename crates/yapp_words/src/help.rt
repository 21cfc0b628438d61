//! What the program says of its commands at the end of their help.

/// The version that the program tells.
pub(crate) const VERSION: &str = "0.1.0";

/// What help says of a document.
pub(crate) const DOCUMENT_HELP: &str = "The file of the document, in JSON; - for standard input";

/// What `compile` says at the end of its help.
pub(crate) const COMPILE_HELP: &str =
    "Prints how many schema nodes the modules define, as `3 nodes`.
A refused module is told as FILE:LINE: CODE, L1 to L8 of its text, C1 to C18, C20, C22 and C24 of its statements; `yanglive explain CODE` says what it means. With --format lines it is told as FILE:LINE:COLUMN: error: CODE, to which editors jump.
With --profile rfc modules of YANG 1 are taken too, and what rests on a feature that is off isn't there. --features net:ssh,ntp has these two of module net on, --features net: none; of a module that is named twice the first counts. --unjudged must,when reads these conditions and judges none: what hangs on a `when` may be there, and needn't.

Exit status:
  0  The modules compile
  2  A module is refused
  3  The command line is refused
  4  A file, a stream or memory failed

Example: yanglive compile net.yang";

/// What `tree` says at the end of its help.
pub(crate) const TREE_HELP: &str =
    "Prints the tree diagram (RFC 8340) of the module NAME, one of the modules. A word alone is the file of a module, which is drawn; with --all each word is, and all modules are drawn, an empty line between two.

Exit status:
  0  The diagram is printed
  2  A module is refused, or none has that name
  3  The command line is refused
  4  A file, a stream or memory failed

Example: yanglive tree net net.yang";

/// What `validate` says at the end of its help.
pub(crate) const VALIDATE_HELP: &str =
    "Prints a line for each fault, and then how many there are, as `0 faults`. The line has the code (V1 to V11, with --config V12), error-tag, error-app-tag, path, and the choice (V4, V5) or the number of the unique (V9), or - for none; [N] in a path is the position of an entry or item, from 1. With --format json a fault is an object on a line of its own, in the words of RESTCONF (RFC 8040, 7.1), and so are their number and what is refused, which stays a line on the error side too. With --format lines each fault and refusal is a line to which editors jump, as FILE:LINE:COLUMN: error: CODE .., and a fault's has what is said of it.
With --config the nodes of state (config false) are left out: none is wanted, and what is stored of one is told as V12, once for each schema node and row.
A refused module is told as FILE:LINE: CODE (L1 to L8, C1 to C18, C20, C22, C24), a refused document as FILE: CODE PATH (J1 to J7, with --strict J8); `yanglive explain CODE` says what it means.

Exit status:
  0  There is no fault
  1  There are faults
  2  A module or the document is refused
  3  The command line is refused
  4  A file, a stream or memory failed

Example: yanglive validate hosts.json net.yang";

/// What `edit` says at the end of its help.
pub(crate) const EDIT_HELP: &str = "Prints what `validate` prints, of the document after the edits.

An edit stands on a line of its own; empty lines and those that begin with # are passed over:
  create PATH VALUE
  replace PATH VALUE
  remove PATH
  move PATH N
PATH is a step or more: /module:name at the top and where the module changes, /name elsewhere, without choices and cases. Behind the name of an entry stands [N], its position from 1, or [key='text'] for each of its keys; behind that of an item [N]. The last step of create has none: an entry or item comes last.
VALUE is JSON, up to the end of the line: an object for a container or an entry, as the document has it.
N is the position of an entry or item once it is moved, from 1; the others keep their order.
A refused edit changes nothing, and the others are applied. Its line and why it is refused stand on the error side, as `line 4: E7`; `yanglive explain E7` says what it means.
With --output the edited document is written to a file beside FILE, which takes its place once all else is out; where something failed before, FILE stays as it is.

Exit status:
  0  There is no fault, and no edit is refused
  1  There are faults or refused edits; FILE is written all the same
  2  A module or the document is refused
  3  The command line is refused
  4  A file, a stream or memory failed

Example: yanglive edit --dump hosts.json changes.txt net.yang";

/// What `session` says at the end of its help.
pub(crate) const SESSION_HELP: &str =
    "Opens the document and reads requests from standard input, one a line; each is answered by an object of JSON in a line on standard output before the next is read. `end`, or the end of input, ends it.

A request is an edit, as `edit` has it, or one of these:
  faults [FROM [COUNT]]  The faults of the document, from the one of a number on
  below PATH             Those of a node and of all below it
  value PATH             What is stored at a node
  undo                   Takes the last edit back; 1000 can be taken back, or as many as --undo says
  document               The document
  save FILE              Writes the document to FILE, whose name may have spaces, as `edit --output` does
  begin                  Begins edits that stand or fall together
  commit                 Ends them: they stand, and can be taken back as one
  back                   Ends them: they fall
A refused request changes nothing; its answer begins with \"refused\".
With --changes the answer to a change has the faults that come of it, as \"told\", and those that go, as \"gone\".
With --config all faults that are told are those of the configuration of the document, as `validate --config` tells them.

Exit status:
  0  At the end there is no fault, and no request was refused
  1  There are faults, or a request was refused
  2  A module or the document is refused
  3  The command line is refused
  4  A file, a stream or memory failed

Example: yanglive session hosts.json net.yang";

/// What `explain` says at the end of its help.
pub(crate) const EXPLAIN_HELP: &str =
    "Prints for each code its cause, which line or place is told with it, what to do, and where the rule stands. Without a code it prints this for all.

The letter says what a code is told of:
  L  The text of a module
  C  Sets of modules
  J  Documents
  V  Faults of documents
  E  Edits

Exit status:
  0  The codes are explained
  2  A word is no code
  3  The command line is refused
  4  A stream or memory failed

Example: yanglive explain C5 V11";
