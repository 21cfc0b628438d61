//! What is said of each code, by the letter of its family.

ghost use Rattle.std.specs.Prelude.{◌≡◌, map};
ghost use Rattle.ysay_codes.specs.Codes as spec;
ghost use Rattle.ysay_codes.specs.View.{explanation_view};

use crate::explanation::Explanation;

const OF_TEXTS: &[Explanation] = &[
    Explanation {
        code: "L1",
        cause: "The module's text isn't UTF-8.",
        place: "the line of the first byte that belongs to no character",
        remedy: "Save the file as UTF-8.",
        source: "RFC 7950, 6",
    },
    Explanation {
        code: "L2",
        cause: "The module's text has a character that YANG doesn't allow: a control character other than tab and line break, a carriage return without a line feed, or a noncharacter.",
        place: "the line of the character",
        remedy: "Take the character out; end lines with a line feed, or a carriage return and a line feed.",
        source: "RFC 7950, 6 and 14",
    },
    Explanation {
        code: "L3",
        cause: "A quoted string or a comment isn't closed.",
        place: "the line where it opens",
        remedy: "Close it: a string with the quote that opens it, a comment with */.",
        source: "RFC 7950, 6.1.1 and 6.1.3",
    },
    Explanation {
        code: "L4",
        cause: "In a string in double quotes a backslash stands before another character than n, t, a double quote or a backslash.",
        place: "the line of the backslash",
        remedy: "Double the backslash, or use single quotes, in which it is itself.",
        source: "RFC 7950, 6.1.3",
    },
    Explanation {
        code: "L5",
        cause: "A word, a string or a sign stands where it can't: two arguments, a quoted keyword, a + without a quoted string behind it, a sign without a keyword before it.",
        place: "the line of what is out of place",
        remedy: "Look whether a ; is missing before it, or a quote around an argument with spaces.",
        source: "RFC 7950, 6.1 and 6.3",
    },
    Explanation {
        code: "L6",
        cause: "The text isn't one whole module: it ends within a statement, has a } too many, no statement, or a second one at the top.",
        place: "the line of the brace, the end or the statement",
        remedy: "Balance the braces; one file holds one module.",
        source: "RFC 7950, 6.3 and 7.1",
    },
    Explanation {
        code: "L7",
        cause: "The text is too long, or blocks stand more than 64 deep in one another.",
        place: "line 1, or the line of the block",
        remedy: "Part the module in several ones, or use groupings.",
        source: "a limit of this program",
    },
    Explanation {
        code: "L8",
        cause: "A keyword isn't formed as one: letters, digits, _, - and ., perhaps behind a prefix and a colon.",
        place: "the line of the keyword",
        remedy: "Correct the keyword; an argument with such signs stands behind its keyword.",
        source: "RFC 7950, 6.1.2 and 6.2",
    },
];

const OF_MODULES: &[Explanation] = &[
    Explanation {
        code: "C1",
        cause: "A statement or a built-in type isn't known, may not stand there, or isn't read by this program.",
        place: "the statement",
        remedy: "Correct its name, or move it; README says what of YANG is read.",
        source: "RFC 7950, 7 and 14",
    },
    Explanation {
        code: "C2",
        cause: "A statement has too many or too few substatements of a kind.",
        place: "the statement around them",
        remedy: "Leave one of them, or add the one that must be there: a leaf needs a type, a module its namespace and prefix.",
        source: "RFC 7950, 7",
    },
    Explanation {
        code: "C3",
        cause: "The argument of a statement is missing or not of its form.",
        place: "the statement",
        remedy: "Write it as its statement wants it: an identifier, a number, true or false, a date, a path.",
        source: "RFC 7950, 7 and 14",
    },
    Explanation {
        code: "C4",
        cause: "The module has no yang-version, or another than 1.1.",
        place: "the module",
        remedy: "Write yang-version 1.1; at its beginning.",
        source: "RFC 7950, 7.1.2",
    },
    Explanation {
        code: "C5",
        cause: "An imported module isn't among those given, or its newest revision isn't the one that is asked for.",
        place: "the import",
        remedy: "Give the module too, or the revision; take the revision-date out where any does.",
        source: "RFC 7950, 5.1 and 7.1.5",
    },
    Explanation {
        code: "C6",
        cause: "A prefix is given twice, or no import of the module declares it.",
        place: "the later prefix, or the statement that uses it",
        remedy: "Name each prefix once, and import the module that it stands for.",
        source: "RFC 7950, 5.1 and 7.1.4",
    },
    Explanation {
        code: "C7",
        cause: "Two modules, two typedefs, two groupings or two identities have one name where both are seen, or a typedef has the name of a built-in type.",
        place: "the later one, or the inner one",
        remedy: "Rename one of them.",
        source: "RFC 7950, 5.5 and 6.2.1",
    },
    Explanation {
        code: "C8",
        cause: "A type, a grouping or an identity of that name isn't found.",
        place: "the type, uses or base statement",
        remedy: "Define it around the statement or at the top of the module that the prefix names, or correct the name.",
        source: "RFC 7950, 5.5 and 7.18.2",
    },
    Explanation {
        code: "C9",
        cause: "Imports, typedefs, groupings or identities lead back to themselves.",
        place: "an import, type, uses or base statement on the way",
        remedy: "Take one of them out.",
        source: "RFC 7950, 5.1, 7.3, 7.12 and 7.18.2",
    },
    Explanation {
        code: "C10",
        cause: "A restriction of a type is wrong or out of place, or what a built-in type needs is missing.",
        place: "the type statement",
        remedy: "Stay within the type's own range, in ascending parts; give fraction-digits, enums, bits, a path, bases or member types where the type needs them.",
        source: "RFC 7950, 9",
    },
    Explanation {
        code: "C11",
        cause: "A default isn't taken by the type, may not stand there, or stands twice.",
        place: "the node",
        remedy: "Give a value of the type; take the default out where the node is mandatory or has min-elements; name a case that the choice has.",
        source: "RFC 7950, 7.6.1, 7.7.2 and 7.9.3",
    },
    Explanation {
        code: "C12",
        cause: "The key or a unique of a list names no fitting leaf.",
        place: "the list",
        remedy: "Name leafs of the list, each once; keys stand right below it, of the same module and as much configuration as it.",
        source: "RFC 7950, 7.8.2 and 7.8.3",
    },
    Explanation {
        code: "C13",
        cause: "Two children of a node, or two cases of a choice, have one name.",
        place: "the later one",
        remedy: "Rename one of them; nodes in cases count beside the choice.",
        source: "RFC 7950, 6.2.1 and 7.9",
    },
    Explanation {
        code: "C14",
        cause: "A refine or an augment has no target, or one that can't take what it states.",
        place: "the refine or augment statement",
        remedy: "Look whether each step of the path names a node, choices and cases included, with its prefix, and whether the target is of a fitting kind.",
        source: "RFC 7950, 7.13.2 and 7.17",
    },
    Explanation {
        code: "C15",
        cause: "An augment adds configuration that must be there to a node of another module.",
        place: "the augment statement",
        remedy: "Make it optional, or put it into a container with presence.",
        source: "RFC 7950, 7.17",
    },
    Explanation {
        code: "C16",
        cause: "Configuration stands below state, or a list of configuration has no key.",
        place: "the node",
        remedy: "Take config true out, or write config false; give the list a key.",
        source: "RFC 7950, 7.8.2 and 7.21.1",
    },
    Explanation {
        code: "C17",
        cause: "The path of a leafref leads nowhere, to no leaf, in a circle, or from configuration to state.",
        place: "the leaf or leaf-list",
        remedy: "Name each data node on the way with its prefix; write require-instance false where configuration may refer to state.",
        source: "RFC 7950, 9.9",
    },
    Explanation {
        code: "C18",
        cause: "The modules define more than 65,535 nodes, nodes stand more than 60 deep, or a union has more than 65,535 members.",
        place: "the module that is given last, or the union's type or leaf",
        remedy: "Give fewer modules at once; name each member of a union once.",
        source: "a limit of this program",
    },
    Explanation {
        code: "C20",
        cause: "A pattern isn't a regular expression as XML Schema has it.",
        place: "the pattern",
        remedy: "Close each class and group, and put a backslash before a sign that stands for itself; blocks such as IsGreek aren't read.",
        source: "RFC 7950, 9.4.5; XML Schema, part 2, appendix F",
    },
    Explanation {
        code: "C22",
        cause: "A condition names no feature, or features lead back to themselves by their conditions.",
        place: "the if-feature",
        remedy: "Define the feature at the top of the module that the prefix names, or correct the name; take one of the conditions out.",
        source: "RFC 7950, 7.20.1 and 7.20.2",
    },
    Explanation {
        code: "C24",
        cause: "An action or a notification stands below an operation, a list without a key, a choice or a case, or an action at the top.",
        place: "the action or notification statement",
        remedy: "Give the list a key, or bring it elsewhere.",
        source: "RFC 7950, 7.15 and 7.16",
    },
];

const OF_DOCUMENTS: &[Explanation] = &[
    Explanation {
        code: "J1",
        cause: "The document isn't JSON.",
        place: "the document",
        remedy: "Look for a comma or a bracket too many or too few, and for text that isn't UTF-8.",
        source: "RFC 7951, 4; RFC 8259",
    },
    Explanation {
        code: "J2",
        cause: "The document isn't an object.",
        place: "the document",
        remedy: "Put the top nodes into an object: {\"module:name\": ..}.",
        source: "RFC 7951, 4",
    },
    Explanation {
        code: "J3",
        cause: "No node of that name may stand there.",
        place: "the node around it",
        remedy: "Correct the name, or give the module that defines it.",
        source: "RFC 7951, 4",
    },
    Explanation {
        code: "J4",
        cause: "A name has a module where it must have none, or none where it must have one.",
        place: "the node around it",
        remedy: "Write module:name at the top and where the module changes, and the name alone elsewhere.",
        source: "RFC 7951, 4",
    },
    Explanation {
        code: "J5",
        cause: "A value is of another kind than its node: no object for a container or an entry, no array for a list or leaf-list.",
        place: "the node",
        remedy: "Write a container as an object, a list as an array of objects, a leaf-list as an array of values, an empty leaf as [null].",
        source: "RFC 7951, 5 and 6",
    },
    Explanation {
        code: "J6",
        cause: "A number has a fraction or an exponent.",
        place: "the node",
        remedy: "Write an integer without them; write a decimal64 as a string.",
        source: "RFC 7951, 6.1",
    },
    Explanation {
        code: "J7",
        cause: "The document has more than 1,000,000 nodes.",
        place: "the document",
        remedy: "Part it.",
        source: "a limit of this program",
    },
    Explanation {
        code: "J8",
        cause: "A member is given twice in one object, which --strict refuses; without it the last one counts.",
        place: "the node of the member",
        remedy: "Take one of them out.",
        source: "RFC 8259, 4; RFC 7951, 4",
    },
];

const OF_FAULTS: &[Explanation] = &[
    Explanation {
        code: "V1",
        cause: "A value isn't one that its type takes.",
        place: "the leaf or item",
        remedy: "Look at the type's range, length and names; 64-bit integers and decimal64 are strings, and identities of other modules are module:name.",
        source: "RFC 7950, 8.1 and 9; RFC 7951, 6",
    },
    Explanation {
        code: "V2",
        cause: "An entry of a list lacks a leaf of its key.",
        place: "the leaf that is missing",
        remedy: "Add it.",
        source: "RFC 7950, 7.8.2",
    },
    Explanation {
        code: "V3",
        cause: "A leaf that must be there is missing.",
        place: "the leaf",
        remedy: "Add it, or take the node out around which it must be there.",
        source: "RFC 7950, 7.6.5",
    },
    Explanation {
        code: "V4",
        cause: "A choice that must be met has no node of any case.",
        place: "the node around the choice, with the choice's name",
        remedy: "Add a node of one of its cases.",
        source: "RFC 7950, 7.9.4",
    },
    Explanation {
        code: "V5",
        cause: "Nodes of two or more cases of a choice are there.",
        place: "the node around the choice, with the choice's name",
        remedy: "Leave the nodes of one case.",
        source: "RFC 7950, 7.9",
    },
    Explanation {
        code: "V6",
        cause: "A list or leaf-list has fewer entries or items than it must have.",
        place: "the list or leaf-list",
        remedy: "Add some.",
        source: "RFC 7950, 7.7.5",
    },
    Explanation {
        code: "V7",
        cause: "A list or leaf-list has more entries or items than it may have.",
        place: "the list or leaf-list",
        remedy: "Take some out.",
        source: "RFC 7950, 7.7.6",
    },
    Explanation {
        code: "V8",
        cause: "Another entry has the same key.",
        place: "the entry",
        remedy: "Change the key of one, or take one out.",
        source: "RFC 7950, 7.8.2",
    },
    Explanation {
        code: "V9",
        cause: "Another entry has the same values of a unique.",
        place: "the entry, with the number of the unique",
        remedy: "Change one of these values.",
        source: "RFC 7950, 7.8.3",
    },
    Explanation {
        code: "V10",
        cause: "Another item of a configuration leaf-list has the same value.",
        place: "the item",
        remedy: "Take one of them out.",
        source: "RFC 7950, 7.7",
    },
    Explanation {
        code: "V11",
        cause: "A leafref has no instance of its target with its value.",
        place: "the leaf or item",
        remedy: "Add the instance, or correct the value.",
        source: "RFC 7950, 9.9.3",
    },
    Explanation {
        code: "V12",
        cause: "A node of state is stored, where configuration alone is looked at.",
        place: "the topmost node of state, without position: all instances that stand beside each other are told once",
        remedy: "Take it out of the document, or leave out --config.",
        source: "RFC 7950, 7.21.1",
    },
];

const OF_EDITS: &[Explanation] = &[
    Explanation {
        code: "E1",
        cause: "The line isn't an edit.",
        place: "the line of the script",
        remedy: "Write create PATH VALUE, replace PATH VALUE, remove PATH or move PATH N.",
        source: "README, edits",
    },
    Explanation {
        code: "E2",
        cause: "A step of the path names no node there, or in the wrong form.",
        place: "the line of the script",
        remedy: "Write /module:name at the top and where the module changes, and /name elsewhere.",
        source: "RFC 7951, 6.11",
    },
    Explanation {
        code: "E3",
        cause: "A predicate is missing, out of place or of another kind than its node wants; or what is moved is no entry or item.",
        place: "the line of the script",
        remedy: "Give a list entry [position] or a [key='value'] for each key, an item [position], and nothing to others, nor to the last step of create. Move entries and items alone.",
        source: "RFC 7951, 6.11",
    },
    Explanation {
        code: "E4",
        cause: "A node above the one that is meant isn't stored.",
        place: "the line of the script",
        remedy: "Create the container or the entry first.",
        source: "README, edits",
    },
    Explanation {
        code: "E5",
        cause: "There is no entry or item at that position.",
        place: "the line of the script",
        remedy: "Count from 1; take a position that is there.",
        source: "README, edits",
    },
    Explanation {
        code: "E6",
        cause: "Several entries have these keys.",
        place: "the line of the script",
        remedy: "Name the entry by its position.",
        source: "README, edits",
    },
    Explanation {
        code: "E7",
        cause: "What is to be replaced, removed or moved isn't stored.",
        place: "the line of the script",
        remedy: "Create it, or leave the line out.",
        source: "README, edits",
    },
    Explanation {
        code: "E8",
        cause: "What is to be created is stored.",
        place: "the line of the script",
        remedy: "Use replace.",
        source: "README, edits",
    },
    Explanation {
        code: "E9",
        cause: "The value isn't JSON.",
        place: "the line of the script",
        remedy: "Put texts into double quotes; look at brackets and commas.",
        source: "RFC 8259",
    },
    Explanation {
        code: "E10",
        cause: "The value doesn't fit the node; the code behind it says how.",
        place: "the line of the script",
        remedy: "See that code.",
        source: "RFC 7951, 4 to 6",
    },
    Explanation {
        code: "E11",
        cause: "The document would have more than 1,000,000 nodes.",
        place: "the line of the script",
        remedy: "Part it.",
        source: "a limit of this program",
    },
    Explanation {
        code: "E12",
        cause: "Memory ran out while the edit was done.",
        place: "the line of the script",
        remedy: "Give the program more memory.",
        source: "README, edits",
    },
    Explanation {
        code: "E13",
        cause: "The document is stale, since memory ran out in an edit before.",
        place: "the line of the script",
        remedy: "Begin again with the document.",
        source: "README, edits",
    },
];

/// The codes of the text of a module.
pub(crate) fn of_texts() -> &'static [Explanation]
    ensures { map explanation_view result.now ≡ spec.of_texts }
{
    OF_TEXTS
}

/// The codes of sets of modules.
pub(crate) fn of_modules() -> &'static [Explanation]
    ensures { map explanation_view result.now ≡ spec.of_modules }
{
    OF_MODULES
}

/// The codes of documents.
pub(crate) fn of_documents() -> &'static [Explanation]
    ensures { map explanation_view result.now ≡ spec.of_documents }
{
    OF_DOCUMENTS
}

/// The codes of faults of documents.
pub(crate) fn of_faults() -> &'static [Explanation]
    ensures { map explanation_view result.now ≡ spec.of_faults }
{
    OF_FAULTS
}

/// The codes of edits.
pub(crate) fn of_edits() -> &'static [Explanation]
    ensures { map explanation_view result.now ≡ spec.of_edits }
{
    OF_EDITS
}
