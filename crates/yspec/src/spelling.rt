//! Laws of what a module's text spells: the reading of a text and the relation by cases are one.

ghost use Rattle.std.specs.Prelude.{◌≡◌, ◌<◌, List, [], length, codes, Ok, Err, Some, None};
ghost use Rattle.yspec.specs.Forest.{Forest, end, node};
ghost use Rattle.yspec.specs.text.Text.{Text};
ghost use Rattle.yspec.specs.text.Token.{Token, tokens_of};
ghost use Rattle.yspec.specs.text.Statement.{Statement, Slip, text_limit, module_of};
ghost use Rattle.yspec.specs.text.Spelling.{start, CutInto, Spells};
ghost use Rattle.yspec.specs.text.Slips.{slips, first, told_slip, IsFirstWrong};
ghost use Rattle.yspec.specs.text.SpellingExamples.{labelled, module_named, slip_of, nested};

/// Each text is cut into its tokens, and in no other way.
pub fn one_cut()
    ensures found { (text : Text) → CutInto start text (tokens_of text) }
    ensures alone { (text : Text) (a b : List Token) → CutInto start text a → CutInto start text b
        → a ≡ b }
{}

/// What is read of a text is what it spells, and what a text spells is read.
pub fn reading()
    ensures found { (text : Text) (top : Forest Statement) → module_of text ≡ Ok top
        → Spells text top }
    ensures only { (text : Text) (top : Forest Statement) → Spells text top → module_of text
        ≡ Ok top }
{}

/// No text spells two statements.
pub fn one_reading()
    ensures { (text : Text) (a b : Forest Statement) → Spells text a → Spells text b → a ≡ b }
{}

/// A text is refused exactly where it spells nothing.
pub fn refusals()
    ensures refused_alone { (text : Text) (slip : Slip) (top : Forest Statement) → module_of text
        ≡ Err slip
        → Spells text top → ⊥ }
    ensures all_refused { (text : Text) → ((top : Forest Statement) → Spells text top → ⊥)
        → (slip : Slip) × (module_of text ≡ Err slip) }
{}

/// A text is refused with what is told of it: that it is too long, no UTF-8 or has a character that isn't allowed, and
/// else the first of its slips. Nothing is told of a text exactly where it spells a statement.
pub fn first_slip()
    ensures refused { (text : Text) (slip : Slip) → module_of text ≡ Err slip → told_slip text
        ≡ Some slip }
    ensures told_alone { (text : Text) (slip : Slip) → told_slip text ≡ Some slip → module_of text
        ≡ Err slip }
    ensures spelled { (text : Text) (top : Forest Statement) → Spells text top → told_slip text
        ≡ None }
    ensures else_spelled { (text : Text) → told_slip text ≡ None
        → (top : Forest Statement) × Spells text top }
{}

/// What stands before the token of the first slip is the beginning of tokens that spell a statement, and with that token
/// it isn't.
pub fn place_of_the_first_slip()
    ensures { (text : Text) (slip : Slip) → first (slips text) ≡ Some slip
        → IsFirstWrong (tokens_of text) slip }
{}

/// Texts and the statements that they spell.
pub fn spelled_texts()
    ensures stripped_and_joined { Spells (codes "module\n    \"a\n        b\" + 'c\\n';")
        (module_named (codes "a\n   bc\\n")) }
    ensures nothing_between { Spells (codes "module'a'+\"b\"{}") (module_named (codes "ab")) }
    ensures plus_alone { Spells (codes "module + ;") (module_named (codes "+")) }
    ensures comments { Spells (codes "//\n/* ** */\np:a//;\n{b/***/c;}//")
        (node (labelled (codes "p:a") None 3)
        (node (labelled (codes "b") (Some (codes "c")) 4) end end) end) }
{}

/// Of several slips the first place is told, and at one place the lower number.
pub fn first_places()
    ensures comment_end { told_slip (codes "module a; */") ≡ slip_of 5 1 }
    ensures string_behind_plus { told_slip (codes "a 'b' +\n\"c") ≡ slip_of 3 2 }
    ensures comment_behind_plus { told_slip (codes "a 'b' +\n/* c") ≡ slip_of 5 1 }
    ensures quoted_keyword { told_slip (codes "\n\"\\x\" b;") ≡ slip_of 5 2 }
    ensures open_keyword { told_slip (codes "\n\"\\x b;") ≡ slip_of 3 2 }
    ensures end_lacking { told_slip (codes "a b\n}") ≡ slip_of 5 2 }
    ensures unformed_second { told_slip (codes "a;\n1;") ≡ slip_of 6 2 }
    ensures escape_before_the_end { told_slip (codes "a \"b\\") ≡ slip_of 3 1 }
    ensures escape_before_a_line_break { told_slip (codes "a \"b\n\\\n\";") ≡ slip_of 4 2 }
{}

/// The limits at their edges.
pub fn limits()
    ensures deepest { told_slip (nested 64 []) ≡ None }
    ensures too_deep { told_slip (nested 64 (codes "a\n{}")) ≡ slip_of 7 66 }
    ensures too_long { (text : Text) → text_limit < length text → told_slip text ≡ slip_of 7 1 }
{}
