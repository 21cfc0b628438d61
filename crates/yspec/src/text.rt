//! Worked examples of module text: what quoted strings say, where words end, and what is refused in which line.

ghost use Rattle.std.specs.Prelude.{◌≡◌, ◌++◌, map, [], ◌∷◌, codes, Some, None, Ok};
ghost use Rattle.yspec.specs.Forest.{end, node};
ghost use Rattle.yspec.specs.text.Spelling.{start};
ghost use Rattle.yspec.specs.text.Statement.{module_of, slip};
ghost use Rattle.yspec.specs.text.Scanning.{Piece, Scan, pieces_of, scan_of, unquoted, single_quoted, double_quoted, semicolon, opening, closing};
ghost use Rattle.yspec.specs.text.Text.{Text};
ghost use Rattle.yspec.specs.text.Token.{tokens_of};
ghost use Rattle.yspec.specs.text.TextSamples.{with_argument, token_of};

/// Later lines of a double-quoted string lose white space up to the column of its opening quote; a tab that is met
/// counts as eight spaces, and the columns past that one stay. Escapes are replaced after that.
pub fn stripped_lines()
    ensures past_the_column { module_of (codes "module\n    \"a\n        b\" + 'c\\n';")
        ≡ with_argument (codes "a\n   bc\\n") }
    ensures tabs { module_of (codes "module\n\t\"a\n\t\tb\" { }")
        ≡ with_argument (codes "a\n       b") }
    ensures escaped_line_feed { module_of (codes "module \"x\\n   y\";")
        ≡ with_argument (codes "x\n   y") }
    ensures ends_of_lines { module_of (codes "module \"a  \t\n b\";")
        ≡ with_argument (codes "a\nb") }
    ensures carriage_return { module_of (codes "module \"a\r\n  b\";")
        ≡ with_argument (codes "a\nb") }
    ensures single_quotes { module_of (codes "module 'a \r\n b';")
        ≡ with_argument (codes "a \n b") }
    ensures escaped_quote { module_of (codes "module \"a\\\"b\";") ≡ with_argument (codes "a\"b") }
    // the quote stands in column 13, though 14 bytes lead to it
    ensures wide_character { module_of (codes "/*" ++ (195 ∷ 169
        ∷ codes "*/module \"a\n              b\";")) ≡ with_argument (codes "a\n b") }
    // the quote stands in column 16, of which the tab takes eight
    ensures tab_before_the_quote { module_of (codes "\tmodule \"a\n                 b\";")
        ≡ with_argument (codes "a\n b") }
    ensures tab_within_the_gap { module_of (codes "module\t\"a\n                b\";")
        ≡ with_argument (codes "a\n b") }
{}

/// Where tokens end.
pub fn cut_words()
    ensures comment_in_a_word { module_of (codes "module a { namespace http://x;\n; }")
        ≡ Ok (node (record { keyword = codes "module"; argument = Some (codes "a"); line = 1 })
        (node (record { keyword = codes "namespace"; argument = Some (codes "http:"); line = 1 })
        end end) end) }
    ensures comment_between { module_of (codes "module a/*c*/{}") ≡ with_argument (codes "a") }
    ensures joined { module_of (codes "module 'a'+\"b\";") ≡ with_argument (codes "ab") }
    ensures lone_plus { module_of (codes "module + ;") ≡ with_argument (codes "+") }
    ensures no_comment_in_quotes { module_of (codes "module '/*';// }\n")
        ≡ with_argument (codes "/*") }
    ensures no_argument { module_of (codes "module;")
        ≡ Ok (node (record { keyword = codes "module"; argument = None; line = 1 }) end end) }
{}

/// Each refusal, with its line.
pub fn refused_texts()
    ensures no_text { module_of [] ≡ slip 6 1 }
    ensures not_closed { module_of (codes "module a { prefix \"x") ≡ slip 3 1 }
    ensures no_text_of_utf8 { module_of (codes "module a {\n}" ++ 255 ∷ []) ≡ slip 1 2 }
    ensures carriage_return { module_of (codes "module \rx;") ≡ slip 2 1 }
    ensures wrong_escape { module_of (codes "module \"a\\x\";") ≡ slip 4 1 }
    ensures word_behind_plus { module_of (codes "module 'a' + b;") ≡ slip 5 1 }
    ensures two_arguments { module_of (codes "module 'a''b';") ≡ slip 5 1 }
    ensures stray_end { module_of (codes "module a; */") ≡ slip 5 1 }
    ensures not_closed_behind_plus { module_of (codes "module 'a' +\n\"x") ≡ slip 3 2 }
    ensures brace_without_statement { module_of (codes "module a;\n}") ≡ slip 6 2 }
    ensures second_top { module_of (codes "module a;\n1b;") ≡ slip 6 2 }
    ensures ends_within { module_of (codes "module a {\n\n") ≡ slip 6 3 }
    ensures noncharacter { module_of (codes "module a;\n//" ++ (239 ∷ 191 ∷ 190 ∷ [])) ≡ slip 2 2 }
    ensures form_feed { module_of (codes "module a\n\n" ++ (12 ∷ codes ";")) ≡ slip 2 3 }
    ensures no_keyword { module_of (codes "module a {\n1b; }") ≡ slip 8 2 }
{}

/// What a scan of a text gives: its tokens with their places, up to the first thing that is wrong.
pub fn scanned_texts()
    ensures kinds { scan_of (codes "a/**/\"b\"+'c' {\n}; //")
        ≡ token_of unquoted 0 1 (codes "a") ∷ token_of double_quoted 5 8 (codes "\"b\"")
        ∷ token_of unquoted 8 9 (codes "+")
        ∷ token_of single_quoted 9 12 (codes "'c'") ∷ token_of opening 13 14 (codes "{")
        ∷ token_of closing 15 16 (codes "}")
        ∷ token_of semicolon 16 17 (codes ";") ∷ [] }
    ensures long_words { scan_of (codes "a\\b/c*d//e") ≡ token_of unquoted 0 7 (codes "a\\b/c*d")
        ∷ [] }
    ensures nothing { scan_of (codes " \n// a") ≡ [] }
    ensures stray_end { scan_of (codes "a\n; */ b") ≡ token_of unquoted 0 1 (codes "a")
        ∷ token_of semicolon 2 3 (codes ";") ∷ slip 5 2 ∷ [] }
    ensures open_quote { scan_of (codes "a\n'b\n") ≡ token_of unquoted 0 1 (codes "a") ∷ slip 3 2
        ∷ [] }
    ensures open_comment { scan_of (codes "a\n\n/*\n") ≡ token_of unquoted 0 1 (codes "a")
        ∷ slip 3 3 ∷ [] }
    ensures wrong_escape { scan_of (codes "a \"\n\\\\\\x\" b") ≡ token_of unquoted 0 1 (codes "a")
        ∷ slip 4 2 ∷ [] }
    ensures return_in_a_gap { scan_of (codes "a\r\n \r b") ≡ token_of unquoted 0 1 (codes "a")
        ∷ slip 2 2 ∷ [] }
    ensures behind_an_escape { scan_of (codes "\"\\x\r\"") ≡ slip 4 1 ∷ [] }
    ensures before_an_escape { scan_of (codes "\"\r\\x\"") ≡ slip 2 1 ∷ [] }
    ensures in_an_open_quote { scan_of (codes "a \"\r") ≡ token_of unquoted 0 1 (codes "a")
        ∷ slip 3 1 ∷ [] }
{}

/// The tokens that a scan meets are those of the text, in their places: gaps alone stand between them.
pub fn scanned_tokens()
    ensures tokens { (text : Text) → map (λ (p : Piece). p.token) (pieces_of text)
        ≡ tokens_of text }
    ensures places { (text : Text) → Scan 0 start text (pieces_of text) }
{}
