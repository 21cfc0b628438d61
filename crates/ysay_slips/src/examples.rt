//! What is said of texts, worked out.

ghost use Rattle.std.specs.Prelude.{◌≡◌, [], codes};
ghost use Rattle.ysay_slips.specs.Said.{of_slip};

/// Words, strings and signs where they can't be.
pub fn sentences()
    ensures semicolon { of_slip 5 (codes "leaf a { type string units \"s\"; }") ≡ codes "; or { is due before units." }
    ensures string { of_slip 5 (codes "leaf a { units bit \"s\"; }") ≡ codes "; or { is due before this string." }
    ensures plus { of_slip 5 (codes "a \"b\" + c;") ≡ codes "a quoted string is due behind +." }
    ensures no_plus { of_slip 5 (codes "a \"b\" c;") ≡ codes "; or { is due before c." }
    ensures closed { of_slip 5 (codes "a { b c }") ≡ codes "; is due before }." }
    ensures keyword { of_slip 5 (codes "a { ; }") ≡ codes "a keyword is due in place of ;." }
    ensures quoted { of_slip 5 (codes "a { \"b\" c; }") ≡ codes "a keyword is due in place of this string." }
    ensures other { of_slip 4 (codes "a { ; }") ≡ [] }
{}

/// Blocks that aren't closed, and what stands behind the module.
pub fn blocks()
    ensures behind { of_slip 6 (codes "a {\n}\nb;") ≡ codes "the module ends in line 2; behind it nothing more may stand." }
    ensures too_many { of_slip 6 (codes "a {\n}}") ≡ codes "no { is open for this }." }
    ensures innermost { of_slip 6 (codes "a {\n  b {\n    c;\n  ") ≡ codes "the block that begins in line 2 isn't closed." }
    ensures doubted { of_slip 6 (codes "a {\n  b {\n    c;\n  d {\n    e;\n  }\n}\n")
        ≡ codes "a block isn't closed; it may be that of line 2: what begins in it in line 4 is indented no deeper." }
    ensures in_one_line { of_slip 6 (codes "a { b { c; d; }") ≡ codes "the block that begins in line 1 isn't closed." }
    ensures nothing { of_slip 6 (codes "// a\n") ≡ codes "no statement stands there." }
    ensures too_soon { of_slip 6 (codes "a") ≡ codes "the text ends before ; or {." }
{}
