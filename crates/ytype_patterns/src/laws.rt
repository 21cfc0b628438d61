//! Laws on trees of patterns.

ghost use Rattle.std.specs.Prelude.{◌≡◌, ◌≤◌, [], true, Some, None};
ghost use Rattle.regex_class.specs.Ranges.{HasExactly, IsCanonical, in_ranges};
ghost use Rattle.regex_hir.specs.Meaning.{repeat};
ghost use Rattle.regex_hir.specs.Re.{alt, byte_in, cat, char_in, empty};
ghost use Rattle.yspec_patterns.specs.Pattern as pattern;
ghost use Rattle.yspec_patterns.specs.Reading.{built, patterns};
ghost use Rattle.ytype_patterns.specs.Engine.{Meets, engine, ranges_of};
ghost use Rattle.ytype_patterns.specs.Means.{Means};

/// What a tree means, by what its parts mean; a set of characters may be written in several ways.
pub fn forms()
    ensures nothing { Means (byte_in []) pattern.nothing }
    ensures nil { Means empty pattern.nil }
    ensures one { (rs set : _) → HasExactly rs set → Means (char_in rs) (pattern.one set) }
    ensures both { (a b p q : _) → Means a p → Means b q → Means (cat a b) (pattern.both p q) }
    ensures either { (a b p q : _) → Means a p → Means b q → Means (alt a b) (pattern.either p q) }
    ensures at_least { (least a p : _) → Means a p → Means (repeat least None true a) (pattern.repeat least None p) }
    ensures at_most { (least most a p : _) → least ≤ most → Means a p
        → Means (repeat least (Some most) true a) (pattern.repeat least (Some most) p) }
{}

/// The one row of ranges of a set that rise with gaps between them.
pub fn ranges()
    ensures rise { (set : _) → IsCanonical (ranges_of set) }
    ensures exactly { (set : _) → HasExactly (ranges_of set) set }
    ensures only { (rs : _) → IsCanonical rs → rs ≡ ranges_of (in_ranges rs) }
{}

/// What parts spell as a tree of the engine means what they spell as a pattern, or they spell neither.
pub fn trees()
    ensures meet { (parts : _) → Meets (built engine parts) (built patterns parts) }
{}
