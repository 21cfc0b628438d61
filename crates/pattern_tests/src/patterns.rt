//! Which texts a pattern takes, and which spell none.

use std::alloc::Global;
use ytype_patterns::Pattern;

// Whether a pattern takes a text.
fn takes(alloc: Global, pattern: &str, text: &str) -> Option<bool> {
    let pattern = Pattern::parse(alloc, pattern).ok()??;
    pattern.fits(alloc, text).ok()
}

// Whether a row holds: a pattern, a text, and what that is to it.
fn holds(alloc: Global, row: &str) -> Option<bool> {
    let (pattern, rest) = row.split_once(" ~ ")?;
    let (text, wanted) = rest.split_once(" ~ ")?;
    Some(takes(alloc, pattern, text)? == (wanted == "taken"))
}

#[test]
fn taken(rt: HostRuntime) {
    let rows = "a ~ a ~ taken
a ~  ~ other
a ~ aa ~ other
a ~ b ~ other
 ~  ~ taken
 ~ a ~ other
ab|cd ~ ab ~ taken
ab|cd ~ cd ~ taken
ab|cd ~ abcd ~ other
ab|cd ~ a ~ other
a| ~ a ~ taken
a| ~  ~ taken
(a|b)c ~ ac ~ taken
(a|b)c ~ bc ~ taken
(a|b)c ~ c ~ other
(a|b)c ~ abc ~ other
a? ~  ~ taken
a? ~ a ~ taken
a? ~ aa ~ other
a* ~  ~ taken
a* ~ aaa ~ taken
a* ~ ab ~ other
a+ ~  ~ other
a+ ~ a ~ taken
a+ ~ aa ~ taken
(ab)* ~  ~ taken
(ab)* ~ abab ~ taken
(ab)* ~ aba ~ other
a{2} ~ a ~ other
a{2} ~ aa ~ taken
a{2} ~ aaa ~ other
a{2,} ~ a ~ other
a{2,} ~ aa ~ taken
a{2,} ~ aaaa ~ taken
a{1,2} ~  ~ other
a{1,2} ~ a ~ taken
a{1,2} ~ aa ~ taken
a{1,2} ~ aaa ~ other
a{0} ~  ~ taken
a{0} ~ a ~ other
a{0,0} ~  ~ taken
a{0,0} ~ a ~ other
(a|b){2}c ~ abc ~ taken
(a|b){2}c ~ bac ~ taken
(a|b){2}c ~ ac ~ other
. ~ a ~ taken
. ~ é ~ taken
a.c ~ abc ~ taken
a.c ~ ac ~ other
^a$ ~ a ~ other
^a$ ~ ^a$ ~ taken
[abc] ~ a ~ taken
[abc] ~ c ~ taken
[abc] ~ d ~ other
[abc] ~  ~ other
[a-c] ~ b ~ taken
[a-c] ~ d ~ other
[a-c] ~ - ~ other
[^a-c] ~ b ~ other
[^a-c] ~ d ~ taken
[a-] ~ a ~ taken
[a-] ~ - ~ taken
[a-] ~ b ~ other
[-a] ~ a ~ taken
[-a] ~ - ~ taken
[-a] ~ b ~ other
[a-c-[b]] ~ a ~ taken
[a-c-[b]] ~ b ~ other
[a-c-[b]] ~ c ~ taken
[a-z-[aeiou]] ~ b ~ taken
[a-z-[aeiou]] ~ e ~ other
[a-z-[aeiou]] ~ A ~ other
[^a-c-[x]] ~ x ~ other
[^a-c-[x]] ~ y ~ taken
[^a-c-[x]] ~ b ~ other
[\\-a] ~ - ~ taken
[\\-a] ~ a ~ taken
[\\-a] ~ \\ ~ other
[a^] ~ ^ ~ taken
[a^] ~ a ~ taken
[a^] ~ b ~ other
\\d ~ 5 ~ taken
\\d ~ ٣ ~ taken
\\d ~ a ~ other
\\D ~ 5 ~ other
\\D ~ a ~ taken
[\\d.] ~ 7 ~ taken
[\\d.] ~ . ~ taken
[\\d.] ~ a ~ other
\\s ~   ~ taken
\\s ~ a ~ other
\\S ~   ~ other
\\S ~ a ~ taken
\\i\\c* ~ a-b ~ taken
\\i\\c* ~ _x ~ taken
\\i\\c* ~ -a ~ other
\\i\\c* ~ 9 ~ other
\\w ~ a ~ taken
\\w ~ . ~ other
\\w ~   ~ other
\\W ~ a ~ other
\\W ~ . ~ taken
\\p{L} ~ a ~ taken
\\p{L} ~ é ~ taken
\\p{L} ~ 1 ~ other
\\P{L} ~ a ~ other
\\P{L} ~ 1 ~ taken
\\p{Lu} ~ A ~ taken
\\p{Lu} ~ a ~ other
[\\p{N}\\p{L}] ~ 1 ~ taken
[\\p{N}\\p{L}] ~ a ~ taken
[\\p{N}\\p{L}] ~ . ~ other
\\.\\\\\\| ~ .\\| ~ taken
\\.\\\\\\| ~ a ~ other
\\n\\r\\t ~ n ~ other
a\\{2 ~ a{2 ~ taken
a\\{2 ~ aa ~ other
((a)) ~ a ~ taken
((a)) ~  ~ other
(a(b(c)?)?)? ~  ~ taken
(a(b(c)?)?)? ~ a ~ taken
(a(b(c)?)?)? ~ ab ~ taken
(a(b(c)?)?)? ~ abc ~ taken
(a(b(c)?)?)? ~ ac ~ other
() ~  ~ taken
() ~ a ~ other
(|a)b ~ b ~ taken
(|a)b ~ ab ~ taken
(|a)b ~ a ~ other
[0-9a-fA-F]{2}(:[0-9a-fA-F]{2}){5} ~ 00:1b:44:11:3a:b7 ~ taken
[0-9a-fA-F]{2}(:[0-9a-fA-F]{2}){5} ~ 00:1b:44:11:3a ~ other
[0-9a-fA-F]{2}(:[0-9a-fA-F]{2}){5} ~ 00:1b:44:11:3a:g7 ~ other
(([0-9]|[1-9][0-9]|1[0-9][0-9]|2[0-4][0-9]|25[0-5])\\.){3}([0-9]|[1-9][0-9]|1[0-9][0-9]|2[0-4][0-9]|25[0-5])(%[\\p{N}\\p{L}]+)? ~ 10.0.0.1 ~ taken
(([0-9]|[1-9][0-9]|1[0-9][0-9]|2[0-4][0-9]|25[0-5])\\.){3}([0-9]|[1-9][0-9]|1[0-9][0-9]|2[0-4][0-9]|25[0-5])(%[\\p{N}\\p{L}]+)? ~ 10.0.0.1%eth0 ~ taken
(([0-9]|[1-9][0-9]|1[0-9][0-9]|2[0-4][0-9]|25[0-5])\\.){3}([0-9]|[1-9][0-9]|1[0-9][0-9]|2[0-4][0-9]|25[0-5])(%[\\p{N}\\p{L}]+)? ~ 256.0.0.1 ~ other
(([0-9]|[1-9][0-9]|1[0-9][0-9]|2[0-4][0-9]|25[0-5])\\.){3}([0-9]|[1-9][0-9]|1[0-9][0-9]|2[0-4][0-9]|25[0-5])(%[\\p{N}\\p{L}]+)? ~ 10.0.0 ~ other
\\d{4}-\\d{2}-\\d{2}T\\d{2}:\\d{2}:\\d{2}(\\.\\d+)?(Z|[\\+\\-]\\d{2}:\\d{2}) ~ 2026-11-28T20:00:00Z ~ taken
\\d{4}-\\d{2}-\\d{2}T\\d{2}:\\d{2}:\\d{2}(\\.\\d+)?(Z|[\\+\\-]\\d{2}:\\d{2}) ~ 2026-11-28T20:00:00.5+01:00 ~ taken
\\d{4}-\\d{2}-\\d{2}T\\d{2}:\\d{2}:\\d{2}(\\.\\d+)?(Z|[\\+\\-]\\d{2}:\\d{2}) ~ 2026-11-28 ~ other";
    for row in rows.lines() {
        assert!(rt; holds(rt.alloc(), row) == Some(true), "{row:?}");
    }
}

#[test]
fn control_characters(rt: HostRuntime) {
    for (pattern, text, is_taken) in [
        (".", "\n", false),
        (".", "\r", false),
        ("a.c", "a\nc", false),
        ("\\s", "\t", true),
        ("\\n\\r\\t", "\n\r\t", true),
    ] {
        let takes = takes(rt.alloc(), pattern, text);
        assert!(rt;
            takes == Some(is_taken),
            "{pattern:?} and {text:?}: {takes:?}"
        );
    }
}

#[test]
fn refused(rt: HostRuntime) {
    let rows = "(
a)
(a
[
[]
[^]
[a
a]
*
a**
a?+
?
|*
(*a)
{2}
a{
a{}
a{,2}
a{2
a{3,2}
a{x}
a{2}{3}
}
\\
\\q
\\p
\\p{
\\p{X}
\\p{Lx}
\\p{Lu
\\pL
[b-a]
[a-\\d]
[a-[b]
[a-c-[b]x]
[[a]
[a[b]]
[-[a]]
\\1
\\b
[\\p{L}-z]x-[";
    for row in rows.lines() {
        let is_refused = matches!(Pattern::parse(rt.alloc(), row), Ok(None));
        assert!(rt; is_refused, "{row:?}");
    }
}

// As many of a text, one after another.
fn copies(alloc: Global, text: &str, count: usize) -> Option<String> {
    let mut copies = String::new(alloc);
    for _ in 0..count {
        copies.push_str(text).ok()?;
    }
    Some(copies)
}

// Whether so many of a text spell a pattern.
fn is_read(alloc: Global, text: &str, count: usize) -> Option<bool> {
    let spelled = Pattern::parse(alloc, &copies(alloc, text, count)?).ok()?;
    Some(spelled.is_some())
}

#[test]
fn too_large(rt: HostRuntime) {
    for (text, count) in [
        ("a{4294967296}", 1),
        ("a{1,4294967296}", 1),
        ("a{99999999999999999999}", 1),
        ("(a{500001}){0}", 1),
        ("((a{1000}){1000}){1000}", 1),
        ("((a{60000})*)*", 1),
        ("aaa{50001}", 1),
        ("(", 201),
        ("\\d", 2_501),
    ] {
        let is_read = is_read(rt.alloc(), text, count);
        assert!(rt; is_read == Some(false), "{count} of {text}: {is_read:?}");
    }
}

// Patterns at the limit: the engine takes each of them.
#[test]
fn largest(rt: HostRuntime) {
    for (text, count) in [
        ("aaa{50000}", 1),
        ("(a{500000}){0}", 1),
        (".{45454}", 1),
        ("\u{1D4B3}{62500}", 1),
        ("(|){50000}", 1),
        ("(a|b|c|d|e|f|g|h|i|j){17857}", 1),
        ("((((((a|b)*)*)*)*)*){624}", 1),
        ("\\d", 2_500),
    ] {
        let is_read = is_read(rt.alloc(), text, count);
        assert!(rt; is_read == Some(true), "{count} of {text}: {is_read:?}");
    }
}

// The same, of sets with many ranges.
#[test]
fn widest(rt: HostRuntime) {
    for text in [
        "\\W{2427}",
        "\\C{2427}",
        "\\P{L}{2427}",
        "[\\i\\c\\p{L}]{823}",
        "[\\C\\P{Mn}-[\\p{S}]]{819}",
    ] {
        let is_read = is_read(rt.alloc(), text, 1);
        assert!(rt; is_read == Some(true), "{text}: {is_read:?}");
    }
}
