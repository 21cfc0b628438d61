//! The words of YANG, by whether this program reads them (RFC 7950, 14).

ghost use Rattle.std.specs.Prelude.{◌≡◌, map, option_map};
ghost use Rattle.ysay_text.specs.Near as near;
ghost use Rattle.ysay_text.specs.Word as spec;

use crate::near::nearest;

/// All keywords, first those that are read.
const YANG_WORDS: &[&str] = &[
    "module",
    "yang-version",
    "namespace",
    "prefix",
    "import",
    "revision-date",
    "organization",
    "contact",
    "description",
    "reference",
    "revision",
    "extension",
    "typedef",
    "grouping",
    "augment",
    "container",
    "leaf",
    "leaf-list",
    "list",
    "choice",
    "case",
    "uses",
    "refine",
    "type",
    "fraction-digits",
    "range",
    "length",
    "enum",
    "bit",
    "path",
    "require-instance",
    "error-message",
    "error-app-tag",
    "value",
    "position",
    "units",
    "default",
    "config",
    "mandatory",
    "presence",
    "min-elements",
    "max-elements",
    "ordered-by",
    "status",
    "key",
    "unique",
    "identity",
    "base",
    "action",
    "anydata",
    "anyxml",
    "argument",
    "belongs-to",
    "deviate",
    "deviation",
    "feature",
    "if-feature",
    "include",
    "input",
    "modifier",
    "must",
    "notification",
    "output",
    "pattern",
    "rpc",
    "submodule",
    "when",
    "yin-element",
];

/// Those that aren't read.
const UNREAD_WORDS: &[&str] = &[
    "action",
    "anydata",
    "anyxml",
    "argument",
    "belongs-to",
    "deviate",
    "deviation",
    "feature",
    "if-feature",
    "include",
    "input",
    "modifier",
    "must",
    "notification",
    "output",
    "pattern",
    "rpc",
    "submodule",
    "when",
    "yin-element",
];

fn yang_words() -> &'static [&'static str]
    ensures { map (λ w. w.now) result.now ≡ spec.yang_words }
{
    YANG_WORDS
}

fn unread_words() -> &'static [&'static str]
    ensures { map (λ w. w.now) result.now ≡ spec.unread_words }
{
    UNREAD_WORDS
}

/// Whether a word is a keyword of YANG that this program doesn't read.
pub fn is_unread(word: &str) -> bool
    ensures { result ≡ spec.is_unread word.now }
{
    for unread in unread_words() {
        if word == *unread {
            return true;
        }
    }
    false
}

/// The keyword of YANG that is nearest to a word, if one is near.
pub fn nearest_word(word: &str) -> Option<&'static str>
    ensures { option_map (λ n. n.now) result ≡ near.nearest word.now spec.yang_words }
{
    nearest(word, yang_words())
}
