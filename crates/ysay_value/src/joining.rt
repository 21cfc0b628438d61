//! Texts one after another.

ghost use Rattle.std.specs.Prelude.{◌≡◌, IfOk, map, string_bytes};
ghost use Rattle.ysay_value.specs.Joining as spec;

use std::alloc::{AllocError, Global};

/// These texts, with one between each two of them.
pub(crate) fn joined(alloc: Global, separator: &str, texts: &[String]) -> Result<String, AllocError>
    ensures { IfOk result (λ text. string_bytes text
        ≡ spec.joined separator.now (map string_bytes texts.now)) }
{
    texts.join(alloc, separator)
}
