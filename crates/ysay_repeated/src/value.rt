//! Whether any object of a JSON text has a member twice.

ghost use Rattle.std.specs.Prelude.{◌≡◌, IfOk};
ghost use Rattle.ysay_repeated.specs.Repeated as spec;

use json::{Error, Scratch, Value};
use std::alloc::{AllocError, Global};

/// Whether some object of a JSON text has two members of one name; a text that is no JSON has none.
pub fn has_repeated(alloc: Global, text: &str) -> Result<bool, AllocError>
    ensures { IfOk result (λ found. found ≡ spec.has_repeated text.now) }
{
    let mut scratch = Scratch::new(alloc);
    match Value::parse_strict(alloc, text, &mut scratch) {
        Ok(_) => Ok(false),
        Err(error) if error == Error::OutOfMemory => Err(AllocError),
        Err(error) => Ok(error == Error::DuplicateKey),
    }
}
