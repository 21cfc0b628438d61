//! What restrictions say of values that they exclude.

ghost use Rattle.std.specs.Prelude.{◌≡◌, IfOk};
ghost use Rattle.ytype_numbers.specs.View.{text_of};

use std::alloc::{AllocError, Global};
use std::marker::Model;

/// What a restriction says of a value that it excludes (RFC 7950, 7.5.4.1 and 7.5.4.2).
#[derive(Debug, Drop)]
pub struct ErrorText {
    /// The argument of its `error-message` statement.
    pub message: Option<String>,
    /// The argument of its `error-app-tag` statement.
    pub app_tag: Option<String>,
}

impl Model for ErrorText {
    ghost use Rattle.yspec.specs.types.Ranges as ranges;

    ghost Value = { ranges.ErrorText };

    ghost use Rattle.ytype_numbers.specs.View.{text_of};

    ghost view = { λ e. record { message = text_of e.message; app_tag = text_of e.app_tag } };
}

fn copy_of(text: &Option<String>) -> Result<Option<String>, AllocError>
    ensures { IfOk result (λ copy. text_of copy ≡ text_of text.now) }
{
    match text {
        None => Ok(None),
        Some(text) => Ok(Some(text.clone()?)),
    }
}

impl Clone for ErrorText {
    ghost use Rattle.std.specs.Prelude.{◌≡◌};

    ghost is_clone = { λ error copy. copy ≡ error };

    fn clone(&self) -> Result<ErrorText, AllocError>
        ensures { IfOk result (λ copy. copy ≡ self.now) }
    {
        Ok(ErrorText {
            message: copy_of(&self.message)?,
            app_tag: copy_of(&self.app_tag)?,
        })
    }
}

impl ErrorText {
    /// A copy of the message.
    pub fn message(&self) -> Result<Option<String>, AllocError>
        ensures { IfOk result (λ message. text_of message ≡ self.now.message) }
    {
        copy_of(&self.message)
    }

    /// A copy of the error-app-tag.
    pub fn app_tag(&self) -> Result<Option<String>, AllocError>
        ensures { IfOk result (λ tag. text_of tag ≡ self.now.app_tag) }
    {
        copy_of(&self.app_tag)
    }
}
