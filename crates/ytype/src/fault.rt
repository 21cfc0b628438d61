//! Why a value isn't taken.

ghost use Rattle.std.specs.Prelude.{◌≡◌};
ghost use Rattle.ytype.specs.declared.fault.BadValue.TheVariants as bad_value;

use std::alloc::AllocError;
use std::fmt;
use thiserror::Error;

/// Why a type gives no value.
#[derive(Debug, Drop, Error)]
pub enum BadValue {
    /// The type doesn't take it. The error-app-tag is that of the restriction which excludes it, where it bears one.
    #[error("invalid-value{}", TagBehind(.app_tag))]
    Refused { app_tag: Option<String> },
    #[error("memory")]
    Memory,
}

impl From<AllocError> for BadValue {
    ghost from_gives = { λ _ e. e ≡ bad_value.Memory };

    fn from(_e: AllocError) -> BadValue {
        BadValue::Memory
    }
}

/// An error-app-tag, with the space that parts it from what stands before it.
#[derive(Drop)]
struct TagBehind<'a>(&'a Option<String>);

impl<'a> fmt::Display for TagBehind<'a> {
    ghost use Rattle.std.specs.Prelude.{Some, None, ◌∷◌, []};
    ghost use Rattle.std.specs.Option.{option_map_or};
    ghost use Rattle.yspec.specs.text.Text.{space};
    ghost use Rattle.ytype_numbers.specs.View.{text_of};

    ghost output = { λ tag. Some (option_map_or (λ t. space ∷ t) (text_of tag.0.now) []) };

    fn fmt<W: fmt::Write>(&self, f: &mut fmt::Formatter<W>) -> fmt::Result {
        match self.0 {
            None => Ok(()),
            Some(tag) => write!(f, " {tag}"),
        }
    }
}
