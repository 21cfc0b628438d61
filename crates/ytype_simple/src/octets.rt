//! Octets in base64 (RFC 4648, 4), as values of `binary` have them (RFC 7950, 9.8).

ghost use Rattle.std.specs.Prelude.{◌≡◌, option_map, IfOk, string_bytes};
ghost use Rattle.yspec.specs.types.Octets.{base64_text, octets_of};

use base64::DecodeAllocError;
use base64::engine::general_purpose::STANDARD;
use std::alloc::{AllocError, Global};

/// The octets of which a text is the base64, with padding and no other characters.
#[tactic(auto, unfolding(base64::specs::GeneralPurpose::decoded_of))]
pub(crate) fn octets_of(alloc: Global, text: &str) -> Result<Option<Vec<u8>>, AllocError>
    ensures { IfOk result (λ octets. option_map (λ o. o.items) octets ≡ octets_of text.now) }
{
    match STANDARD.decode(alloc, text.as_bytes()) {
        Ok(octets) => Ok(Some(octets)),
        Err(DecodeAllocError::DecodeError(_)) => Ok(None),
        Err(DecodeAllocError::OutOfMemory) => Err(AllocError),
    }
}

/// The base64 of octets.
pub(crate) fn base64_text(alloc: Global, octets: &[u8]) -> Result<String, AllocError>
    ensures { IfOk result (λ text. string_bytes text ≡ base64_text octets.now) }
{
    STANDARD.encode(alloc, octets)
}
