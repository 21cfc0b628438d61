//! What types of octets take, in words, worked out.

ghost use Rattle.std.specs.Prelude.{◌≡◌, [], codes};
ghost use Rattle.ysay_value.specs.OctetSamples.{few_octets, octets_type};
ghost use Rattle.ysay_value.specs.TakenWords.{simple_words};

/// What a type of octets takes.
pub fn taken_octets()
    ensures any { simple_words (octets_type []) ≡ codes "base64 in quotes" }
    ensures few { simple_words few_octets ≡ codes "base64 in quotes, of 1..3 octets" }
{}
