//! What the starts of tokens mean, beside the tokens that the kit's reader finds.

ghost use Rattle.std.specs.Prelude.{◌≡◌, ℕ, List, Some, map};
ghost use Rattle.json.specs.Json.{Json, document};
ghost use Rattle.json.specs.Tree.{json_tokens};
ghost use Rattle.ysay_lines.specs.Tokens.{tokens_at_starts, unkeyed};

/// The tokens of the value that a text is are those that are read where its tokens begin, one for one and in order.
pub fn tokens_where_they_begin()
    ensures { (text : List ℕ) (j : Json) → document text ≡ Some j
        → map unkeyed (json_tokens j) ≡ tokens_at_starts text }
{}
