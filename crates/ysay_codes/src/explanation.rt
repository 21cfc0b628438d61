//! What is said of a code.

ghost use Rattle.std.specs.Prelude.{◌≡◌, ◌++◌, IfOk, map, option_map};
ghost use Rattle.yspec.specs.text.Text.{is_text};
ghost use Rattle.ysay_codes.specs.Codes as spec;
ghost use Rattle.ysay_codes.specs.View.{explanation_view};
ghost use Rattle.ybase_output.specs.Writing.{Writes, side};

use crate::table::{of_documents, of_edits, of_faults, of_modules, of_texts};
use std::alloc::{AllocError, Global};
use ybase_output::{Sink, SinkFault, write_texts};

/// What is said of a code: sentences but for the place and the source, which are named.
#[derive(Clone, Copy, Debug)]
pub struct Explanation {
    pub code: &'static str,
    /// Why it is told.
    pub cause: &'static str,
    /// Which line or place is told with it.
    pub place: &'static str,
    /// What to do.
    pub remedy: &'static str,
    /// Where the rule stands.
    pub source: &'static str,
}

/// Whether a code is spelled by two texts, the second behind the first.
fn is_spelled(code: &str, front: &str, back: &str) -> bool
    ensures { result ≡ is_text (front.now ++ back.now) code.now }
{
    match code.as_bytes().split_at_checked(front.len()) {
        Some((first, rest)) => front.as_bytes() == first && back.as_bytes() == rest,
        None => false,
    }
}

/// What is said of the code that two texts spell, among those of a family; nothing where it is none of them.
fn among(
    explanations: &'static [Explanation],
    front: &str,
    back: &str,
) -> Option<&'static Explanation>
    ensures { option_map (λ e. explanation_view e.now) result
        ≡ spec.said_of (front.now ++ back.now) (map explanation_view explanations.now) }
{
    for explanation in explanations {
        if is_spelled(explanation.code, front, back) {
            return Some(explanation);
        }
    }
    None
}

/// What is said of the code that two texts spell; nothing where it is none.
fn explain_spelled(front: &str, back: &str) -> Option<&'static Explanation>
    ensures { option_map (λ e. explanation_view e.now) result
        ≡ spec.explanation_of (front.now ++ back.now) }
{
    among(of_texts(), front, back)
        .or(among(of_modules(), front, back))
        .or(among(of_documents(), front, back))
        .or(among(of_faults(), front, back))
        .or(among(of_edits(), front, back))
}

/// What is said of a code, such as `C12`; nothing where it is none.
pub fn explain(code: &str) -> Option<&'static Explanation>
    ensures { option_map (λ e. explanation_view e.now) result ≡ spec.explanation_of code.now }
{
    explain_spelled(code, "")
}

/// What is said of the code that a word names, in letters of either case; nothing where it names none.
fn explain_word(alloc: Global, word: &str) -> Result<Option<&'static Explanation>, AllocError>
    ensures { IfOk result (λ found. option_map (λ e. explanation_view e.now) found
        ≡ spec.explanation_for word.now) }
{
    let code = word.to_ascii_uppercase(alloc)?;
    Ok(explain(code.as_str()))
}

/// The first of some words that names no code.
pub fn first_unknown<'a>(alloc: Global, words: &[&'a str]) -> Result<Option<&'a str>, AllocError>
    ensures { IfOk result (λ found. option_map (λ w. w.now) found
        ≡ spec.unknown_among (map (λ w. w.now) words.now)) }
{
    for word in words {
        if explain_word(alloc, *word)?.is_none() {
            return Ok(Some(*word));
        }
    }
    Ok(None)
}

/// What is said of those of some words that name codes, in their order.
pub fn explanations(alloc: Global, words: &[&str]) -> Result<Vec<&'static Explanation>, AllocError>
    ensures { IfOk result (λ said. map (λ e. explanation_view e.now) said.items
        ≡ spec.explanations_of (map (λ w. w.now) words.now)) }
{
    let mut said = Vec::new(alloc);
    for word in words {
        if let Some(explanation) = explain_word(alloc, *word)? {
            said.push(explanation)?;
        }
    }
    Ok(said)
}

/// What is said of each code, in the order of families and numbers.
pub fn all_explanations(alloc: Global) -> Result<Vec<&'static Explanation>, AllocError>
    ensures { IfOk result (λ said. map (λ e. explanation_view e.now) said.items
        ≡ spec.all_explanations) }
{
    let texts = with_family(Vec::new(alloc), of_texts())?;
    let modules = with_family(texts, of_modules())?;
    let documents = with_family(modules, of_documents())?;
    let faults = with_family(documents, of_faults())?;
    with_family(faults, of_edits())
}

/// Some with those of a family behind them.
fn with_family(
    mut said: Vec<&'static Explanation>,
    explanations: &'static [Explanation],
) -> Result<Vec<&'static Explanation>, AllocError>
    ensures { IfOk result (λ all. map (λ e. explanation_view e.now) all.items
        ≡ map (λ e. explanation_view e.now) said.entry.items
        ++ map explanation_view explanations.now) }
{
    for explanation in explanations {
        said.push(explanation)?;
    }
    Ok(said)
}

/// Writes why the code that two texts spell, such as `C` and `12`, is told, and what to do: an indented line. Of what is
/// no code it writes nothing. After a failed call it makes no other.
pub fn write_reason<S: Sink>(sink: &mut S, front: &str, back: &str) -> Result<(), SinkFault>
    ensures { Writes (side S.taken S.failures sink.old) (side S.taken S.failures sink.new)
        (spec.reason_of (front.now ++ back.now)) result }
{
    match explain_spelled(front, back) {
        Some(explanation) => {
            write_texts(
                sink,
                &["  ", explanation.cause, " ", explanation.remedy, "\n"],
            )
        }
        None => Ok(()),
    }
}

/// Writes what is said of a code, in four lines. After a failed call it makes no other.
pub fn write_explanation<S: Sink>(sink: &mut S, explanation: &Explanation) -> Result<(), SinkFault>
    ensures { Writes (side S.taken S.failures sink.old) (side S.taken S.failures sink.new)
        (spec.explained (explanation_view explanation.now)) result }
{
    let texts = [
        explanation.code,
        ": ",
        explanation.cause,
        "\n  Told: ",
        explanation.place,
        ".\n  To do: ",
        explanation.remedy,
        "\n  Source: ",
        explanation.source,
        ".\n",
    ];
    write_texts(sink, &texts)
}
