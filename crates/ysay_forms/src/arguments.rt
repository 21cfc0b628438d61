//! What is said of an argument that isn't of its form, or is missing.

ghost use Rattle.std.specs.Prelude.{◌≡◌, IfOk, option_map, string_bytes};
ghost use Rattle.ytext.specs.View.{view};
ghost use Rattle.ylink_conditions.specs.View.{version_view};
ghost use Rattle.ylink_grammar.specs.FormView.{form_view, wide_form_view};
ghost use Rattle.ysay_forms.specs.Forms as spec;

use std::alloc::{AllocError, Global};
use ylink_conditions::YangVersion;
use ylink_grammar::{Form, WideForm, has_fitting_argument};
use ysay_text::shown;
use ytext::Stmt;

/// What a form of the core asks for, in words.
fn due_before(form: Form) -> &'static str
    ensures { result.now ≡ spec.due_before (form_view form) }
{
    match form {
        Form::Identifier => "an identifier",
        Form::Name => "a name",
        Form::Date => "a date as 2024-05-01",
        Form::RelativePath => "names parted by slashes, as a/b",
        Form::AbsolutePath => "a path from the top, as /p:a/p:b",
        Form::LeafrefPath => "a path from the top and without predicates, as /p:a/p:b",
        Form::Key => "names of leafs, parted by blanks",
        Form::Unique => "names of leafs, or ways down to them as a/b, parted by blanks",
        Form::Flag => "true or false",
        Form::Status => "current, deprecated or obsolete",
        Form::OrderedBy => "user or system",
        Form::Count => "a number from 0 to 4294967295",
        Form::MaxElements => "a number from 1 to 4294967295, or unbounded",
        Form::Value => "an integer from -2147483648 to 2147483647",
        Form::FractionDigits => "a number from 1 to 18",
        Form::Spans => "numbers and spans as 1..10, with | between them",
        Form::Any => "a text",
    }
}

/// What a form asks for, in words.
fn due(version: YangVersion, form: WideForm) -> &'static str
    ensures { result.now ≡ spec.due (version_view version) (wide_form_view form) }
{
    match form {
        WideForm::AsBefore(form) => due_before(form),
        WideForm::Prefix => "an identifier",
        WideForm::IfFeature => match version {
            YangVersion::Yang1 => "the name of a feature",
            YangVersion::Yang1_1 => "names of features, with and, or, not and parentheses",
        },
        WideForm::Modifier => "invert-match",
        WideForm::NoArgument => "nothing",
    }
}

/// Whether a text begins with a quote that is none of YANG's.
fn is_typographic(text: &str) -> bool
    ensures { result ≡ spec.is_typographic text.now }
{
    match text.as_bytes() {
        [first, second, third, ..] => {
            *first == 226 && (*second == 128 && (152 <= *third && *third <= 159))
        }
        _ => false,
    }
}

fn typographic(alloc: Global, word: &str) -> Result<String, AllocError>
    ensures { IfOk result (λ text. string_bytes text ≡ spec.typographic word.now) }
{
    [
        "the argument of ",
        word,
        " begins with a typographic quote: write \" there and at its end.",
    ]
    .concat(alloc)
}

fn other_argument(
    alloc: Global,
    word: &str,
    expected: &str,
    text: &str,
) -> Result<String, AllocError>
    ensures { IfOk result (λ said. string_bytes said ≡ spec.other_argument word.now expected.now text.now) }
{
    let seen = shown(alloc, text.as_bytes())?;
    [word, " takes ", expected, ", not \"", seen.as_str(), "\"."].concat(alloc)
}

fn missing_argument(alloc: Global, word: &str, expected: &str) -> Result<String, AllocError>
    ensures { IfOk result (λ text. string_bytes text ≡ spec.missing_argument word.now expected.now) }
{
    [word, " takes ", expected, ", and nothing stands there."].concat(alloc)
}

/// What is said of an argument that isn't the one that is expected.
fn of_unfit(
    alloc: Global,
    word: &str,
    expected: &str,
    argument: Option<&str>,
) -> Result<String, AllocError>
    ensures { IfOk result (λ text. string_bytes text
        ≡ spec.of_unfit word.now expected.now (option_map (λ t. t.now) argument.entry)) }
{
    match argument {
        None => missing_argument(alloc, word, expected),
        Some(text) => {
            if is_typographic(text) {
                typographic(alloc, word)
            } else {
                other_argument(alloc, word, expected, text)
            }
        }
    }
}

/// What is said of a statement, given the form of its argument.
pub(crate) fn of_form(
    alloc: Global,
    version: YangVersion,
    form: WideForm,
    statement: &Stmt,
) -> Result<Option<String>, AllocError>
    ensures { IfOk result (λ text. option_map string_bytes text
        ≡ spec.of_form (version_view version) (wide_form_view form) (view statement.now).0) }
{
    if has_fitting_argument(alloc, version, form, statement)? {
        return Ok(None);
    }
    let expected = due(version, form);
    let said = of_unfit(alloc, statement.keyword(), expected, statement.argument())?;
    Ok(Some(said))
}
