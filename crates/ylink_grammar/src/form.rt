//! Whether an argument has the form that the table asks for.

ghost use Rattle.std.specs.Prelude.{◌≡◌, ◌==◌, ◌||◌, IfOk};
ghost use Rattle.yspec.specs.linking.Arguments as spec;
ghost use Rattle.yspec_wide.specs.Table as wide;
ghost use Rattle.ylink_conditions.specs.View.{version_view};
ghost use Rattle.ylink_grammar.specs.FormView.{bars_xml, form_view, wide_form_view};

use std::alloc::{AllocError, Global};
use ybase_words::{flag_of, is_date, ordered_by_of, status_of};
use ylink_arguments::{
    absolute_path, count, enum_value, fraction_digits, key_names, leafref_path, max_elements,
    relative_path, spans, unique_paths,
};
use ylink_conditions::{YangVersion, expression_of};
use ytext::{is_identifier, is_name};

/// The form of an argument.
#[derive(Clone, Copy)]
pub enum Form {
    Identifier,
    Name,
    Date,
    RelativePath,
    AbsolutePath,
    LeafrefPath,
    Key,
    Unique,
    Flag,
    Status,
    OrderedBy,
    Count,
    MaxElements,
    Value,
    FractionDigits,
    Spans,
    Any,
}

/// The form of an argument in a language; that of a core's statement is as before.
#[derive(Clone, Copy)]
pub enum WideForm {
    AsBefore(Form),
    Prefix,
    IfFeature,
    Modifier,
    NoArgument,
}

/// Whether a text is an argument of a form of YANG 1.1.
fn fits(alloc: Global, form: Form, text: &str) -> Result<bool, AllocError>
    ensures { IfOk result (λ b. b ≡ spec.fits (form_view form) text.now) }
{
    Ok(match form {
        Form::Identifier => is_identifier(text),
        Form::Name => is_name(text),
        Form::Date => is_date(text),
        Form::RelativePath => relative_path(alloc, text)?.is_some(),
        Form::AbsolutePath => absolute_path(alloc, text)?.is_some(),
        Form::LeafrefPath => leafref_path(alloc, text)?.is_some(),
        Form::Key => key_names(alloc, text)?.is_some(),
        Form::Unique => unique_paths(alloc, text)?.is_some(),
        Form::Flag => flag_of(text).is_some(),
        Form::Status => status_of(text).is_some(),
        Form::OrderedBy => ordered_by_of(text).is_some(),
        Form::Count => count(text).is_some(),
        Form::MaxElements => max_elements(text).is_some(),
        Form::Value => enum_value(text).is_some(),
        Form::FractionDigits => fraction_digits(text).is_some(),
        Form::Spans => spans(alloc, text)?.is_some(),
        Form::Any => true,
    })
}

fn is_letter(byte: u8, small: u8, capital: u8) -> bool
    ensures { result ≡ (byte == small || byte == capital) }
{
    byte == small || byte == capital
}

/// Whether a text begins with `xml`, in either case (RFC 6020, 12).
fn begins_xml(text: &str) -> bool
    ensures { result ≡ wide.begins_xml text.now }
{
    match text.as_bytes() {
        [first, second, third, ..] => {
            is_letter(*first, b'x', b'X')
                && is_letter(*second, b'm', b'M')
                && is_letter(*third, b'l', b'L')
        }
        _ => false,
    }
}

/// Whether no text that begins with `xml` is of a form.
fn bars_xml(version: YangVersion, form: Form) -> bool
    ensures { result ≡ bars_xml (version_view version) (form_view form) }
{
    matches!(version, YangVersion::Yang1) && matches!(form, Form::Identifier)
}

/// Whether a text is an argument of a form of the core, by the version of its module.
#[tactic(auto, using(crate::proofs::FormLemmas::fits_barring))]
fn fits_before(
    alloc: Global,
    version: YangVersion,
    form: Form,
    text: &str,
) -> Result<bool, AllocError>
    ensures { IfOk result (λ b. b ≡ wide.fits_before (version_view version) (form_view form) text.now) }
{
    let fitting = fits(alloc, form, text)?;
    Ok(fitting && !(bars_xml(version, form) && begins_xml(text)))
}

/// Whether a text is an argument of a form, by the version of its module.
pub(crate) fn fits_in(
    alloc: Global,
    version: YangVersion,
    form: WideForm,
    text: &str,
) -> Result<bool, AllocError>
    ensures { IfOk result (λ b. b ≡ wide.fits_in (version_view version) (wide_form_view form) text.now) }
{
    match form {
        WideForm::AsBefore(form) => fits_before(alloc, version, form, text),
        WideForm::Prefix => Ok(is_identifier(text)),
        WideForm::IfFeature => Ok(expression_of(alloc, version, text)?.is_some()),
        WideForm::Modifier => Ok(text == "invert-match"),
        WideForm::NoArgument => Ok(false),
    }
}

/// Whether a statement has no argument where it has one of a form.
pub(crate) fn takes_none(form: WideForm) -> bool
    ensures { result ≡ wide.takes_none (wide_form_view form) }
{
    matches!(form, WideForm::NoArgument)
}
