//! The first statement of a line of which something is said.

ghost use Rattle.std.specs.Prelude.{◌≡◌, ◌∷◌, [], IfOk, option_map, string_bytes};
ghost use Rattle.ytext.specs.View.{modules_view, row_view, view};
ghost use Rattle.ylink_grammar.specs.LanguageView.{language_view};
ghost use Rattle.ylink_grammar.specs.WordView.{word_view};
ghost use Rattle.ysay_forms.specs.Said as spec;
ghost use Rattle.ysay_forms.specs.View.{matter_view, question_view};

use crate::amounts::of_amounts;
use crate::arguments::of_form;
use std::alloc::{AllocError, Global};
use ybase_words::Keyword;
use ylink_conditions::YangVersion;
use ylink_grammar::{Language, Unjudged, Wide, Word, form_below, version_below, word_named};
use ytext::{Module, Stmt};

/// Of what something is said: an argument, or the numbers of substatements.
#[derive(Clone, Copy)]
enum Matter {
    Argument,
    Amounts,
}

/// What is looked for in a module.
#[derive(Clone, Copy)]
struct Question<'l> {
    language: &'l Language,
    version: YangVersion,
    matter: Matter,
    line: u32,
}

/// The language in which all statements that are known may stand.
fn widest(alloc: Global) -> Language
    ensures { language_view result ≡ spec.widest }
{
    Language::Rfc(Wide {
        choosings: Vec::new(alloc),
        unjudged: Unjudged {
            musts: true,
            whens: true,
        },
    })
}

/// What is said of a statement of a keyword below another.
fn of_matter(
    alloc: Global,
    question: &Question<'_>,
    above: Word,
    word: Word,
    statement: &Stmt,
) -> Result<Option<String>, AllocError>
    ensures { let q = question_view question.now in let s = view statement.now in
        IfOk result (λ text. option_map string_bytes text
        ≡ spec.of_matter q.matter q (word_view above) (word_view word) s.0 s.1) }
{
    match question.matter {
        Matter::Argument => {
            let form = form_below(question.language, question.version, above, word);
            of_form(alloc, question.version, form, statement)
        }
        Matter::Amounts => of_amounts(alloc, question.language, question.version, word, statement),
    }
}

/// The same, where it stands in the line.
fn in_place(
    alloc: Global,
    question: &Question<'_>,
    above: Word,
    word: Word,
    statement: &Stmt,
) -> Result<Option<String>, AllocError>
    ensures { let s = view statement.now in IfOk result (λ text. option_map string_bytes text
        ≡ spec.in_place (question_view question.now) (word_view above) (word_view word) s.0 s.1) }
{
    if statement.line() == question.line {
        of_matter(alloc, question, above, word, statement)
    } else {
        Ok(None)
    }
}

/// What is said of a statement below a keyword, or else of the first below it.
#[cycle(rows)]
fn in_statement(
    alloc: Global,
    question: &Question<'_>,
    above: Word,
    statement: &Stmt,
) -> Result<Option<String>, AllocError>
    ensures { let s = view statement.now in IfOk result (λ text. option_map string_bytes text
        ≡ spec.in_statement (question_view question.now) (word_view above) s.0 s.1) }
{
    let Some(word) = word_named(question.language, statement.keyword()) else {
        return Ok(None);
    };
    if word.is(Word::Known(Keyword::Extension)) {
        return Ok(None);
    }
    match in_place(alloc, question, above, word, statement)? {
        Some(said) => Ok(Some(said)),
        None => in_row(alloc, question, word, statement.substatements()),
    }
}

/// What is said of the first of some statements below a keyword.
#[cycle(rows)]
fn in_row(
    alloc: Global,
    question: &Question<'_>,
    above: Word,
    statements: &[Stmt],
) -> Result<Option<String>, AllocError>
    ensures { IfOk result (λ text. option_map string_bytes text
        ≡ spec.in_row (question_view question.now) (word_view above) (row_view statements.now)) }
{
    for statement in statements {
        if let Some(said) = in_statement(alloc, question, above, statement)? {
            return Ok(Some(said));
        }
    }
    Ok(None)
}

#[tactic(auto, unfolding(crate::specs::Said::of_line))]
fn of_line(alloc: Global, matter: Matter, line: u32, of: &Module) -> Result<String, AllocError>
    ensures { IfOk result (λ text. string_bytes text
        ≡ spec.of_line (matter_view matter) line (modules_view (of.now ∷ []))) }
{
    let language = widest(alloc);
    let question = Question {
        language: &language,
        version: version_below(of.top.substatements()),
        matter,
        line,
    };
    match in_statement(alloc, &question, Word::Known(Keyword::Module), &of.top)? {
        Some(said) => Ok(said),
        None => Ok(String::new(alloc)),
    }
}

/// What is said of a line of a module in which an argument isn't of its form, or is missing.
pub fn form_sentence(alloc: Global, line: u32, of: &Module) -> Result<String, AllocError>
    ensures { IfOk result (λ text. string_bytes text
        ≡ spec.of_line spec.an_argument line (modules_view (of.now ∷ []))) }
{
    of_line(alloc, Matter::Argument, line, of)
}

/// What is said of a line of a module in which a statement has too many or too few substatements of a kind.
pub fn count_sentence(alloc: Global, line: u32, of: &Module) -> Result<String, AllocError>
    ensures { IfOk result (λ text. string_bytes text
        ≡ spec.of_line spec.amounts line (modules_view (of.now ∷ []))) }
{
    of_line(alloc, Matter::Amounts, line, of)
}
