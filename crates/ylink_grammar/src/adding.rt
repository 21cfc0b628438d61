//! How statements come into the table.

ghost use Rattle.std.specs.Prelude.{◌≡◌, ◌++◌, ◌&&◌, false, OnOk, length, option_map};
ghost use Rattle.yspec.specs.Forest.{end, node};
ghost use Rattle.yspec_wide.specs.Sources as spec;
ghost use Rattle.yspec_wide.specs.Sources.{kept_in};
ghost use Rattle.ytext.specs.View as text;
ghost use Rattle.ytext.specs.View.{row_view};
ghost use Rattle.ybase_preorder.specs.View.{slots_in};
ghost use Rattle.ybase_words.specs.KeywordView.{keyword_view};
ghost use Rattle.ylink_grammar.specs.LanguageView.{language_view};
ghost use Rattle.ylink_grammar.specs.SourceView.{seen_rows, whole_rows, listed};
ghost use Rattle.ylink_grammar.specs.Wholes.{wholes_in};
ghost use Rattle.ylink_grammar.specs.WordView.{word_view};

use crate::grammar::version_below;
use crate::language::Language;
use crate::source::Source;
use crate::word::{Word, word_named};
use std::alloc::AllocError;
use ybase_preorder::Table;
use ybase_words::Keyword;
use ylink_conditions::YangVersion;
use ytext::Stmt;

/// The keyword as which a statement is kept.
fn keyword_kept(word: Word) -> Option<Keyword>
    ensures { option_map keyword_view result ≡ spec.keyword_kept (word_view word) }
{
    match word {
        Word::Known(keyword) => {
            if keyword.is(Keyword::Extension) {
                None
            } else {
                Some(keyword)
            }
        }
        Word::Feature | Word::IfFeature | Word::Pattern | Word::Modifier | Word::When => {
            Some(Keyword::Extension)
        }
        Word::Must => None,
        Word::Rpc | Word::Action | Word::Notification | Word::Input | Word::Output => {
            Some(Keyword::Container)
        }
        Word::Anydata | Word::Anyxml => Some(Keyword::Leaf),
    }
}

/// The same of a statement, where it is kept.
fn own_keyword(language: &Language, statement: &Stmt) -> Option<Keyword>
    ensures { option_map keyword_view result
        ≡ spec.kept_keyword_in (language_view language.now) false (text.view statement.now).0 }
{
    match word_named(language, statement.keyword()) {
        Some(word) => keyword_kept(word),
        None => None,
    }
}

/// The keyword as which an `enum` or a `bit` that restricts a type is kept, and others where they stand beside one.
fn keyword_restricting(keyword: Keyword) -> Keyword
    ensures { keyword_view result ≡ spec.keyword_restricting (keyword_view keyword) }
{
    if Keyword::Enum.is(keyword) || Keyword::Bit.is(keyword) {
        Keyword::Extension
    } else {
        keyword
    }
}

fn restricting_as(keyword: Option<Keyword>) -> Option<Keyword>
    ensures { option_map keyword_view result
        ≡ option_map spec.keyword_restricting (option_map keyword_view keyword) }
{
    match keyword {
        Some(keyword) => Some(keyword_restricting(keyword)),
        None => None,
    }
}

/// The keyword as which a statement is kept, where it is, in a row whose names restrict a type or not.
fn kept_keyword(language: &Language, restricting: bool, statement: &Stmt) -> Option<Keyword>
    ensures { option_map keyword_view result
        ≡ spec.kept_keyword_in (language_view language.now) restricting (text.view statement.now).0 }
{
    let own = own_keyword(language, statement);
    if restricting {
        restricting_as(own)
    } else {
        own
    }
}

/// Whether names restrict types in a module, and members of unions may be leafrefs.
pub(crate) fn may_restrict(language: &Language, module: &Stmt) -> bool
    ensures { result ≡ spec.may_restrict (language_view language.now) (text.view module.now).1 }
{
    match language {
        Language::Core => false,
        Language::Rfc(_) => match version_below(module.substatements()) {
            YangVersion::Yang1 => false,
            YangVersion::Yang1_1 => true,
        },
    }
}

/// Whether names below a statement restrict a type, where they do in its module.
fn restricts_below(may: bool, source: &Source<'_>) -> bool
    ensures { result ≡ (spec.is_derived_type (keyword_view source.now.keyword)
        (text.view source.now.statement.now).0 && may) }
{
    source.is_derived_type() && may
}

/// Adds those of some statements that are kept, with all below them, given whether names restrict types in their module, and
/// whether they do in their row.
#[cycle(statements)]
fn add_statements<'a>(
    language: &Language,
    table: &mut Table<Source<'a>>,
    parent: Option<u32>,
    home: usize,
    may: bool,
    restricting: bool,
    statements: &'a [Stmt],
) -> Result<(), AllocError>
    ensures listed { OnOk result (seen_rows table.new ≡ seen_rows table.old
        ++ listed parent may home (length (slots_in table.old))
        (kept_in (language_view language.now) may restricting (row_view statements.entry.now))) }
    ensures whole { OnOk result (whole_rows table.new ≡ whole_rows table.old
        ++ wholes_in (language_view language.now) (row_view statements.entry.now)) }
{
    for statement in statements {
        add_statement(language, table, parent, home, may, restricting, statement)?;
    }
    Ok(())
}

/// Adds a statement, if it is kept, with all below it.
#[cycle(statements)]
pub(crate) fn add_statement<'a>(
    language: &Language,
    table: &mut Table<Source<'a>>,
    parent: Option<u32>,
    home: usize,
    may: bool,
    restricting: bool,
    statement: &'a Stmt,
) -> Result<(), AllocError>
    ensures listed { let s = text.view statement.entry.now in
        OnOk result (seen_rows table.new ≡ seen_rows table.old
        ++ listed parent may home (length (slots_in table.old))
        (kept_in (language_view language.now) may restricting (node s.0 s.1 end))) }
    ensures whole { let s = text.view statement.entry.now in
        OnOk result (whole_rows table.new ≡ whole_rows table.old
        ++ wholes_in (language_view language.now) (node s.0 s.1 end)) }
{
    let Some(keyword) = kept_keyword(language, restricting, statement) else {
        return Ok(());
    };
    let source = Source::new(keyword, statement, home, may);
    let below = restricts_below(may, &source);
    let number = table.open(parent, source)?;
    add_statements(
        language,
        table,
        Some(number),
        home,
        may,
        below,
        statement.substatements(),
    )?;
    table.close(number);
    Ok(())
}
