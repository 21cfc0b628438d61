//! The rules of the table that statements break (RFC 7950, 7 and 14).

ghost use Rattle.std.specs.Prelude.{◌≡◌, ◌&&◌, ◌||◌, ◌∷◌, [], false, true, not, map, None, IfOk, is_some, option_map};
ghost use Rattle.std.specs.List.{list_any};
ghost use Rattle.std.specs.Option.{option_map_or};
ghost use Rattle.yspec.specs.Forest.{row};
ghost use Rattle.yspec.specs.linking.StatementBreaks as narrow;
ghost use Rattle.yspec.specs.schema.Breaks.{least_from};
ghost use Rattle.yspec_wide.specs.Language as languages;
ghost use Rattle.yspec_wide.specs.Table as table;
ghost use Rattle.yspec_wide.specs.Words.{known, same_word, word_named};
ghost use Rattle.yspec_wide.specs.StatementBreaks as spec;
ghost use Rattle.ytext.specs.View.{view, row_view, modules_view};
ghost use Rattle.ybase_words.specs.KeywordView.{keyword_view};
ghost use Rattle.ylink_conditions.specs.View.{version_view};
ghost use Rattle.ylink_grammar.specs.FormView.{wide_form_view};
ghost use Rattle.ylink_grammar.specs.LanguageView.{language_view};
ghost use Rattle.ylink_grammar.specs.WordView.{word_view};
ghost use Rattle.ylink_grammar.specs.TableView.{ahead_view, allowed_view, allowed_views, rows_view, wide_rule_view};
ghost use Rattle.ylink_grammar.specs.Counts.{AreOf, allowed_word, are_apart, count_at, has_word, is_miscounted_by, is_repeated, is_type_outside, is_wrongly_versioned, lacks, needs, needs_of_word};
ghost use Rattle.ylink_grammar.specs.BreakView.{break_view, seen};

use crate::fault::{BrokenRule, CompileCode, least, least_when};
use crate::form::{Form, WideForm, fits_in, takes_none};
use crate::language::Language;
use crate::rules::{WideRule, needs_in, rule_in};
use crate::table::{Allowed, Count};
use crate::word::{Word, word_named};
use std::alloc::{AllocError, Global};
use ybase_words::{KEYWORDS, Keyword};
use ylink_conditions::YangVersion;
use ytext::{Module, Stmt, offset_of};

/// Up to how many substatements are compared with one another, and not counted.
const FEW: usize = 8;

/// In which language and version a module is read, and its number in the set.
#[derive(Clone, Copy)]
struct Reading<'l> {
    language: &'l Language,
    version: YangVersion,
    module: usize,
}

pub fn broken(code: CompileCode, module: usize, statement: &Stmt) -> BrokenRule
    ensures { result ≡ record
        { code = code; «module» = «module»; line = (view statement.now).0.line } }
{
    BrokenRule {
        module,
        line: statement.line(),
        code,
    }
}

/// Whether a keyword has a prefix.
fn is_prefixed(statement: &Stmt) -> bool
    ensures { result ≡ narrow.is_prefixed (view statement.now).0.keyword }
{
    offset_of(statement.keyword().as_bytes(), b':').is_some()
}

fn has_keyword(statement: &Stmt, keyword: Keyword) -> bool
    ensures { result ≡ narrow.has_keyword (keyword_view keyword) (view statement.now).0 }
{
    match Keyword::named(statement.keyword()) {
        Some(named) => keyword.is(named),
        None => false,
    }
}

/// Whether a statement has a keyword of a language.
pub(crate) fn has_keyword_in(language: &Language, statement: &Stmt, word: Word) -> bool
    ensures { result
        ≡ spec.has_word (language_view language.now) (word_view word) (view statement.now).0 }
{
    match word_named(language, statement.keyword()) {
        Some(named) => word.is(named),
        None => false,
    }
}

/// How many statements of each keyword there are, by its number.
fn counts_of(statements: &[Stmt]) -> [usize; KEYWORDS]
    ensures { AreOf result (row_view statements.now) }
{
    let mut counts = [0; KEYWORDS];
    for statement in statements {
        if let Some(keyword) = Keyword::named(statement.keyword()) {
            counts[keyword.number() as usize] += 1;
        }
    }
    counts
}

fn count_of(keyword: Keyword, counts: &[usize]) -> usize
    ensures { result ≡ count_at counts.now (keyword_view keyword) }
{
    match counts.get(keyword.number() as usize) {
        Some(count) => *count,
        None => 0,
    }
}

fn has_wrong_count(allowed: &Allowed, counts: &[usize]) -> bool
    ensures { result ≡ is_miscounted_by counts.now (allowed_view allowed.now) }
{
    match allowed.1 {
        // A missing `yang-version` is told by its own code.
        Count::One => {
            let count = count_of(allowed.0, counts);
            count != 1 && !(allowed.0.is(Keyword::YangVersion) && count == 0)
        }
        Count::AtMostOne => {
            let count = count_of(allowed.0, counts);
            count > 1 && !(allowed.0.is(Keyword::YangVersion) && count == 0)
        }
        Count::Any => false,
    }
}

fn has_wrong_counts(allowed: &[Allowed], counts: &[usize]) -> bool
    ensures { result ≡ list_any (is_miscounted_by counts.now) (allowed_views allowed.now) }
{
    for a in allowed {
        if has_wrong_count(a, counts) {
            return true;
        }
    }
    false
}

/// Whether one of some statements has this word as its keyword.
fn has_word(word: &str, statements: &[Stmt]) -> bool
    ensures { result ≡ has_word word.now (row (row_view statements.now)) }
{
    for statement in statements {
        if word == statement.keyword() {
            return true;
        }
    }
    false
}

/// Whether no two statements have the same keyword.
fn are_apart(statements: &[Stmt]) -> bool
    ensures { result ≡ are_apart (row (row_view statements.now)) }
{
    for (place, statement) in statements.iter().enumerate() {
        if has_word(statement.keyword(), &statements[place + 1..]) {
            return false;
        }
    }
    true
}

fn lacks(keyword: Keyword, statements: &[Stmt]) -> bool
    ensures { result ≡ lacks (row_view statements.now) (keyword_view keyword) }
{
    for statement in statements {
        if has_keyword(statement, keyword) {
            return false;
        }
    }
    true
}

fn lacks_any(keywords: &[Keyword], statements: &[Stmt]) -> bool
    ensures { result ≡ list_any (lacks (row_view statements.now)) (map keyword_view keywords.now) }
{
    for keyword in keywords {
        if lacks(*keyword, statements) {
            return true;
        }
    }
    false
}

/// Whether two of some statements have a keyword of a language.
pub(crate) fn is_repeated(language: &Language, word: Word, statements: &[Stmt]) -> bool
    ensures { result
        ≡ is_repeated (language_view language.now) (row_view statements.now) (word_view word) }
{
    let mut found = false;
    for statement in statements {
        if !has_keyword_in(language, statement, word) {
            continue;
        }
        if found {
            return true;
        }
        found = true;
    }
    false
}

/// Whether two of some statements have the same of some keywords.
fn repeats_any(language: &Language, words: &[Word], statements: &[Stmt]) -> bool
    ensures { result ≡ list_any (is_repeated (language_view language.now) (row_view statements.now))
        (map word_view words.now) }
{
    for word in words {
        if is_repeated(language, *word, statements) {
            return true;
        }
    }
    false
}

/// Whether there are too many or too few of a substatement of the core.
fn is_miscounted_before(rule: &WideRule, word: Word, statement: &Stmt) -> bool
    requires { needs (allowed_views rule.now.substatements.now) ≡ needs_of_word (word_view word) }
    ensures { result ≡ list_any (narrow.is_miscounted (view statement.now).1)
        (allowed_views rule.now.substatements.now) }
{
    let statements = statement.substatements();
    if statements.len() <= FEW && are_apart(statements) {
        return lacks_any(needs_in(word), statements);
    }
    let counts = counts_of(statements);
    has_wrong_counts(rule.substatements, &counts)
}

/// Whether there are too many or too few of a substatement.
fn is_miscounted(language: &Language, rule: &WideRule, word: Word, statement: &Stmt) -> bool
    requires { needs (allowed_views rule.now.substatements.now) ≡ needs_of_word (word_view word) }
    ensures { result ≡ list_any
        (spec.is_miscounted (language_view language.now) (view statement.now).1) (rows_view rule.now) }
{
    repeats_any(language, rule.once, statement.substatements())
        || is_miscounted_before(rule, word, statement)
}

fn is_among(word: Word, allowed: &[Allowed]) -> bool
    ensures { result ≡ spec.is_allowed (word_view word) (table.row_before (allowed_views allowed.now)) }
{
    for a in allowed {
        if Word::Known(a.0).is(word) {
            return true;
        }
    }
    false
}

fn is_one_of(word: Word, words: &[Word]) -> bool
    ensures { result ≡ list_any (λ w. same_word w (word_view word)) (map word_view words.now) }
{
    for other in words {
        if other.is(word) {
            return true;
        }
    }
    false
}

/// Whether a keyword is one of those that a row allows ahead of the core's.
fn is_ahead(word: Word, rule: &WideRule) -> bool
    ensures { result ≡ spec.is_allowed (word_view word) (ahead_view rule.now) }
{
    is_one_of(word, rule.once) || is_one_of(word, rule.ahead)
}

/// Whether a keyword is one of those that a row allows.
#[tactic(auto, using(crate::proofs::WordLemmas::allowed_by))]
fn is_allowed(word: Word, rule: &WideRule) -> bool
    ensures { result ≡ spec.is_allowed (word_view word) (rows_view rule.now) }
{
    let ahead = is_ahead(word, rule);
    let among = is_among(word, rule.substatements);
    let behind = is_one_of(word, rule.behind);
    ahead || (among || behind)
}

fn is_version(statement: &Stmt) -> bool
    ensures { result ≡ narrow.is_current_version (view statement.now).0 }
{
    has_keyword(statement, Keyword::YangVersion) && statement.argument() == Some("1.1")
}

fn has_version(statements: &[Stmt]) -> bool
    ensures { result ≡ list_any narrow.is_current_version (row (row_view statements.now)) }
{
    for statement in statements {
        if is_version(statement) {
            return true;
        }
    }
    false
}

/// Whether the argument is that of a version of YANG.
fn names_version(statement: &Stmt) -> bool
    ensures { result ≡ option_map_or spec.is_version (view statement.now).0.argument false }
{
    matches!(statement.argument(), Some("1") | Some("1.1"))
}

/// Whether it is a module without the version that is read, under the core, or else a `yang-version` that names none
/// (RFC 7950, 7.1.2).
fn is_wrongly_versioned(language: &Language, word: Word, statement: &Stmt) -> bool
    ensures { result ≡ is_wrongly_versioned (language_view language.now) (word_view word)
        (view statement.now).0 (view statement.now).1 }
{
    match language {
        Language::Core => {
            word.is(Word::Known(Keyword::Module)) && !has_version(statement.substatements())
        }
        Language::Rfc(_) => {
            word.is(Word::Known(Keyword::YangVersion)) && !names_version(statement)
        }
    }
}

/// Whether a statement is the type of a built-in name that isn't compiled.
fn is_type_outside(language: &Language, word: Word, statement: &Stmt) -> bool
    ensures { result ≡ is_type_outside (language_view language.now) (word_view word) (view statement.now).0 }
{
    match language {
        Language::Core => {
            word.is(Word::Known(Keyword::Type))
                && matches!(
                    statement.argument(),
                    Some("binary") | Some("instance-identifier")
                )
        }
        Language::Rfc(_) => {
            word.is(Word::Known(Keyword::Type))
                && matches!(statement.argument(), Some("instance-identifier"))
        }
    }
}

/// Whether the argument of a statement is of a form, or none stands there where none is due.
pub fn has_fitting_argument(
    alloc: Global,
    version: YangVersion,
    form: WideForm,
    statement: &Stmt,
) -> Result<bool, AllocError>
    ensures { IfOk result (λ b. b ≡ option_map_or
        (table.fits_in (version_view version) (wide_form_view form))
        (view statement.now).0.argument (table.takes_none (wide_form_view form))) }
{
    match statement.argument() {
        Some(text) => fits_in(alloc, version, form, text),
        None => Ok(takes_none(form)),
    }
}

/// The version that an argument of `yang-version` names.
fn version_named(text: &str) -> YangVersion
    ensures { version_view result ≡ languages.version_named text.now }
{
    if text == "1.1" {
        YangVersion::Yang1_1
    } else {
        YangVersion::Yang1
    }
}

/// The same; YANG 1 where there is no argument (RFC 7950, 7.1.2).
fn version_stated(stated: Option<&str>) -> YangVersion
    ensures { version_view result ≡ languages.version_stated (option_map (λ t. t.now) stated.entry) }
{
    match stated {
        Some(text) => version_named(text),
        None => YangVersion::Yang1,
    }
}

/// The version of a module, by what stands below its statement.
pub fn version_below(statements: &[Stmt]) -> YangVersion
    ensures { version_view result ≡ languages.version_below (row_view statements.now) }
{
    for statement in statements {
        if has_keyword(statement, Keyword::YangVersion) {
            return version_stated(statement.argument());
        }
    }
    YangVersion::Yang1
}

/// The version in which a module is read: under the core every one is read as YANG 1.1.
fn version_in(language: &Language, statement: &Stmt) -> YangVersion
    ensures { version_view result ≡ spec.version_in (language_view language.now) (view statement.now).1 }
{
    match language {
        Language::Core => YangVersion::Yang1_1,
        Language::Rfc(_) => version_below(statement.substatements()),
    }
}

/// Tells a broken rule, where it comes before the one told so far.
fn tell(told: &mut Option<BrokenRule>, found: BrokenRule)
    ensures { seen told.new ≡ least_from (seen told.old) (break_view found ∷ []) }
{
    *told = least(*told, found);
}

/// The form of an argument in a row, given that of its keyword: below a `uses`, where a `refine` may stand too, the path of an
/// `augment` is relative (RFC 7950, 7.17).
fn form_at(language: &Language, rule: &WideRule, word: Word, form: WideForm) -> WideForm
    ensures { wide_form_view result ≡ spec.form_at (language_view language.now) (rows_view rule.now)
        (word_view word) (wide_form_view form) }
{
    match language {
        Language::Core => form,
        Language::Rfc(_) => {
            if word.is(Word::Known(Keyword::Augment))
                && is_allowed(Word::Known(Keyword::Refine), rule)
            {
                WideForm::AsBefore(Form::RelativePath)
            } else {
                form
            }
        }
    }
}

/// The form of the argument of a keyword below another one, by language and version.
pub fn form_below(language: &Language, version: YangVersion, above: Word, word: Word) -> WideForm
    ensures { let language = language_view language.now in let version = version_view version in
        wide_form_view result ≡ spec.form_at language (table.rule_in language version (word_view above)).substatements
        (word_view word) (table.rule_in language version (word_view word)).form }
{
    let rule = rule_in(language, version, above);
    let form = rule_in(language, version, word).form;
    form_at(language, &rule, word, form)
}

/// The rules that a statement breaks, apart from those that its substatements break, given the form of its argument where it stands.
fn judge_alone(
    alloc: Global,
    reading: Reading<'_>,
    rule: &WideRule,
    form: WideForm,
    word: Word,
    statement: &Stmt,
    told: &mut Option<BrokenRule>,
) -> Result<(), AllocError>
    requires rule { wide_rule_view rule.now
        ≡ table.rule_in (language_view reading.language.now) (version_view reading.version) (word_view word) }
    requires needs { needs (allowed_views rule.now.substatements.now) ≡ needs_of_word (word_view word) }
    ensures { IfOk result (λ _. seen told.new ≡ least_from (seen told.old)
        (spec.own_breaks (language_view reading.entry.language.now) (version_view reading.entry.version)
        reading.entry.«module» (wide_form_view form) (word_view word) (view statement.now).0 (view statement.now).1)) }
{
    let unfitting = !has_fitting_argument(alloc, reading.version, form, statement)?;
    let outside = is_type_outside(reading.language, word, statement);
    let misversioned = is_wrongly_versioned(reading.language, word, statement);
    let miscounted = is_miscounted(reading.language, rule, word, statement);
    let module = reading.module;
    if !(unfitting || outside || misversioned || miscounted) {
        return Ok(());
    }
    let first = least_when(unfitting, *told, broken(CompileCode::C3, module, statement));
    let first = least_when(outside, first, broken(CompileCode::C1, module, statement));
    let first = least_when(
        misversioned,
        first,
        broken(CompileCode::C4, module, statement),
    );
    *told = least_when(
        miscounted,
        first,
        broken(CompileCode::C2, module, statement),
    );
    Ok(())
}

/// The keyword of a statement, where it may stand there.
fn allowed_word(language: &Language, rule: &WideRule, statement: &Stmt) -> Option<Word>
    ensures { option_map word_view result ≡ allowed_word (rows_view rule.now)
        (word_named (language_view language.now) (view statement.now).0.keyword) }
{
    let word = word_named(language, statement.keyword())?;
    if is_allowed(word, rule) {
        Some(word)
    } else {
        None
    }
}

/// Tells the least rule broken by a statement that stands below one of a rule, and below it.
#[cycle(judge)]
fn judge(
    alloc: Global,
    reading: Reading<'_>,
    rule: &WideRule,
    statement: &Stmt,
    told: &mut Option<BrokenRule>,
) -> Result<(), AllocError>
    ensures { let s = view statement.now in
        let language = language_view reading.entry.language.now in
        let version = version_view reading.entry.version in
        IfOk result (λ _. seen told.new ≡ least_from (seen told.old)
        (spec.breaks_at language version reading.entry.«module» (rows_view rule.now) s.0 s.1
        (spec.row_breaks_in language version reading.entry.«module»
        (spec.substatements_of language version s.0.keyword) s.1))) }
{
    match allowed_word(reading.language, rule, statement) {
        None if is_prefixed(statement) => Ok(()),
        None => {
            tell(told, broken(CompileCode::C1, reading.module, statement));
            Ok(())
        }
        Some(word) => {
            if word.is(Word::Known(Keyword::Extension)) {
                return Ok(());
            }
            let own = rule_in(reading.language, reading.version, word);
            let form = form_at(reading.language, rule, word, own.form);
            judge_alone(alloc, reading, &own, form, word, statement, told)?;
            let below = statement.substatements();
            if below.is_empty() {
                return Ok(());
            }
            judge_row(alloc, reading, &own, below, told)
        }
    }
}

/// Tells the least rule broken by statements that stand in one block, and below them.
#[cycle(judge)]
#[tactic(auto, unfolding(yspec_wide::specs::StatementBreaks::row_breaks_in))]
fn judge_row(
    alloc: Global,
    reading: Reading<'_>,
    rule: &WideRule,
    statements: &[Stmt],
    told: &mut Option<BrokenRule>,
) -> Result<(), AllocError>
    ensures { IfOk result (λ _. seen told.new ≡ least_from (seen told.old)
        (spec.row_breaks_in (language_view reading.entry.language.now) (version_view reading.entry.version)
        reading.entry.«module» (rows_view rule.now) (row_view statements.now))) }
{
    for statement in statements {
        judge(alloc, reading, rule, statement, told)?;
    }
    Ok(())
}

/// Tells the least rule broken by the top statement of a module, and below it.
fn judge_top(
    alloc: Global,
    language: &Language,
    module: usize,
    statement: &Stmt,
    told: &mut Option<BrokenRule>,
) -> Result<(), AllocError>
    ensures { let s = view statement.now in IfOk result (λ _. seen told.new
        ≡ least_from (seen told.old) (spec.top_breaks (language_view language.now) «module» s.0 s.1)) }
{
    if !has_keyword_in(language, statement, Word::Known(Keyword::Module)) {
        tell(told, broken(CompileCode::C1, module, statement));
        return Ok(());
    }
    let reading = Reading {
        language,
        version: version_in(language, statement),
        module,
    };
    let word = Word::Known(Keyword::Module);
    let rule = rule_in(language, reading.version, word);
    judge_alone(alloc, reading, &rule, rule.form, word, statement, told)?;
    judge_row(alloc, reading, &rule, statement.substatements(), told)
}

/// The least rule of the table that modules break in a language, by module, line and number.
#[tactic(auto, unfolding(yspec_wide::specs::StatementBreaks::breaks_in_from))]
pub fn broken_statement_rule_in(
    alloc: Global,
    language: &Language,
    modules: &[Module],
) -> Result<Option<BrokenRule>, AllocError>
    ensures { IfOk result (λ told. seen told ≡ least_from None
        (spec.statement_phase_in (language_view language.now) (modules_view modules.now))) }
{
    let mut told = None;
    for (module, text) in modules.iter().enumerate() {
        judge_top(alloc, language, module, &text.top, &mut told)?;
    }
    Ok(told)
}
