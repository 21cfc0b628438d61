//! How many nodes statements define, with `uses` counted and not replaced (RFC 7950, 7.13).

ghost use Rattle.std.specs.Prelude.{◌≡◌, ◌+◌, suc, min, true, if◌then◌else◌};
ghost use Rattle.yspec.specs.linking.Parts.{defines_node};
ghost use Rattle.yspec_wide.specs.NodeCounts.{counted_alone, counted_below};
ghost use Rattle.yspec_wide.specs.Sources.{is_augment_in};
ghost use Rattle.ybase_preorder.specs.View.{row_by, label_by};
ghost use Rattle.ybase_words.specs.KeywordView.{keyword_view};
ghost use Rattle.ylink_grammar.specs.SourceView.{source_view};
ghost use Rattle.yschema_expand.specs.Counting.{count_at, count_by, many};
ghost use Rattle.yschema_expand.specs.NamedView.{language_of, modules_of};
ghost use Rattle.yschema_expand.specs.Walk.{is_laid};

use crate::laying::{is_laid, is_single};
use crate::named::Named;
use ybase_preorder::{Node, Siblings};
use ybase_words::Keyword;
use ylink_grammar::{Source, is_augment};

/// One more than a schema may have. A count that reaches it stays there.
const MANY: u32 = 65_536;

/// A count, or that from which on all are the same.
pub(crate) fn capped(count: u32) -> u32
    ensures { result ≡ min count many }
{
    count.min(MANY)
}

/// What a table of counts holds of the grouping of a number.
pub(crate) fn count_at(counts: &[u32], number: usize) -> u32
    ensures { result ≡ count_at counts.now number }
{
    match counts.get(number) {
        Some(count) => *count,
        None => 0,
    }
}

/// How many nodes the grouping has that the statement of a number uses, by a table.
fn count_used(named: &Named<'_, '_>, counts: &[u32], uses: Node<'_, Source<'_>>) -> u32
    ensures { result ≡ min (count_by counts.now (modules_of named.now) (label_by source_view uses.entry)) many }
{
    match named.meaning(uses.number()) {
        Some(number) => capped(count_at(counts, number as usize)),
        None => 0,
    }
}

/// How many nodes a row of statements defines below one of a keyword, given how many each grouping has. In a choice single nodes
/// stand for cases, and below a `uses` augments count by what they add.
#[cycle(counting)]
pub(crate) fn count_nodes(
    named: &Named<'_, '_>,
    counts: &[u32],
    above: Keyword,
    statements: Siblings<'_, Source<'_>>,
) -> u32
    ensures { result ≡ min (counted_below (language_of named.now) (count_by counts.now (modules_of named.now))
        (keyword_view above) (row_by source_view statements.entry)) many }
{
    let mut count = 0;
    for statement in statements {
        count = capped(count + count_statement(named, counts, above, statement));
    }
    count
}

/// How many nodes a statement defines or uses, with all below it.
#[cycle(counting)]
fn count_statement(
    named: &Named<'_, '_>,
    counts: &[u32],
    above: Keyword,
    statement: Node<'_, Source<'_>>,
) -> u32
    ensures { let l = language_of named.now in let meant = count_by counts.now (modules_of named.now) in
        let s = label_by source_view statement.entry in
        result ≡ min (counted_alone l meant (keyword_view above) s
        (counted_below l meant s.keyword (row_by source_view statement.entry.children))) many }
{
    if Keyword::Uses.is(above) {
        return count_inner(named, counts, statement);
    }
    if !is_laid(statement) {
        return 0;
    }
    let nodes = count_alone(named, counts, statement);
    if is_single(Keyword::Choice.is(above), statement) {
        capped(1 + nodes)
    } else {
        nodes
    }
}

/// How many nodes a statement below a `uses` adds: an augment what it states.
#[cycle(counting)]
fn count_inner(named: &Named<'_, '_>, counts: &[u32], statement: Node<'_, Source<'_>>) -> u32
    ensures { let l = language_of named.now in let s = label_by source_view statement.entry in
        result ≡ min (if is_augment_in l s then counted_below l (count_by counts.now (modules_of named.now)) s.keyword
        (row_by source_view statement.entry.children) else 0) many }
{
    let label = statement.label();
    if is_augment(named.language(), label) {
        count_nodes(named, counts, label.keyword, statement.children())
    } else {
        0
    }
}

/// How many nodes a statement defines or uses, whether or not it stands for a case.
#[cycle(counting)]
fn count_alone(named: &Named<'_, '_>, counts: &[u32], statement: Node<'_, Source<'_>>) -> u32
    requires { is_laid (label_by source_view statement) ≡ true }
    ensures { let l = language_of named.now in let meant = count_by counts.now (modules_of named.now) in
        let s = label_by source_view statement.entry in
        let inner = counted_below l meant s.keyword (row_by source_view statement.entry.children) in
        result ≡ min (if defines_node s.keyword then suc inner else meant s + inner) many }
{
    let keyword = statement.label().keyword;
    let inner = count_nodes(named, counts, keyword, statement.children());
    if keyword.defines_node() {
        capped(1 + inner)
    } else {
        capped(count_used(named, counts, statement) + inner)
    }
}
