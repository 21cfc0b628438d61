//! The names of enumerations and bits that statements give (RFC 7950, 9.6.4 and 9.7.4).

ghost use Rattle.std.specs.Prelude.{◌≡◌, ◌&&◌, not, List, Option, IfOk, map, option_map, ok_or};
ghost use Rattle.yspec.specs.Results.{Gives};
ghost use Rattle.yspec.specs.types.Names as spec_names;
ghost use Rattle.yspec.specs.types.Types.{plain};
ghost use Rattle.yspec.specs.linking.Source as sources;
ghost use Rattle.yspec.specs.linking.Source.{is_source_of};
ghost use Rattle.yspec.specs.linking.TypeStatements as spec;
ghost use Rattle.ybase_preorder.specs.View.{row_by, label_by};
ghost use Rattle.ylink_grammar.specs.SourceView.{source_view};
ghost use Rattle.yspec_wide.specs.Types as wide;
ghost use Rattle.ytype_numbers.specs.Words.{narrow_refusal, same};
ghost use Rattle.ylink_values.specs.KeptView.{kept_view};
ghost use Rattle.ylink_values.specs.KindView.{are_kept, base_of, names_by, naming_in, naming_word, number_by, type_kept};

use crate::kept::Kept;
use crate::limit::accepted_type;
use std::alloc::{AllocError, Global};
use ybase_preorder::{Node, Siblings};
use ybase_words::Keyword;
use ylink_arguments::{count, enum_value};
use ylink_grammar::{Source, argument_of, argument_with};
use ytype::{Names, Naming, NarrowFault, Restriction, YType};
use ytype_numbers::{bit_names, enum_names};

fn value_stated(below: Siblings<'_, Source<'_>>) -> Option<i64>
    ensures { result ≡ spec.value_stated (row_by source_view below.entry) }
{
    enum_value(argument_with(Keyword::Value, below)?)
}

fn position_stated(below: Siblings<'_, Source<'_>>) -> Option<i64>
    ensures { result ≡ spec.position_stated (row_by source_view below.entry) }
{
    Some(i64::from(count(argument_with(Keyword::Position, below)?)?))
}

/// The statements that give names with numbers.
#[derive(Clone, Copy)]
pub enum NamingKind {
    Enum,
    Bit,
}

impl NamingKind {
    ghost use Rattle.std.specs.Prelude.{◌≡◌};
    ghost use Rattle.ybase_preorder.specs.View.{row_by};
    ghost use Rattle.ybase_words.specs.KeywordView.{keyword_view};
    ghost use Rattle.ylink_grammar.specs.SourceView.{source_view};
    ghost use Rattle.ytype_numbers.specs.View.{restriction_of};
    ghost use Rattle.ylink_values.specs.KindView.{naming_word, number_by, restriction_of_kind};

    /// Their keyword.
    fn keyword(self) -> Keyword
        ensures { keyword_view result ≡ naming_word self }
    {
        match self {
            NamingKind::Enum => Keyword::Enum,
            NamingKind::Bit => Keyword::Bit,
        }
    }

    /// The restriction by these names.
    pub(crate) fn restriction(self, namings: Vec<Naming>) -> Restriction
        ensures { restriction_of result ≡ restriction_of_kind self namings.items }
    {
        match self {
            NamingKind::Enum => Restriction::Enums(namings),
            NamingKind::Bit => Restriction::Bits(namings),
        }
    }

    /// The number that one states, given what stands below it.
    pub(crate) fn number_stated(self, below: Siblings<'_, Source<'_>>) -> Option<i64>
        ensures { result ≡ number_by self (row_by source_view below.entry) }
    {
        match self {
            NamingKind::Enum => value_stated(below),
            NamingKind::Bit => position_stated(below),
        }
    }
}

pub(crate) fn naming(
    alloc: Global,
    statement: Node<'_, Source<'_>>,
    number: Option<i64>,
) -> Result<Naming, AllocError>
    ensures { IfOk result (λ naming. naming ≡ record {
      name = sources.argument_in
          (label_by source_view statement.entry);
      number = number;
    }) }
{
    let name = String::from_str(alloc, argument_of(statement))?;
    Ok(Naming::new(name, number))
}

/// The names that the statements of a kind in a row give, each with its number where one is stated.
fn namings(
    alloc: Global,
    kind: NamingKind,
    below: Siblings<'_, Source<'_>>,
) -> Result<Vec<Naming>, AllocError>
    ensures { IfOk result (λ namings. namings.items
        ≡ spec.namings (naming_word kind) (number_by kind) (row_by source_view below.entry)) }
{
    let keyword = kind.keyword();
    let mut namings = Vec::new(alloc);
    for statement in below {
        if !keyword.is(statement.label().keyword) {
            continue;
        }
        let number = kind.number_stated(statement.children());
        let named = naming(alloc, statement, number)?;
        namings.push(named)?;
    }
    Ok(namings)
}

/// Whether all names are kept that the statements of a kind in a row give.
fn are_all_kept(kept: Kept<'_>, kind: NamingKind, below: Siblings<'_, Source<'_>>) -> bool
    ensures { result ≡ are_kept (kept_view kept.entry) (naming_word kind)
        (row_by source_view below.entry) }
{
    match kept {
        Kept::All => true,
        _ => is_each_kept(kept, kind, below),
    }
}

/// Whether a statement gives a name of a kind that isn't kept.
fn is_left_out(kept: Kept<'_>, kind: NamingKind, statement: Node<'_, Source<'_>>) -> bool
    ensures { result ≡ (is_source_of (naming_word kind) (label_by source_view statement.entry)
        && not (wide.keeps (kept_view kept.entry) (row_by source_view statement.entry.children))) }
{
    kind.keyword().is(statement.label().keyword) && !kept.keeps(statement.children())
}

/// The same, each looked at.
fn is_each_kept(kept: Kept<'_>, kind: NamingKind, below: Siblings<'_, Source<'_>>) -> bool
    ensures { result ≡ are_kept (kept_view kept.entry) (naming_word kind)
        (row_by source_view below.entry) }
{
    for statement in below {
        if is_left_out(kept, kind, statement) {
            return false;
        }
    }
    true
}

/// Whether a statement gives a name of a kind that is kept.
fn is_kept(kept: Kept<'_>, kind: NamingKind, statement: Node<'_, Source<'_>>) -> bool
    ensures { result ≡ (is_source_of (naming_word kind) (label_by source_view statement.entry)
        && wide.keeps (kept_view kept.entry) (row_by source_view statement.entry.children)) }
{
    kind.keyword().is(statement.label().keyword) && kept.keeps(statement.children())
}

/// The names that the statements of a kind in a row give and that are kept, each with its number among all.
fn kept_namings(
    alloc: Global,
    kept: Kept<'_>,
    kind: NamingKind,
    names: &Names,
    below: Siblings<'_, Source<'_>>,
) -> Result<Vec<Naming>, AllocError>
    ensures { IfOk result (λ namings. namings.items ≡ map (naming_in names.now)
        (wide.names_kept (kept_view kept.entry) (naming_word kind) (row_by source_view below.entry))) }
{
    let mut namings = Vec::new(alloc);
    for statement in below {
        if !is_kept(kept, kind, statement) {
            continue;
        }
        let number = names.number_of(argument_of(statement));
        let named = naming(alloc, statement, number)?;
        namings.push(named)?;
    }
    Ok(namings)
}

/// Names that were made, or none where one was refused.
fn accepted_names(made: Result<Names, NarrowFault>) -> Result<Option<Names>, AllocError>
    ensures { (answer : Option (List spec_names.Assigned)) → Gives same narrow_refusal made (ok_or answer tt)
        → IfOk result (λ names. names ≡ answer) }
{
    match made {
        Ok(made) => Ok(Some(made)),
        Err(NarrowFault::Refused) => Ok(None),
        Err(NarrowFault::Memory) => Err(AllocError),
    }
}

/// The names of a kind with their numbers; none where a name or a number is refused.
fn names_given(
    alloc: Global,
    kind: NamingKind,
    namings: &[Naming],
) -> Result<Option<Names>, AllocError>
    ensures { IfOk result (λ given. given ≡ names_by kind namings.now) }
{
    match kind {
        NamingKind::Enum => accepted_names(enum_names(alloc, namings)),
        NamingKind::Bit => accepted_names(bit_names(alloc, namings)),
    }
}

/// The type of a kind that has these names; none where a name or a number is refused.
fn type_of_names(
    alloc: Global,
    kind: NamingKind,
    namings: &[Naming],
) -> Result<Option<YType>, AllocError>
    ensures { IfOk result (λ type. type
        ≡ option_map (λ given. plain (base_of kind given)) (names_by kind namings.now)) }
{
    match kind {
        NamingKind::Enum => accepted_type(YType::enumeration(alloc, namings)),
        NamingKind::Bit => accepted_type(YType::bits(alloc, namings)),
    }
}

/// The enumeration or the bits of those names that a row gives and that are kept. Numbers are given as if all were kept.
pub fn named_type(
    alloc: Global,
    kept: Kept<'_>,
    kind: NamingKind,
    below: Siblings<'_, Source<'_>>,
) -> Result<Option<YType>, AllocError>
    ensures { IfOk result (λ type. type
        ≡ type_kept (kept_view kept.entry) kind (row_by source_view below.entry)) }
{
    let all = namings(alloc, kind, below)?;
    if all.is_empty() {
        return Ok(None);
    }
    if are_all_kept(kept, kind, below) {
        return type_of_names(alloc, kind, &all);
    }
    match names_given(alloc, kind, &all)? {
        Some(names) => {
            let namings = kept_namings(alloc, kept, kind, &names, below)?;
            type_of_names(alloc, kind, &namings)
        }
        None => Ok(None),
    }
}
