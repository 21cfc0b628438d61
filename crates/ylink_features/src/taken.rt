//! Two features of one name (RFC 7950, 6.2.1 and 7.20.1).

ghost use Rattle.std.specs.Prelude.{◌≡◌, [], IfOk};
ghost use Rattle.yspec.specs.schema.Breaks.{least_from};
ghost use Rattle.yspec_wide.specs.Features as spec;
ghost use Rattle.ybase_preorder.specs.View.{row_by};
ghost use Rattle.ylink_grammar.specs.BreakView.{seen};
ghost use Rattle.ylink_grammar.specs.LanguageView.{language_view};
ghost use Rattle.ylink_grammar.specs.LinkView.{view};
ghost use Rattle.ylink_grammar.specs.SourceView.{source_view};

use std::alloc::{AllocError, Global};
use ybase_preorder::Siblings;
use ylink_grammar::{
    BrokenRule, CompileCode, Language, Source, Sources, argument_of, broken, is_feature, least_when,
};
use ylink_names::FirstNamed;

/// The lesser of one so far and of the features of a module whose names earlier ones have.
fn judge_features(
    alloc: Global,
    language: &Language,
    body: Siblings<'_, Source<'_>>,
    so_far: Option<BrokenRule>,
) -> Result<Option<BrokenRule>, AllocError>
    ensures { let l = language_view language.now in IfOk result (λ told. seen told
        ≡ least_from (seen so_far)
        (spec.doubled_features l [] (spec.features_in l (row_by source_view body.entry)))) }
{
    let mut names = FirstNamed::new(alloc);
    let mut told = so_far;
    for statement in body {
        let source = statement.label();
        if !is_feature(language, source) {
            continue;
        }
        let name = argument_of(statement);
        let is_taken = names.get(name).is_some();
        names.add(name, ())?;
        let taken = broken(CompileCode::C7, source.home, source.statement);
        told = least_when(is_taken, told, taken);
    }
    Ok(told)
}

/// The lesser of one so far and of the features whose names earlier ones of their modules have, by module and line.
pub fn broken_taken_feature_rule(
    alloc: Global,
    language: &Language,
    sources: &Sources<'_>,
    so_far: Option<BrokenRule>,
) -> Result<Option<BrokenRule>, AllocError>
    ensures { IfOk result (λ told. seen told ≡ least_from (seen so_far)
        (spec.taken_feature_breaks (language_view language.now) (view sources.now))) }
{
    let mut told = so_far;
    for top in sources.modules() {
        told = judge_features(alloc, language, top.children(), told)?;
    }
    Ok(told)
}
