//! The files of a request, and what they contain.

ghost use Rattle.std.specs.Prelude.{◌≡◌, ◌++◌, IfOk, map};
ghost use Rattle.yspec_run.specs.Output.{files_of, first_file, other_files};
ghost use Rattle.yapp_words.specs.Command.{view};
ghost use Rattle.yapp.specs.Files.{ReadsAll, store};

use std::alloc::{AllocError, Global};
use yapp_report::{Failure, Files};
use yapp_words::Request;

/// What the first of some files came to, and the contents of those behind them.
#[derive(Drop)]
pub struct Taken<'b, T> {
    pub value: T,
    pub rest: &'b [Vec<u8>],
}

/// The contents of the files of some names, in order, up to the first that can't be read.
pub fn read_files<'a, F: Files>(
    alloc: Global,
    names: &[&'a str],
    files: &mut F,
) -> Result<Vec<Vec<u8>>, Failure<'a>>
    ensures { ReadsAll (λ texts. map (λ text. text.items) texts.items)
        (store F.contents F.reads F.failures files.old)
        (store F.contents F.reads F.failures files.new) (map (λ n. n.now) names.now) result }
{
    let mut contents = Vec::new(alloc);
    for name in names {
        match files.read(*name) {
            Ok(bytes) => contents.push(bytes)?,
            Err(fault) => return Err(Failure::of_file(*name, fault)),
        }
    }
    Ok(contents)
}

/// The names of a request's files in the order in which they are read.
pub fn names_of<'a>(alloc: Global, request: &Request<'a>) -> Result<Vec<&'a str>, AllocError>
    ensures { IfOk result (λ names. map (λ n. n.now) names.items ≡ files_of (view request.now)) }
{
    match request {
        Request::Explain { .. } => Ok(Vec::new(alloc)),
        Request::Compile { modules, .. }
        | Request::Tree { modules, .. }
        | Request::Trees { modules, .. } => Vec::from_slice(alloc, modules),
        Request::Validate {
            document,
            modules,
            ..
        } => names_with(alloc, modules, &[*document]),
        Request::Edit {
            document,
            script,
            modules,
            ..
        } => names_with(alloc, modules, &[*document, *script]),
    }
}

/// Names with others behind them.
pub(crate) fn names_with<'a>(
    alloc: Global,
    names: &[&'a str],
    others: &[&'a str],
) -> Result<Vec<&'a str>, AllocError>
    ensures { IfOk result (λ all. map (λ n. n.now) all.items ≡ map (λ n. n.now) names.now
        ++ map (λ n. n.now) others.now) }
{
    let mut all = Vec::from_slice(alloc, names)?;
    all.extend_from_slice(others)?;
    Ok(all)
}

/// The first of some contents; nothing where there is none.
pub fn first_of(contents: &[Vec<u8>]) -> &[u8]
    ensures { result.now ≡ first_file (map (λ c. c.items) contents.entry.now) }
{
    match contents.first() {
        Some(bytes) => bytes.as_slice(),
        None => &[],
    }
}

/// The contents behind the first.
pub fn behind_first(contents: &[Vec<u8>]) -> &[Vec<u8>]
    ensures { map (λ c. c.items) result.now ≡ other_files (map (λ c. c.items) contents.entry.now) }
{
    match contents.split_first() {
        Some((_, others)) => others,
        None => contents,
    }
}
