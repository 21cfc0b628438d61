//! Files that are asked for what they contain.

ghost use Rattle.std.specs.Prelude.{◌≡◌, map};
ghost use Rattle.yapp_search.specs.Reading.{AreTexts, IsAsked, store};

use std::alloc::{AllocError, Global};
use yapp_report::{FileFault, Files};

/// What the file of a name contains, where it can be read.
pub(crate) fn ask<F: Files>(name: &str, files: &mut F) -> Result<Option<Vec<u8>>, AllocError>
    ensures { IsAsked (λ text. text.items) (store F.contents F.reads F.failures files.old)
        (store F.contents F.reads F.failures files.new) name.now result }
{
    match files.read(name) {
        Ok(bytes) => Ok(Some(bytes)),
        Err(FileFault::Unread(_)) => Ok(None),
        Err(FileFault::Memory) => Err(AllocError),
    }
}

/// What the files of some names contain, in order, where each can be read.
pub(crate) fn read_all<F: Files>(
    alloc: Global,
    names: &[&str],
    files: &mut F,
) -> Result<Option<Vec<Vec<u8>>>, AllocError>
    ensures { AreTexts (λ texts. map (λ text. text.items) texts.items)
        (store F.contents F.reads F.failures files.old)
        (store F.contents F.reads F.failures files.new) (map (λ n. n.now) names.now) result }
{
    let mut texts = Vec::new(alloc);
    for name in names {
        match ask(*name, files)? {
            Some(bytes) => texts.push(bytes)?,
            None => return Ok(None),
        }
    }
    Ok(Some(texts))
}
