//! In which files a module is looked for (RFC 7950, 5.2).

ghost use Rattle.std.specs.Prelude.{◌≡◌, ◌++◌, IfOk, OnOk, map, string_bytes};
ghost use Rattle.yspec_search.specs.Search as spec;
ghost use Rattle.ylink_search.specs.WantedView.{wanted_view};

use crate::importing::Wanted;
use std::alloc::{AllocError, Global};

/// The files in which a module is looked for, folder by folder, with a date that one first.
pub fn files_for(
    alloc: Global,
    folders: &[&str],
    wanted: &Wanted,
) -> Result<Vec<String>, AllocError>
    ensures { IfOk result (λ files. map string_bytes files.items
        ≡ spec.files_for (map (λ t. t.now) folders.now) (wanted_view wanted.now)) }
{
    let name = wanted.name.as_str();
    let mut files = Vec::new(alloc);
    for folder in folders {
        if let Some(date) = &wanted.date {
            files.push(dated_file(alloc, *folder, name, date.as_str())?)?;
        }
        files.push(plain_file(alloc, *folder, name)?)?;
    }
    Ok(files)
}

/// The file of a module of a date in a folder.
fn dated_file(alloc: Global, folder: &str, name: &str, date: &str) -> Result<String, AllocError>
    ensures { IfOk result (λ file. string_bytes file
        ≡ spec.file_in folder.now (spec.dated_file name.now date.now)) }
{
    [folder, "/", name, "@", date, ".yang"].concat(alloc)
}

/// The file of a module in a folder.
fn plain_file(alloc: Global, folder: &str, name: &str) -> Result<String, AllocError>
    ensures { IfOk result (λ file. string_bytes file ≡ spec.file_in folder.now (spec.plain_file name.now)) }
{
    [folder, "/", name, ".yang"].concat(alloc)
}
