//! Copies of edits.

ghost use Rattle.std.specs.Prelude.{◌≡◌, IfOk};
ghost use Rattle.std.specs.List.{flat_map};
ghost use Rattle.yinst_path.specs.EditView.{edit_view, key_view, keys_view, path_view, predicate_view, step_view, steps_view};
ghost use Rattle.yapp_session.specs.View.{edits_view, group_view};

use std::alloc::{AllocError, Global};
use yinst::{Edit, Key, NamedStep, Path, Predicate};

/// The edits of groups, as one group.
pub(crate) fn joined_edits(alloc: Global, groups: &[Vec<Edit>]) -> Result<Vec<Edit>, AllocError>
    ensures { IfOk result (λ edits. edits_view edits.items ≡ flat_map group_view groups.now) }
{
    let mut edits = Vec::new(alloc);
    for group in groups {
        let mut copies = copy_edits(alloc, group)?;
        edits.append(&mut copies)?;
    }
    Ok(edits)
}

fn copy_edits(alloc: Global, edits: &[Edit]) -> Result<Vec<Edit>, AllocError>
    ensures { IfOk result (λ copy. edits_view copy.items ≡ edits_view edits.now) }
{
    let mut copies = Vec::new(alloc);
    for edit in edits {
        copies.push(copy_edit(alloc, edit)?)?;
    }
    Ok(copies)
}

fn copy_edit(alloc: Global, edit: &Edit) -> Result<Edit, AllocError>
    ensures { IfOk result (λ copy. edit_view copy ≡ edit_view edit.now) }
{
    Ok(match edit {
        Edit::Create { path, value } => Edit::Create {
            path: copy_path(alloc, path)?,
            value: value.clone()?,
        },
        Edit::Replace { path, value } => Edit::Replace {
            path: copy_path(alloc, path)?,
            value: value.clone()?,
        },
        Edit::Remove { path } => Edit::Remove {
            path: copy_path(alloc, path)?,
        },
        Edit::Move { path, position } => Edit::Move {
            path: copy_path(alloc, path)?,
            position: *position,
        },
    })
}

fn copy_path(alloc: Global, path: &Path) -> Result<Path, AllocError>
    ensures { IfOk result (λ copy. path_view copy ≡ path_view path.now) }
{
    Ok(Path {
        steps: copy_steps(alloc, &path.steps)?,
    })
}

fn copy_steps(alloc: Global, steps: &[NamedStep]) -> Result<Vec<NamedStep>, AllocError>
    ensures { IfOk result (λ copy. steps_view copy.items ≡ steps_view steps.now) }
{
    let mut copies = Vec::new(alloc);
    for step in steps {
        copies.push(copy_step(alloc, step)?)?;
    }
    Ok(copies)
}

fn copy_step(alloc: Global, step: &NamedStep) -> Result<NamedStep, AllocError>
    ensures { IfOk result (λ copy. step_view copy ≡ step_view step.now) }
{
    Ok(NamedStep {
        name: step.name.clone()?,
        predicate: copy_predicate(alloc, &step.predicate)?,
    })
}

fn copy_predicate(alloc: Global, predicate: &Predicate) -> Result<Predicate, AllocError>
    ensures { IfOk result (λ copy. predicate_view copy ≡ predicate_view predicate.now) }
{
    match predicate {
        Predicate::Unsaid => Ok(Predicate::Unsaid),
        Predicate::Position(position) => Ok(Predicate::Position(*position)),
        Predicate::Keys(keys) => Ok(Predicate::Keys(copy_keys(alloc, keys)?)),
    }
}

fn copy_keys(alloc: Global, keys: &[Key]) -> Result<Vec<Key>, AllocError>
    ensures { IfOk result (λ copy. keys_view copy.items ≡ keys_view keys.now) }
{
    let mut copies = Vec::new(alloc);
    for key in keys {
        copies.push(copy_key(key)?)?;
    }
    Ok(copies)
}

fn copy_key(key: &Key) -> Result<Key, AllocError>
    ensures { IfOk result (λ copy. key_view copy ≡ key_view key.now) }
{
    Ok(Key {
        name: key.name.clone()?,
        text: key.text.clone()?,
    })
}
