//! Paths and edits as their texts spell them.

use crate::rows::all_hold;
use crate::telling::{is_refusal, is_text};
use std::alloc::{AllocError, Global};
use yinst::{Edit, Key, NamedStep, Path, Predicate};

fn push_all(text: &mut String, parts: &[&str]) -> Result<(), AllocError> {
    for part in parts {
        text.push_str(part)?;
    }
    Ok(())
}

fn push_keys(text: &mut String, keys: &[Key]) -> Result<(), AllocError> {
    for key in keys {
        push_all(text, &["<", key.name.as_str(), "|", key.text.as_str(), ">"])?;
    }
    Ok(())
}

// Some positions by a word each.
fn position_word(position: u32) -> &'static str {
    match position {
        1 => "first",
        12 => "twelfth",
        u32::MAX => "far",
        _ => "other",
    }
}

fn push_step(text: &mut String, step: &NamedStep) -> Result<(), AllocError> {
    push_all(text, &["/", step.name.as_str()])?;
    match &step.predicate {
        Predicate::Unsaid => Ok(()),
        Predicate::Position(position) => push_all(text, &["[", position_word(*position), "]"]),
        Predicate::Keys(keys) => push_keys(text, keys),
    }
}

// The text of a path once more, with its predicates in one form.
fn push_path(text: &mut String, path: &Path) -> Result<(), AllocError> {
    for step in &path.steps {
        push_step(text, step)?;
    }
    Ok(())
}

fn path_text(alloc: Global, path: &Path) -> Result<String, AllocError> {
    let mut text = String::new(alloc);
    push_path(&mut text, path)?;
    Ok(text)
}

fn edit_text(alloc: Global, edit: &Edit) -> Result<String, AllocError> {
    let (verb, path, value) = match edit {
        Edit::Create { path, value } => ("create ", path, value.as_str()),
        Edit::Replace { path, value } => ("replace ", path, value.as_str()),
        Edit::Remove { path } => ("remove ", path, ""),
        Edit::Move { path, position } => ("move ", path, position_word(*position)),
    };
    let mut text = String::from_str(alloc, verb)?;
    push_path(&mut text, path)?;
    push_all(&mut text, &[" (", value, ")"])?;
    Ok(text)
}

// `text => told`: the path once more, or the code of its refusal.
fn is_path(alloc: Global, row: &str) -> Option<bool> {
    let (text, told) = row.split_once(" => ")?;
    match Path::parse(alloc, text) {
        Ok(path) => is_text(path_text(alloc, &path), told),
        Err(fault) => is_refusal(alloc, fault, told),
    }
}

#[test]
fn paths(rt: HostRuntime) {
    let rows = "/p:c/id => /p:c/id
/p:l[1]/x => /p:l[first]/x
/p:l[12] => /p:l[twelfth]
/p:l[99999999999] => /p:l[far]
/p:l[a='x/]y'][b=\"'\"] => /p:l<a|x/]y><b|'>
/p:l[a=''] => /p:l<a|>
 => E1
/ => E1
p:c => E1
/p:c/ => E1
/p:l[0] => E1
/p:l[01] => E1
/p:l[1][2] => E1
/p:l[1][a='x'] => E1
/p:l[ 1] => E1
/p:l[p:a='x'] => E1
/p:l[a='x] => E1
/p:l[a=x] => E1
/p:l[a='x' => E1
/p:c[] => E1
/1c => E1
/p:q:c => E1";
    all_hold(&rt, rt.alloc(), rows, is_path);
}

// `text => told`: the edit once more with its value or position in brackets, `passed over`, or the code of its refusal.
fn is_edit(alloc: Global, row: &str) -> Option<bool> {
    let (text, told) = row.split_once(" => ")?;
    match Edit::parse(alloc, text) {
        Ok(Some(edit)) => is_text(edit_text(alloc, &edit), told),
        Ok(None) => Some(told == "passed over"),
        Err(fault) => is_refusal(alloc, fault, told),
    }
}

#[test]
fn edits(rt: HostRuntime) {
    let rows = "replace /p:c/id 7 => replace /p:c/id (7)
create  /p:c  {}  => create /p:c ({} )
replace /p:l[a='x y'] 1 => replace /p:l<a|x y> (1)
remove /p:c   => remove /p:c ()
replace /p:c/id => E1
create /p:c    => E1
remove /p:c {} => E1
 remove /p:c => E1
remove\t/p:c => E1
remove => E1
move /p:l[2] 1 => move /p:l[other] (first)
move  /p:l[a='x y']  12  => move /p:l<a|x y> (twelfth)
move /p:c 4294967295 => move /p:c (far)
move /p:c 4294967296 => move /p:c (far)
move /p:c => E1
move /p:c  => E1
move /p:c 0 => E1
move /p:c 01 => E1
move /p:c +1 => E1
move /p:c [1] => E1
move /p:c 1 2 => E1
move /p:l[0] 1 => E1
Move /p:c 1 => E1
Remove /p:c => E1
 => passed over
# => passed over
# remove /p:c => passed over";
    all_hold(&rt, rt.alloc(), rows, is_edit);
    assert!(rt; is_edit(rt.alloc(), "remove /p:c\n => E1") == Some(true));
}
