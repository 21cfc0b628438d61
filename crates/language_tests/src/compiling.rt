//! What modules are compiled to in a language, and how they are refused.

use crate::building::{language_of, module_of, modules_of, with_all_features};
use crate::telling::{is_refusal_of_modules, number_of};
use std::alloc::Global;
use ylink_grammar::Language;
use yschema::{CompileFault, compile, compile_in};
use yschema_model::Schema;
use ytext::Module;

// Whether that is how many nodes there are, as in `3 nodes`.
fn is_count(nodes: usize, told: &str) -> Option<bool> {
    match told.split_once(' ') {
        Some((count, "nodes")) => Some(number_of(count)? as usize == nodes),
        _ => Some(false),
    }
}

// Whether modules are compiled to so many nodes, or refused so. Nothing for want of memory.
fn is_outcome(alloc: Global, made: Result<Schema, CompileFault>, told: &str) -> Option<bool> {
    match made {
        Ok(schema) => is_count(schema.nodes(), told),
        Err(fault) => is_refusal_of_modules(alloc, fault, told),
    }
}

fn is_outcome_in(
    alloc: Global,
    modules: &[Module],
    language: &Language,
    told: &str,
) -> Option<bool> {
    is_outcome(alloc, compile_in(alloc, modules, language), told)
}

/// With all features chosen.
pub(crate) fn is_wide_outcome(alloc: Global, modules: &[Module], told: &str) -> Option<bool> {
    is_outcome_in(alloc, modules, &with_all_features(alloc), told)
}

// Under the core, by either call.
fn is_outcome_in_core(alloc: Global, modules: &[Module], told: &str) -> Option<bool> {
    let is_core = is_outcome_in(alloc, modules, &Language::Core, told)?;
    Some(is_core && is_outcome(alloc, compile(alloc, modules), told)?)
}

/// `OUTCOME/OUTCOME IN THE CORE/STATEMENTS` of a module of YANG 1.1, all of whose features are chosen.
pub(crate) fn is_told(alloc: Global, row: &str) -> Option<bool> {
    let (told, row) = row.split_once('/')?;
    let (in_core, statements) = row.split_once('/')?;
    let modules = module_of(alloc, "1.1", statements)?;
    let is_wide = is_wide_outcome(alloc, &modules, told)?;
    Some(is_wide && is_outcome_in_core(alloc, &modules, in_core)?)
}

/// `OUTCOME/STATEMENTS` of a module without a version, which the core refuses.
pub(crate) fn is_told_of_yang_1(alloc: Global, row: &str) -> Option<bool> {
    let (told, statements) = row.split_once('/')?;
    let modules = module_of(alloc, "", statements)?;
    let is_wide = is_wide_outcome(alloc, &modules, told)?;
    Some(is_wide && is_outcome_in_core(alloc, &modules, "C4:1")?)
}

/// `FEATURES/OUTCOME/STATEMENTS` of a module of YANG 1.1.
pub(crate) fn is_told_where_chosen(alloc: Global, row: &str) -> Option<bool> {
    let (chosen, row) = row.split_once('/')?;
    let (told, statements) = row.split_once('/')?;
    let language = language_of(alloc, chosen).ok()?;
    let modules = module_of(alloc, "1.1", statements)?;
    is_outcome_in(alloc, &modules, &language, told)
}

/// `FEATURES/OUTCOME/MODULES`.
pub(crate) fn is_told_of_set(alloc: Global, row: &str) -> Option<bool> {
    let (chosen, row) = row.split_once('/')?;
    let (told, modules) = row.split_once('/')?;
    let language = language_of(alloc, chosen).ok()?;
    let modules = modules_of(alloc, modules)?;
    is_outcome_in(alloc, &modules, &language, told)
}
