//! What faults have in common that are the same.

ghost use Rattle.std.specs.Prelude.{◌≡◌, IfOk};
ghost use Rattle.yinst_tree.specs.View as document_view;
ghost use Rattle.ycheck.specs.View as fault_view;
ghost use Rattle.yapp_difference.specs.Keys as spec;
ghost use Rattle.yapp_difference.specs.KeyView.{info_view, key_view, step_view, steps_view};

use std::alloc::{AllocError, Global};
use ycheck::{Fault, Info};
use yinst::Step;
use yschema_model::SchemaId;

/// A step to the node of a fault.
#[derive(Clone, Copy, Debug, PartialEq, Eq, Hash)]
pub struct KeyStep {
    pub id: SchemaId,
    pub position: Option<usize>,
}

/// What a fault says besides its place.
#[derive(Debug, PartialEq, Eq, Hash, Drop)]
pub enum KeyInfo {
    None,
    Choice(String),
    Unique(usize),
}

/// The number of the code of a fault, the steps to its node, and what it says besides.
#[derive(Debug, PartialEq, Eq, Hash, Drop)]
pub struct Key {
    pub code: u8,
    pub steps: Vec<KeyStep>,
    pub info: KeyInfo,
}

pub(crate) fn key_of(alloc: Global, fault: &Fault) -> Result<Key, AllocError>
    ensures { IfOk result (λ key. key_view key ≡ spec.key_of (fault_view.view fault.now)) }
{
    let steps = key_steps(alloc, fault.steps.as_slice())?;
    key_with(fault, steps)
}

/// The key of a fault with other steps.
pub(crate) fn key_with(fault: &Fault, steps: Vec<KeyStep>) -> Result<Key, AllocError>
    ensures { IfOk result (λ key. key_view key
        ≡ spec.key_with (steps_view steps.items) (fault_view.view fault.now)) }
{
    Ok(Key {
        code: fault.code.number(),
        steps,
        info: key_info(&fault.info)?,
    })
}

pub(crate) fn key_steps(alloc: Global, steps: &[Step]) -> Result<Vec<KeyStep>, AllocError>
    ensures { IfOk result (λ copy. steps_view copy.items ≡ document_view.place_view steps.now) }
{
    let mut copy = Vec::with_capacity(alloc, steps.len())?;
    for step in steps {
        let made = key_step(step);
        copy.push(made)?;
    }
    Ok(copy)
}

fn key_step(step: &Step) -> KeyStep
    ensures { step_view result ≡ document_view.step_view step.now }
{
    KeyStep {
        id: step.id,
        position: step.position,
    }
}

fn key_info(info: &Info) -> Result<KeyInfo, AllocError>
    ensures { IfOk result (λ copy. info_view copy ≡ fault_view.info_view info.now) }
{
    Ok(match info {
        Info::None => KeyInfo::None,
        Info::Choice(name) => KeyInfo::Choice(name.clone()?),
        Info::Unique(number) => KeyInfo::Unique(*number),
    })
}
