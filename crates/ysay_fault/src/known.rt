//! The fellows that faults tell of, each row gone through once.

ghost use Rattle.std.specs.Prelude.{◌≡◌, ◌<◌, ◌-◌, IfOk, IfSome, OnOk, map, option_and_then, option_map, slice_get, true};
ghost use Rattle.yspec.specs.document.Document as document_spec;
ghost use Rattle.yspec.specs.document.Document.{step_at};
ghost use Rattle.yspec.specs.document.Instances.{tuple, value_of};
ghost use Rattle.yspec.specs.schema.Schema as schema_spec;
ghost use Rattle.yschema_model.specs.View as schema_view;
ghost use Rattle.yinst_tree.specs.View as document_view;
ghost use Rattle.ycheck.specs.View as fault_view;
ghost use Rattle.ysay_fault.specs.FoundFellows as spec;
ghost use Rattle.ysay_place.specs.Places as places;

use crate::explanation::unique_in;
use crate::fellows::{entry_tuple, fellow_entry, fellow_item};
use crate::others::others_of;
use std::alloc::{AllocError, Global};
use std::collections::BTreeMap;
use ycheck::{Fault, FaultCode, Info, value_of};
use yinst_tree::{Step, Stored, Tree};
use ysay_place::row_at;
use yschema_model::{Schema, SchemaId};
use ytype::Val;

// ---- of one row

/// The tuples of a number of the instances of a schema node in a row.
fn tuples_in(
    alloc: Global,
    schema: &Schema,
    row: &[Stored],
    id: SchemaId,
    number: usize,
) -> Result<Vec<Option<Vec<Val>>>, AllocError>
    ensures { let s = schema_view.view schema.now in
        IfOk result (λ tuples. map (option_map (λ vs. vs.items)) tuples.items
        ≡ spec.each_in id.0 (λ r below. tuple s r below number) (document_view.row_view row.now)) }
{
    let mut tuples = Vec::new(alloc);
    for stored in row {
        if stored.id().0 == id.0 {
            tuples.push(entry_tuple(alloc, schema, stored, number)?)?;
        }
    }
    Ok(tuples)
}

/// The values of the instances of a schema node in a row.
fn values_in(
    alloc: Global,
    schema: &Schema,
    row: &[Stored],
    id: SchemaId,
) -> Result<Vec<Option<Val>>, AllocError>
    ensures { let s = schema_view.view schema.now in
        IfOk result (λ values. values.items
        ≡ spec.each_in id.0 (λ r below. value_of s r) (document_view.row_view row.now)) }
{
    let mut values = Vec::new(alloc);
    for stored in row {
        if stored.id().0 == id.0 {
            values.push(value_of(alloc, schema, stored)?)?;
        }
    }
    Ok(values)
}

/// The fellow of each instance of a schema node in a row: by its tuple of a number, or by its value.
fn fellows_in(
    alloc: Global,
    schema: &Schema,
    row: &[Stored],
    id: SchemaId,
    by: Option<usize>,
) -> Result<Vec<Option<usize>>, AllocError>
    ensures { let s = schema_view.view schema.now in
        IfOk result (λ fellows. fellows.items
        ≡ spec.fellows_in s by id.0 (document_view.row_view row.now)) }
{
    match by {
        Some(number) => others_of(alloc, &tuples_in(alloc, schema, row, id, number)?),
        None => others_of(alloc, &values_in(alloc, schema, row, id)?),
    }
}

/// The fellow of the entry or item to which a step leads from a row.
fn fellow_by_that(
    alloc: Global,
    schema: &Schema,
    row: &[Stored],
    step: &Step,
    by: Option<usize>,
) -> Result<Option<usize>, AllocError>
    ensures { IfOk result (λ fellow. fellow
        ≡ spec.fellow_by_that (schema_view.view schema.now) by (document_view.row_view row.now)
        (document_view.step_view step.now)) }
{
    match by {
        Some(number) => fellow_entry(alloc, schema, number, row, step),
        None => fellow_item(alloc, schema, row, step),
    }
}

/// The fellow at a position, from 1.
fn fellow_in(fellows: &[Option<usize>], position: usize) -> Option<usize>
    ensures { result ≡ option_and_then (λ fellow. fellow) (slice_get fellows.now (position - 1)) }
{
    match fellows.get(position.saturating_sub(1)) {
        Some(fellow) => *fellow,
        None => None,
    }
}

// ---- of the rows of a document

/// The fellows of the instances of a schema node in the row below a place.
#[derive(Debug, Drop)]
struct KnownRow {
    above: Vec<Step>,
    id: SchemaId,
    by: Option<usize>,
    fellows: Vec<Option<usize>>,
}

impl KnownRow {
    fn is_of(&self, above: &[Step], id: SchemaId, by: Option<usize>) -> bool
        ensures above { result ≡ true → self.now.above.items ≡ above.now }
        ensures id { result ≡ true → self.now.id.0 ≡ id.0 }
        ensures by { result ≡ true → self.now.by ≡ by }
    {
        self.id.0 == id.0 && self.by == by && self.above.as_slice() == above
    }
}

/// The rows of which the fellows are known, and where each stands among them.
#[derive(Debug, Drop)]
struct KnownRows {
    rows: Vec<KnownRow>,
    places: BTreeMap<Vec<usize>, usize>,
}

/// Numbers by which a row is found again.
fn numbers_of(
    alloc: Global,
    above: &[Step],
    id: SchemaId,
    by: Option<usize>,
) -> Result<Vec<usize>, AllocError> {
    let mut numbers = Vec::new(alloc);
    numbers.push(id.0 as usize)?;
    numbers.push(by.unwrap_or(usize::MAX))?;
    for step in above {
        numbers.push(step.id.0 as usize)?;
        numbers.push(step.position.unwrap_or(0))?;
    }
    Ok(numbers)
}

impl KnownRows {
    /// The fellows of the instances of a schema node below a place, where they are known.
    fn known<'a>(
        &'a self,
        numbers: &Vec<usize>,
        above: &[Step],
        id: SchemaId,
        by: Option<usize>,
    ) -> Option<&'a [Option<usize>]>
        ensures { (s : schema_spec.Schema) → (t : document_spec.Tree) → spec.AreRight s t self.entry.now
            → IfSome result (λ fellows. fellows.now ≡ spec.fellows_in s by id.0
            (places.row_at t (document_view.place_view above.now))) }
    {
        let place = self.places.get(numbers)?;
        let row = self.rows.get(*place)?;
        if row.is_of(above, id, by) {
            Some(&row.fellows)
        } else {
            None
        }
    }

    /// The fellow of the instance at a position of a schema node below a place.
    fn fellow_of_instance(
        &mut self,
        alloc: Global,
        schema: &Schema,
        tree: &Tree,
        above: &[Step],
        step: &Step,
        by: Option<usize>,
        position: usize,
    ) -> Result<Option<usize>, AllocError>
        requires { 0 < position }
        ensures fellow { let s = schema_view.view schema.now in let t = document_view.tree_view tree.now in
            spec.AreRight s t self.old → IfOk result (λ fellow. fellow
            ≡ spec.fellow_by_that s by (places.row_at t (document_view.place_view above.now))
            (step_at step.now.id.0 position)) }
        ensures kept { let s = schema_view.view schema.now in let t = document_view.tree_view tree.now in
            spec.AreRight s t self.old → OnOk result (spec.AreRight s t self.new) }
    {
        let numbers = numbers_of(alloc, above, step.id, by)?;
        if let Some(fellows) = self.known(&numbers, above, step.id, by) {
            return Ok(fellow_in(fellows, position));
        }
        let fellows = fellows_in(alloc, schema, row_at(tree, above), step.id, by)?;
        let fellow = fellow_in(&fellows, position);
        self.places.insert(numbers, self.rows.len())?;
        self.rows.push(KnownRow {
            above: Vec::from_slice(alloc, above)?,
            id: step.id,
            by,
            fellows,
        })?;
        Ok(fellow)
    }

    /// The fellow of the entry or item to which a step leads from the row below a place.
    fn fellow_to_step(
        &mut self,
        alloc: Global,
        schema: &Schema,
        tree: &Tree,
        above: &[Step],
        step: &Step,
        by: Option<usize>,
    ) -> Result<Option<usize>, AllocError>
        ensures fellow { let s = schema_view.view schema.now in let t = document_view.tree_view tree.now in
            spec.AreRight s t self.old → IfOk result (λ fellow. fellow
            ≡ spec.fellow_by_that s by (places.row_at t (document_view.place_view above.now))
            (document_view.step_view step.now)) }
        ensures kept { let s = schema_view.view schema.now in let t = document_view.tree_view tree.now in
            spec.AreRight s t self.old → OnOk result (spec.AreRight s t self.new) }
    {
        match step.position {
            Some(position) if position > 0 => {
                self.fellow_of_instance(alloc, schema, tree, above, step, by, position)
            }
            _ => fellow_by_that(alloc, schema, row_at(tree, above), step, by),
        }
    }

    /// The fellow that a fault tells of.
    fn fellow_told(
        &mut self,
        alloc: Global,
        schema: &Schema,
        tree: &Tree,
        fault: &Fault,
    ) -> Result<Option<usize>, AllocError>
        ensures fellow { let s = schema_view.view schema.now in let t = document_view.tree_view tree.now in
            spec.AreRight s t self.old → IfOk result (λ fellow. fellow
            ≡ spec.fellow_of s t (fault_view.view fault.now)) }
        ensures kept { let s = schema_view.view schema.now in let t = document_view.tree_view tree.now in
            spec.AreRight s t self.old → OnOk result (spec.AreRight s t self.new) }
    {
        let Some(by) = fellow_asked(fault.code, &fault.info) else {
            return Ok(None);
        };
        match fault.steps.split_last() {
            Some((step, above)) => self.fellow_to_step(alloc, schema, tree, above, step, by),
            None => Ok(None),
        }
    }
}

// ---- of faults

/// Whether a fault tells of a fellow, and by what: its tuple of a number, or its value.
fn fellow_asked(code: FaultCode, info: &Info) -> Option<Option<usize>>
    ensures { result ≡ spec.fellow_asked (fault_view.code_view code) (fault_view.info_view info.now) }
{
    match code {
        FaultCode::V8 => Some(Some(0)),
        FaultCode::V9 => Some(Some(unique_in(info))),
        FaultCode::V10 => Some(None),
        _ => None,
    }
}

/// The position of the other entry or item of which a fault tells.
pub fn fellow_of(
    alloc: Global,
    schema: &Schema,
    tree: &Tree,
    fault: &Fault,
) -> Result<Option<usize>, AllocError>
    ensures { IfOk result (λ fellow. fellow
        ≡ spec.fellow_of (schema_view.view schema.now) (document_view.tree_view tree.now)
        (fault_view.view fault.now)) }
{
    let Some(by) = fellow_asked(fault.code, &fault.info) else {
        return Ok(None);
    };
    match fault.steps.split_last() {
        Some((step, above)) => fellow_by_that(alloc, schema, row_at(tree, above), step, by),
        None => Ok(None),
    }
}

/// The positions of the other entries and items of which faults tell.
pub fn fellows_of(
    alloc: Global,
    schema: &Schema,
    tree: &Tree,
    faults: &[Fault],
) -> Result<Vec<Option<usize>>, AllocError>
    ensures { let s = schema_view.view schema.now in let t = document_view.tree_view tree.now in
        IfOk result (λ fellows. fellows.items
        ≡ map (spec.fellow_of s t) (fault_view.views faults.now)) }
{
    let mut known = KnownRows {
        rows: Vec::new(alloc),
        places: BTreeMap::new(alloc),
    };
    let mut fellows = Vec::with_capacity(alloc, faults.len())?;
    for fault in faults {
        fellows.push(known.fellow_told(alloc, schema, tree, fault)?)?;
    }
    Ok(fellows)
}
