//! The walk over a schema and a document that finds the faults.

ghost use Rattle.std.specs.Prelude.{◌≡◌, ◌++◌, ◌+◌, [], ◌∷◌, length, take, ◌-◌, false, map, option_map, string_bytes, get_or, OnOk, IfOk};
ghost use Rattle.yspec.specs.Forest.{end, node};
ghost use Rattle.yspec.specs.schema.Schema.{is_many, has_value};
ghost use Rattle.yspec.specs.document.Document.{step_to};
ghost use Rattle.yspec.specs.document.Fault.{fault_with, plain_fault};
ghost use Rattle.yspec.specs.document.FaultCode.{own_app_tag};
ghost use Rattle.yspec.specs.document.Play.{exceeds};
ghost use Rattle.yspec.specs.document.Faults as document_faults;
ghost use Rattle.yspec.specs.document.Faults.{faults_of, value_faults};
ghost use Rattle.yspec.specs.document.RowFaults.{wrong_amount, absent_leaf_faults};
ghost use Rattle.yspec.specs.document.Sorting.{IsSorted};
ghost use Rattle.ytype.specs.View.{raw_of};
ghost use Rattle.yschema_model.specs.Layout.{leaf_type_view, reference_view, absence_view, amount_view, tuples_view, kind_view};
ghost use Rattle.yschema_model.specs.View as schema_view;
ghost use Rattle.yinst_tree.specs.View as document_view;
ghost use Rattle.yinst_tree.specs.Walk.{others};
ghost use Rattle.ycheck.specs.View.{code_view, info_view, views};
ghost use Rattle.ycheck.specs.Found.{Adds, given_fault};
ghost use Rattle.ycheck.specs.Walk.{times_of, lacks_instance, value_told, repetition, marks_told, entry_table, table_of, marks_at, amount_told, absent_told, position_at, instances_told, data_told, choice_told, inside_told, walked};
ghost use Rattle.ycheck.specs.declared.cases.Chosen.TheVariants as variant;

use crate::cases::{Chosen, StoredCases};
use crate::fault::{Fault, FaultCode, Info};
use crate::repeated::{repeated_items, repeated_tuples};
use crate::targets::Targets;
use std::alloc::{AllocError, Global};
use yinst_tree::{Step, Stored, Tree, instances_of};
use yschema_model::{
    Absence, Amount, Child, Children, Kind, LeafType, Reference, Schema, SchemaId, SchemaNode,
    Tuples,
};
use ytype::{BadValue, Raw, Val};

/// The faults that are found, and the steps to the node at hand.
#[derive(Drop)]
struct Findings {
    alloc: Global,
    steps: Vec<Step>,
    faults: Vec<Fault>,
}

impl Findings {
    fn enter(&mut self, step: Step) -> Result<(), AllocError>
        ensures place { OnOk result (self.new.steps.items ≡ self.old.steps.items ++ step ∷ []) }
        ensures found { self.new.faults.items ≡ self.old.faults.items }
    {
        self.steps.push(step)?;
        Ok(())
    }

    fn leave(&mut self)
        ensures place { self.new.steps.items
            ≡ take (length self.old.steps.items - 1) self.old.steps.items }
        ensures found { self.new.faults.items ≡ self.old.faults.items }
    {
        self.steps.pop();
    }

    /// Tells a fault of the node at hand, with the error-app-tag of a restriction.
    fn tell(
        &mut self,
        code: FaultCode,
        app_tag: Option<String>,
        info: Info,
    ) -> Result<(), AllocError>
        ensures { OnOk result (Adds self.old self.new
            (given_fault (code_view code) (option_map string_bytes app_tag) (info_view info)
            ∷ [])) }
    {
        let steps = Vec::from_slice(self.alloc, &self.steps)?;
        self.faults.push(Fault {
            code,
            tag: code.tag(),
            app_tag,
            steps,
            info,
        })?;
        Ok(())
    }
}

/// A copy of the error-app-tag that a code has of itself.
fn own_app_tag(alloc: Global, code: FaultCode) -> Result<Option<String>, AllocError>
    ensures { IfOk result (λ tag. option_map string_bytes tag ≡ own_app_tag (code_view code)) }
{
    match code.app_tag() {
        Some(text) => Ok(Some(String::from_str(alloc, text)?)),
        None => Ok(None),
    }
}

/// Tells a fault of the node at hand, with the error-app-tag of its code.
fn tell(code: FaultCode, info: Info, findings: &mut Findings) -> Result<(), AllocError>
    ensures { OnOk result (Adds findings.old findings.new
        (fault_with (info_view info) (code_view code) [] ∷ [])) }
{
    let app_tag = own_app_tag(findings.alloc, code)?;
    findings.tell(code, app_tag, info)
}

/// Tells a fault of a schema node below the node at hand.
fn tell_below(id: SchemaId, code: FaultCode, findings: &mut Findings) -> Result<(), AllocError>
    ensures { OnOk result (Adds findings.old findings.new
        (plain_fault (code_view code) (step_to id.0 ∷ []) ∷ [])) }
{
    findings.enter(Step { id, position: None })?;
    tell(code, Info::None, findings)?;
    findings.leave();
    Ok(())
}

/// All faults of a document whose rows stand in the order of its schema, in order of definition.
pub fn faults(alloc: Global, schema: &Schema, tree: &Tree) -> Result<Vec<Fault>, AllocError>
    ensures { let schema' = schema_view.view schema.now in
        let tree' = document_view.tree_view tree.now in
        IsSorted tree' → IfOk result (λ found. views found.items ≡ faults_of schema' tree') }
{
    let targets = Targets::of(alloc, schema, tree)?;
    let mut findings = Findings {
        alloc,
        steps: Vec::new(alloc),
        faults: Vec::new(alloc),
    };
    let nodes = tree.roots();
    check_row(
        schema,
        &targets,
        schema.roots(),
        Chosen::NoCase,
        nodes,
        &mut findings,
    )?;
    let Findings { faults, .. } = findings;
    Ok(faults)
}

/// Checks a row of schema nodes, of whose cases the chosen ones are in play, against the stored nodes that are left.
#[cycle(check)]
fn check_row(
    schema: &Schema,
    targets: &Targets,
    children: Children<'_>,
    chosen: Chosen,
    row: &[Stored],
    findings: &mut Findings,
) -> Result<(), AllocError>
    ensures { let t = document_view.row_view row.now in
        IsSorted t → OnOk result (Adds findings.old findings.new
        (walked (times_of targets.now) (schema_view.view schema.now) chosen
        (schema_view.row_view children.entry) t)) }
{
    let mut rest = row;
    for child in children {
        rest = check_child(schema, targets, child, chosen, rest, findings)?;
    }
    Ok(())
}

/// Checks a schema node against the stored nodes of its row that are left, and answers those left after it.
#[cycle(check)]
fn check_child<'a>(
    schema: &Schema,
    targets: &Targets,
    child: Child<'_>,
    chosen: Chosen,
    rest: &'a [Stored],
    findings: &mut Findings,
) -> Result<&'a [Stored], AllocError>
    ensures found { let t = document_view.row_view rest.entry.now in
        IsSorted t → OnOk result (Adds findings.old findings.new
        (walked (times_of targets.now) (schema_view.view schema.now) chosen
        (node (schema_view.label_of child.entry) (schema_view.below_of child.entry) end) t)) }
    ensures behind { IfOk result (λ behind. document_view.row_view behind.now
        ≡ others (schema_view.label_of child.entry).number
        (document_view.row_view rest.entry.now)) }
{
    let (found, behind) = instances_of(rest, child.id());
    if child.node().kind.is_data() {
        check_data(schema, targets, child, found, findings)?;
        Ok(behind)
    } else {
        check_inside(schema, targets, child, chosen, behind, findings)?;
        Ok(behind)
    }
}

/// Checks a choice or a case against the stored nodes that are left.
#[cycle(check)]
fn check_inside(
    schema: &Schema,
    targets: &Targets,
    child: Child<'_>,
    chosen: Chosen,
    rest: &[Stored],
    findings: &mut Findings,
) -> Result<(), AllocError>
    ensures { let t = document_view.row_view rest.now in let n = schema_view.label_of child.entry in
        IsSorted t → OnOk result (Adds findings.old findings.new
        (inside_told n n.kind chosen (schema_view.below_of child.entry)
        (λ d u. walked (times_of targets.now) (schema_view.view schema.now) d
        (schema_view.below_of child.entry) u) t)) }
{
    let node = child.node();
    match &node.kind {
        Kind::Choice {
            default_case,
            mandatory,
        } => {
            let stored = StoredCases::of(child.children(), rest);
            check_choice(node, *mandatory, stored, findings)?;
            let chosen = Chosen::of(*default_case, stored);
            check_row(schema, targets, child.children(), chosen, rest, findings)
        }
        Kind::Case => {
            if chosen.has(child, rest) {
                let inside = child.children();
                check_row(schema, targets, inside, Chosen::NoCase, rest, findings)
            } else {
                Ok(())
            }
        }
        _ => Ok(()),
    }
}

/// Checks how many cases of a choice have a stored node.
fn check_choice(
    node: &SchemaNode,
    mandatory: bool,
    stored: StoredCases,
    findings: &mut Findings,
) -> Result<(), AllocError>
    ensures { OnOk result (Adds findings.old findings.new
        (choice_told (string_bytes node.now.name) mandatory stored)) }
{
    match stored {
        StoredCases::Zero => {
            if mandatory {
                tell(FaultCode::V4, Info::Choice(node.name.clone()?), findings)
            } else {
                Ok(())
            }
        }
        StoredCases::One => Ok(()),
        StoredCases::Several => tell(FaultCode::V5, Info::Choice(node.name.clone()?), findings),
    }
}

/// Checks the instances of a data node.
#[cycle(check)]
fn check_data(
    schema: &Schema,
    targets: &Targets,
    child: Child<'_>,
    found: &[Stored],
    findings: &mut Findings,
) -> Result<(), AllocError>
    ensures { let t = document_view.row_view found.now in
        IsSorted t → OnOk result (Adds findings.old findings.new
        (data_told (times_of targets.now) (schema_view.view schema.now)
        (schema_view.label_of child.entry) (schema_view.label_of child.entry).kind
        (λ u. walked (times_of targets.now) (schema_view.view schema.now) variant.NoCase
        (schema_view.below_of child.entry) u) t)) }
{
    check_amount(child, found.len(), findings)?;
    if found.is_empty() {
        check_absent(schema, targets, child, findings)
    } else {
        check_found(schema, targets, child, found, findings)
    }
}

/// Checks how many instances of a node there are.
fn check_amount(child: Child<'_>, count: usize, findings: &mut Findings) -> Result<(), AllocError>
    ensures { let n = schema_view.label_of child.entry in
        OnOk result (Adds findings.old findings.new (amount_told n.number n.kind count)) }
{
    match &child.node().kind {
        Kind::LeafList { amount, .. } => tell_amount(child.id(), *amount, count, findings),
        Kind::List { amount, .. } => tell_amount(child.id(), *amount, count, findings),
        _ => Ok(()),
    }
}

fn tell_amount(
    id: SchemaId,
    amount: Amount,
    count: usize,
    findings: &mut Findings,
) -> Result<(), AllocError>
    ensures { OnOk result (Adds findings.old findings.new
        (wrong_amount id.0 (amount_view amount) count)) }
{
    if count < amount.min_elements as usize {
        tell_below(id, FaultCode::V6, findings)
    } else if exceeds(count, amount.max_elements) {
        tell_below(id, FaultCode::V7, findings)
    } else {
        Ok(())
    }
}

fn exceeds(count: usize, most: Option<u32>) -> bool
    ensures { result ≡ exceeds count most }
{
    match most {
        Some(most) => (most as usize) < count,
        None => false,
    }
}

/// Checks what is in play of a data node that isn't stored: in a container without presence all nodes.
#[cycle(check)]
fn check_absent(
    schema: &Schema,
    targets: &Targets,
    child: Child<'_>,
    findings: &mut Findings,
) -> Result<(), AllocError>
    ensures { let n = schema_view.label_of child.entry in
        OnOk result (Adds findings.old findings.new
        (absent_told n.number n.kind (walked (times_of targets.now)
        (schema_view.view schema.now) variant.NoCase (schema_view.below_of child.entry) end))) }
{
    match &child.node().kind {
        Kind::Container { presence: false } => {
            findings.enter(Step {
                id: child.id(),
                position: None,
            })?;
            let inside = child.children();
            check_row(schema, targets, inside, Chosen::NoCase, &[], findings)?;
            findings.leave();
            Ok(())
        }
        Kind::Leaf { absence, .. } => tell_absence(child.id(), absence, findings),
        _ => Ok(()),
    }
}

fn tell_absence(id: SchemaId, absence: &Absence, findings: &mut Findings) -> Result<(), AllocError>
    ensures { OnOk result (Adds findings.old findings.new
        (absent_leaf_faults id.0 (absence_view absence.now))) }
{
    match absence {
        Absence::Mandatory => tell_below(id, FaultCode::V3, findings),
        Absence::Key => tell_below(id, FaultCode::V2, findings),
        _ => Ok(()),
    }
}

/// Checks each instance of a data node, and what is stored below it.
#[cycle(check)]
fn check_found(
    schema: &Schema,
    targets: &Targets,
    child: Child<'_>,
    found: &[Stored],
    findings: &mut Findings,
) -> Result<(), AllocError>
    ensures { let t = document_view.row_view found.now in
        IsSorted t → OnOk result (Adds findings.old findings.new
        (instances_told (times_of targets.now) (schema_view.view schema.now)
        (schema_view.label_of child.entry) (schema_view.label_of child.entry).kind
        (λ u. walked (times_of targets.now) (schema_view.view schema.now) variant.NoCase
        (schema_view.below_of child.entry) u) t)) }
{
    let node = child.node();
    let repeated = repeated_in(findings.alloc, schema, node, found)?;
    for (index, stored) in found.iter().enumerate() {
        let position = position_of(node, index + 1);
        findings.enter(Step {
            id: child.id(),
            position,
        })?;
        check_value(targets, node, stored.value(), findings)?;
        tell_repeated(node, &repeated, index, findings)?;
        let below = stored.below();
        check_row(
            schema,
            targets,
            child.children(),
            Chosen::NoCase,
            below,
            findings,
        )?;
        findings.leave();
    }
    Ok(())
}

/// A position, at a node that may be stored more than once.
fn position_of(node: &SchemaNode, position: usize) -> Option<usize>
    ensures { result ≡ position_at (is_many (kind_view node.now.kind)) position }
{
    if node.kind.is_many() {
        Some(position)
    } else {
        None
    }
}

/// Checks the value of a stored node.
fn check_value(
    targets: &Targets,
    node: &SchemaNode,
    value: Option<&Raw>,
    findings: &mut Findings,
) -> Result<(), AllocError>
    ensures { OnOk result (Adds findings.old findings.new
        (value_told (times_of targets.now) (kind_view node.now.kind)
        (option_map (λ raw. raw_of raw.now) value.entry))) }
{
    match (&node.kind, value) {
        (Kind::Leaf { leaf_type, .. }, Some(raw)) => check_raw(targets, leaf_type, raw, findings),
        (Kind::LeafList { leaf_type, .. }, Some(raw)) => {
            check_raw(targets, leaf_type, raw, findings)
        }
        _ => Ok(()),
    }
}

fn check_raw(
    targets: &Targets,
    leaf_type: &LeafType,
    raw: &Raw,
    findings: &mut Findings,
) -> Result<(), AllocError>
    ensures { OnOk result (Adds findings.old findings.new
        (value_faults (times_of targets.now) (leaf_type_view leaf_type.now) (raw_of raw.now))) }
{
    match leaf_type.value_type.check(findings.alloc, raw) {
        Ok(value) => {
            if lacks_instance(targets, leaf_type, value) {
                tell(FaultCode::V11, Info::None, findings)
            } else {
                Ok(())
            }
        }
        Err(BadValue::Refused { app_tag }) => findings.tell(FaultCode::V1, app_tag, Info::None),
        Err(BadValue::Memory) => Err(AllocError),
    }
}

/// Whether a value requires an instance that isn't there.
fn lacks_instance(targets: &Targets, leaf_type: &LeafType, value: Val) -> bool
    ensures { result ≡ lacks_instance (times_of targets.now)
        (leaf_type_view leaf_type.now) value }
{
    match leaf_type.reference(value) {
        Some(reference) => is_missing(targets, &reference),
        None => false,
    }
}

/// Whether what a value refers to must be there and isn't.
fn is_missing(targets: &Targets, reference: &Reference) -> bool
    ensures { result
        ≡ document_faults.lacks_instance (times_of targets.now) (reference_view reference.now) }
{
    reference.is_required && !targets.has(reference.target, &reference.value)
}

/// Of entries, for the key and each `unique`, which of them have a tuple that another has; of items of a configuration
/// leaf-list which have the value of another. Of other nodes nothing.
fn repeated_in(
    alloc: Global,
    schema: &Schema,
    node: &SchemaNode,
    found: &[Stored],
) -> Result<Vec<Vec<bool>>, AllocError>
    ensures { IfOk result (λ table. map (λ marks. marks.items) table.items
        ≡ table_of (schema_view.view schema.now)
        (kind_view node.now.kind) node.now.distinct_items found.now) }
{
    match &node.kind {
        Kind::List { tuples, .. } => repeated_entries(alloc, schema, tuples, found),
        Kind::LeafList { leaf_type, .. } if node.distinct_items => {
            let mut table = Vec::new(alloc);
            table.push(repeated_items(alloc, &leaf_type.value_type, found)?)?;
            Ok(table)
        }
        _ => Ok(Vec::new(alloc)),
    }
}

fn repeated_entries(
    alloc: Global,
    schema: &Schema,
    tuples: &Tuples,
    found: &[Stored],
) -> Result<Vec<Vec<bool>>, AllocError>
    ensures { IfOk result (λ table. map (λ marks. marks.items) table.items
        ≡ entry_table (schema_view.view schema.now) (tuples_view tuples.now) found.now) }
{
    let mut table = Vec::new(alloc);
    table.push(repeated_tuples(alloc, schema, tuples, found, 0)?)?;
    for (index, _unique) in tuples.uniques.iter().enumerate() {
        table.push(repeated_tuples(alloc, schema, tuples, found, index + 1)?)?;
    }
    Ok(table)
}

/// Tells of an instance what another has too.
fn tell_repeated(
    node: &SchemaNode,
    repeated: &[Vec<bool>],
    index: usize,
    findings: &mut Findings,
) -> Result<(), AllocError>
    ensures { OnOk result (Adds findings.old findings.new
        (marks_told (has_value (kind_view node.now.kind)) 0
        (marks_at index (map (λ marks. marks.items) repeated.now)))) }
{
    let is_item = node.kind.has_value();
    for (which, marks) in repeated.iter().enumerate() {
        if is_marked(marks, index) {
            tell_repetition(is_item, which, findings)?;
        }
    }
    Ok(())
}

fn is_marked(marks: &[bool], index: usize) -> bool
    ensures { result ≡ get_or marks.now index false }
{
    match marks.get(index) {
        Some(mark) => *mark,
        None => false,
    }
}

/// Tells V10 of an item; of an entry V8 for the key, else V9 for a `unique`.
fn tell_repetition(is_item: bool, which: usize, findings: &mut Findings) -> Result<(), AllocError>
    ensures { OnOk result (Adds findings.old findings.new (repetition is_item which ∷ [])) }
{
    if is_item {
        tell(FaultCode::V10, Info::None, findings)
    } else if which == 0 {
        tell(FaultCode::V8, Info::None, findings)
    } else {
        tell(FaultCode::V9, Info::Unique(which), findings)
    }
}
