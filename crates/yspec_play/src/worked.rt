//! A worked example of what is told of nodes that aren't stored, and of the list of faults.

ghost use Rattle.std.specs.Prelude.{◌≡◌, [], ◌∷◌, map, codes, None};
ghost use Rattle.yspec.specs.document.Document.{step_to, step_at, instances_in};
ghost use Rattle.yspec.specs.document.Fault.{choice_name, fault_with, plain_fault};
ghost use Rattle.yspec.specs.document.FaultCode.{V1, V2, V3, V4, V5, V6};
ghost use Rattle.yspec.specs.document.Faults.{faults_of};
ghost use Rattle.yspec_play.specs.Absences.{absences_in, defaults_in};
ghost use Rattle.yspec_play.specs.Merging.{absences_below, listed};
ghost use Rattle.yspec_play.specs.Worked.{schema, entry_row, keyless, bare, tree, three};

/// What is told of the rows of two entries and of the top one, and which defaults are in use in them.
pub fn worked_rows()
    ensures keyless { absences_below entry_row keyless
        ≡ (V2, 1) ∷ (V5, 2) ∷ (V3, 7) ∷ (V6, 8) ∷ (V3, 10) ∷ [] }
    ensures bare { absences_below entry_row bare ≡ (V4, 2) ∷ (V3, 10) ∷ [] }
    ensures top { absences_below schema.nodes tree ≡ (V6, 12) ∷ [] }
    ensures inner_defaults { defaults_in (instances_in bare) [] entry_row ≡ (11, three) ∷ [] }
    ensures top_defaults { defaults_in (instances_in tree) [] schema.nodes ≡ (12, three) ∷ (12, three) ∷ [] }
{}

/// The faults of the document, told by what is in play and as a list by rows.
pub fn worked_list()
    ensures listed { listed schema tree ≡ plain_fault V2 (step_at 0 1 ∷ step_to 1 ∷ [])
        ∷ fault_with (choice_name (codes "n")) V5 (step_at 0 1 ∷ [])
        ∷ plain_fault V1 (step_at 0 1 ∷ step_to 4 ∷ [])
        ∷ plain_fault V3 (step_at 0 1 ∷ step_to 6 ∷ step_to 7 ∷ [])
        ∷ plain_fault V6 (step_at 0 1 ∷ step_to 8 ∷ [])
        ∷ plain_fault V1 (step_at 0 1 ∷ step_at 8 1 ∷ [])
        ∷ plain_fault V3 (step_at 0 1 ∷ step_to 9 ∷ step_to 10 ∷ [])
        ∷ fault_with (choice_name (codes "n")) V4 (step_at 0 2 ∷ [])
        ∷ plain_fault V3 (step_at 0 2 ∷ step_to 9 ∷ step_to 10 ∷ [])
        ∷ plain_fault V6 (step_to 12 ∷ []) ∷ [] }
    ensures played { faults_of schema tree ≡ listed schema tree }
{}
