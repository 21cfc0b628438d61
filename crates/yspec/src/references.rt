//! What values refer to by leafrefs: laws, and worked examples of unions with leafrefs among their members.

ghost use Rattle.std.specs.Prelude.{◌≡◌, ◌+◌, ◌==◌, ◌++◌, ℕ, negsuc, pos, List, [], ◌∷◌, length, Some, None, false, true, codes, slice_get, if◌then◌else◌};
ghost use Rattle.std.specs.Option.{option_map_or};
ghost use Rattle.yspec.specs.types.Types.{Raw, text, int, bool, number_value, bool_value, Val, YangType, value, taken};
ghost use Rattle.yspec.specs.types.Restriction.{all_members, union_type};
ghost use Rattle.yspec.specs.schema.Schema.{LeafType, MemberTarget};
ghost use Rattle.yspec.specs.schema.References.{requires_instance, member_reference};
ghost use Rattle.yspec.specs.schema.ReferenceExamples.{referred, one_instance, told_of};
ghost use Rattle.yspec.specs.linking.Planned.{targets_by};
ghost use Rattle.yspec.specs.document.Fault.{plain_fault};
ghost use Rattle.yspec.specs.document.FaultCode.{V11};
ghost use Rattle.yspec.specs.document.Faults.{Times, reference_faults};

/// Of a leaf that refers to one node, as all do without leafrefs in unions, V11 is told where that has no instance with its value.
pub fn whole_leafrefs()
    ensures { (times : Times) (type : LeafType) (v : Val) → type.targets ≡ []
        → reference_faults times type v ≡ (if requires_instance type.type
        then option_map_or (λ target. if times target v == 0 then plain_fault V11 [] ∷ [] else []) type.target [] else []) }
{}

/// Where a leafref's member of a union takes what a document has, the value that is looked for is the one that its target's type
/// takes of the same (RFC 7950, 9.9 and 9.12).
pub fn values_at_targets()
    ensures { (before after : List YangType) (type : YangType) (raw : Raw) (v : Val) (i number : ℕ) (required : _) (m : MemberTarget)
        → taken (union_type (before ++ type ∷ after)) raw ≡ Some v
        → v.member ≡ Some (length (all_members before) + i)
        → slice_get (targets_by number required type.shape) i ≡ Some (Some m)
        → taken type raw ≡ Some (member_reference v m).value }
{}

/// The first member that takes a value decides, whatever instances there are.
pub fn members_by_types()
    ensures before_it { referred (int (pos 7)) ≡ None }
    ensures by_its_first { referred (int (negsuc 6)) ≡ Some (record { target = 3; value = value (Some 0) (number_value (negsuc 6)); is_required = true }) }
    ensures by_its_second { referred (bool true) ≡ Some (record { target = 3; value = value (Some 1) (bool_value true); is_required = true }) }
    ensures by_one_alone { referred (int (pos 300)) ≡ Some (record { target = 5; value = value None (number_value (pos 300)); is_required = false }) }
    ensures behind_all { referred (text (codes "x")) ≡ None }
{}

/// V11 is told where an instance is required and none has the value, by the member of the target's type that has it.
pub fn instances_of_members()
    ensures none { told_of (λ number v. 0) (int (negsuc 6)) ≡ Some (plain_fault V11 [] ∷ []) }
    ensures one { told_of (one_instance 3 (value (Some 0) (number_value (negsuc 6)))) (int (negsuc 6)) ≡ Some [] }
    ensures of_another_node { told_of (one_instance 5 (value (Some 0) (number_value (negsuc 6)))) (int (negsuc 6)) ≡ Some (plain_fault V11 [] ∷ []) }
    ensures of_another_member { told_of (one_instance 3 (value (Some 1) (number_value (negsuc 6)))) (int (negsuc 6)) ≡ Some (plain_fault V11 [] ∷ []) }
    ensures of_its_own_member { told_of (one_instance 3 (value (Some 1) (bool_value false))) (bool false) ≡ Some [] }
    ensures not_required { told_of (λ number v. 0) (int (pos 300)) ≡ Some [] }
    ensures of_no_leafref { told_of (λ number v. 0) (int (pos 7)) ≡ Some [] }
{}
