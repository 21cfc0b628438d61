//! That a bound on steps is no bound on what is meant: with more steps nothing else is found.

ghost use Rattle.std.specs.Prelude.{◌≡◌, ◌+◌, ℕ, suc, List, [], option_map};
ghost use Rattle.std.specs.List.{Contains};
ghost use Rattle.yspec.specs.Forest.{Forest, size};
ghost use Rattle.yspec.specs.text.Statement.{Statement};
ghost use Rattle.yspec.specs.types.Types.{type_in};
ghost use Rattle.yspec.specs.linking.Source.{Source, sources_of};
ghost use Rattle.yspec.specs.linking.Circles.{definition_circles};
ghost use Rattle.yspec.specs.linking.DerivedTypes.{known_within};
ghost use Rattle.yspec.specs.linking.Identities.{module_name};
ghost use Rattle.yspec.specs.linking.Planned.{Planned, nodes_of, type_of, type_within};
ghost use Rattle.yspec.specs.linking.Compiling.{plan_of};

/// Where no definition refers to itself, a typedef means by way of as many others as there are statements what it means by way
/// of more.
pub fn typedefs_known()
    ensures { (statements : Forest Statement) (more number : ℕ) → let modules = sources_of statements in
        definition_circles modules ≡ [] → known_within modules (size modules + more) number
        ≡ known_within modules (size modules) number }
{}

/// However many leafrefs more than there are nodes are followed from a node that is planned, what is found is its type, once
/// it is put into the node's module.
pub fn types_known()
    ensures { (modules : Forest Source) (more : ℕ) (p : Planned) → let plan = plan_of modules in
        Contains (nodes_of plan) p
        → option_map (type_in (module_name plan.modules p.part.owner))
        (type_within plan (suc (size plan.nodes) + more) p) ≡ type_of plan p }
{}
