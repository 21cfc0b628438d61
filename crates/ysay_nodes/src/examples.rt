//! What is said of nodes, worked out.

ghost use Rattle.std.specs.Prelude.{◌≡◌, [], codes};
ghost use Rattle.ysay_nodes.specs.Samples.{additions, config_in, names, needed_in, states, twice_in};

/// Nodes of one name.
pub fn doublings()
    ensures through_a_case { twice_in 4 names ≡ codes "two nodes are called mtu; the other stands in line 2." }
    ensures like_a_choice { twice_in 5 names ≡ codes "two nodes are called way; the other stands in line 3." }
    ensures cases { twice_in 6 names ≡ codes "two cases are called slow; the other stands in line 5." }
    ensures of_another_kind { twice_in 9 names ≡ codes "two nodes are called c; the other stands in line 8." }
    ensures elsewhere { twice_in 1 names ≡ [] }
{}

/// Nodes that must be there.
pub fn needs()
    ensures counted { needed_in 2 additions ≡ codes "y (line 7) has min-elements 2." }
    ensures flagged { needed_in 11 additions ≡ codes "policy (line 13) is mandatory." }
    ensures elsewhere { needed_in 3 additions ≡ [] }
{}

/// Configuration where it can't stand.
pub fn standings()
    ensures below_state { config_in 5 states
        ≡ codes "config true (line 6) stands below config false of stats (line 3)." }
    ensures keyless { config_in 9 states ≡ codes "the list bare is configuration and has no key." }
    ensures of_state { config_in 4 states ≡ [] }
    ensures state_itself { config_in 12 states ≡ [] }
    ensures at_the_top { config_in 13 states ≡ [] }
{}
