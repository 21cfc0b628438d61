//! What is said of lines of modules, worked out.

ghost use Rattle.std.specs.Prelude.{◌≡◌, [], codes};
ghost use Rattle.ysay_circles.specs.Samples.{circle_in, circle_of_two, condition_in, definitions, features, here, operations, place_in, there};

/// Definitions that lead back to themselves.
pub fn leading_back()
    ensures of_two { circle_in 3 definitions ≡ codes "grouping a uses b (line 3), which uses a (line 5)." }
    ensures from_the_other { circle_in 5 definitions ≡ codes "grouping b uses a (line 5), which uses b (line 3)." }
    ensures onto_one { circle_in 6 definitions ≡ [] }
    ensures itself { circle_in 9 definitions ≡ codes "grouping d uses d (line 9)." }
    ensures identities { circle_in 10 definitions ≡ codes "identity i is based on i (line 10)." }
    ensures typedefs { circle_in 11 definitions ≡ codes "typedef t names u (line 11), which names t (line 12)." }
{}

/// Modules that import each other.
pub fn imports_back()
    ensures back { circle_of_two 3 here there ≡ codes "module m imports n (line 3), which imports m (line 2)." }
    ensures elsewhere { circle_of_two 2 here there ≡ [] }
    ensures alone { circle_in 3 here ≡ [] }
{}

/// Conditions of features.
pub fn conditions_of_lines()
    ensures near { condition_in 8 features ≡ codes "no feature is called shs; near it: ssh." }
    ensures far { condition_in 9 features ≡ codes "no feature is called m:quic." }
    ensures of_no_import { condition_in 10 features ≡ [] }
    ensures back { condition_in 5 features ≡ codes "feature log asks for ssh (line 5), which asks for log (line 3)." }
    ensures elsewhere { condition_in 7 features ≡ [] }
{}

/// Actions and notifications.
pub fn standings()
    ensures below_a_list { place_in 4 operations
        ≡ codes "action reset (line 4) stands below list bare (line 2), which has no key." }
    ensures below_another { place_in 6 operations
        ≡ codes "notification n (line 6) stands below list bare (line 2), which has no key." }
    ensures in_a_grouping { place_in 7 operations ≡ [] }
    ensures below_an_action { place_in 9 operations ≡ codes "notification b (line 9) stands below action a (line 9)." }
{}
