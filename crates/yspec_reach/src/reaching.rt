//! What edits may read, worked out.

ghost use Rattle.std.specs.Prelude.{◌≡◌, [], ◌∷◌, codes, Some};
ghost use Rattle.yspec_reach.specs.ReachSamples.{reaches_under, module_h, module_k, module_e, module_p, module_d, module_c, module_r, entries};

/// A leaf with a default, and items that refer to it: 64 for each part, pair, schema node, and for one more. A default that
/// is in use in neither tree has no part in it.
pub fn values()
    ensures unused_default { reaches_under module_h (codes "{\"h:x\":7,\"h:r\":[5,5,5,5]}")
        (codes "replace /h:x 8" ∷ codes "remove /h:x" ∷ codes "replace /h:x 5" ∷ [])
        ≡ Some 320 ∷ Some 512 ∷ Some 576 ∷ [] }
    ensures old_and_new { reaches_under module_h (codes "{\"h:x\":7,\"h:r\":[5,7,7,9]}")
        (codes "replace /h:x 8" ∷ codes "replace /h:x 7" ∷ codes "replace /h:x 5" ∷ [])
        ≡ Some 448 ∷ Some 448 ∷ Some 512 ∷ [] }
    ensures used_before { reaches_under module_h (codes "{\"h:r\":[5,5,7]}")
        (codes "create /h:x 7" ∷ codes "create /h:x 5" ∷ []) ≡ Some 448 ∷ Some 384 ∷ [] }
    ensures nothing_else { reaches_under module_h (codes "{}") (codes "create /h:x 7" ∷ [])
        ≡ Some 256 ∷ [] }
{}

/// Items beside the edited one that have its value, before or after.
pub fn items()
    ensures beside { reaches_under module_h (codes "{\"h:x\":7,\"h:r\":[5,5,7]}")
        (codes "remove /h:r[1]" ∷ codes "replace /h:r[1] 5" ∷ codes "replace /h:r[1] 7" ∷ codes "create /h:r 5" ∷ codes "remove /h:r[3]" ∷ [])
        ≡ Some 320 ∷ Some 384 ∷ Some 448 ∷ Some 384 ∷ Some 256 ∷ [] }
{}

/// Defaults in a default case and in a container that is implied come and go with another node of the row.
pub fn other_defaults()
    ensures go { reaches_under module_k (codes "{\"k:want\":[3,3,4]}")
        (codes "create /k:fast [null]" ∷ codes "create /k:slow {}" ∷ codes "create /k:slow {\"rate\":4}" ∷ [])
        ≡ Some 1232 ∷ Some 1344 ∷ Some 1568 ∷ [] }
    ensures come { reaches_under module_k (codes "{\"k:fast\":[null],\"k:want\":[3,3,4]}")
        (codes "remove /k:fast" ∷ codes "replace /k:fast [null]" ∷ []) ≡ Some 1232 ∷ Some 1120 ∷ [] }
{}

/// An entry beside others with its tuples, and the entry nearest above the edited node, which is counted itself.
pub fn tuples()
    ensures below_an_entry { reaches_under module_e entries
        (codes "replace /e:e[1]/in/x \"b\"" ∷ codes "replace /e:e[1]/in/x \"a\"" ∷ codes "remove /e:e[1]/in/x" ∷ [])
        ≡ Some 1632 ∷ Some 1440 ∷ Some 1344 ∷ [] }
    ensures an_entry { reaches_under module_e entries
        (codes "remove /e:e[1]" ∷ codes "create /e:e {\"id\":2,\"in\":{\"x\":\"b\"}}" ∷ [])
        ≡ Some 3360 ∷ Some 2304 ∷ [] }
    ensures below_the_nearest { reaches_under module_e entries
        (codes "remove /e:e[1]/in/f[1]/k" ∷ codes "replace /e:e[1]/in/f[1]/k 2" ∷ codes "replace /e:e[1]/in/f[2]/k 2" ∷ [])
        ≡ Some 1152 ∷ Some 1536 ∷ Some 1344 ∷ [] }
    ensures an_entry_below_another { reaches_under module_e entries (codes "create /e:e[1]/in/f {\"k\":2}" ∷ [])
        ≡ Some 1824 ∷ [] }
{}

/// What containers weigh, and defaults in use in a part.
pub fn containers()
    ensures sizes { reaches_under module_p (codes "{\"p:c\":{\"p\":{},\"to\":[3,3,4]}}")
        (codes "remove /p:c" ∷ codes "create /p:c/d {}" ∷ []) ≡ Some 1824 ∷ Some 960 ∷ [] }
    ensures defaults_inside { reaches_under module_p (codes "{\"p:c\":{\"p\":{},\"to\":[3,3,4]}}")
        (codes "remove /p:c/p" ∷ codes "replace /p:c/p {\"z\":4}" ∷ []) ≡ Some 1248 ∷ Some 1728 ∷ [] }
    ensures defaults_outside { reaches_under module_p (codes "{\"p:c\":{\"p\":{},\"to\":[3,3,4]}}")
        (codes "create /p:c/p/z 3" ∷ codes "create /p:c/p/w \"\"" ∷ []) ≡ Some 1056 ∷ Some 864 ∷ [] }
{}

/// Levels are those of the schema, and as many as the node with the most defaults has: three of a leaf-list, whatever others have.
pub fn defaults_of_one_node()
    ensures most { reaches_under module_d (codes "{}") (codes "remove /d:x" ∷ codes "create /d:c {}" ∷ [])
        ≡ Some 560 ∷ Some 784 ∷ [] }
{}

/// A choice and its cases count among the schema nodes below a container.
pub fn choices()
    ensures in_a_container { reaches_under module_c (codes "{}")
        (codes "remove /c:a" ∷ codes "create /c:a {}" ∷ codes "create /c:a {\"z\":1}" ∷ [])
        ≡ Some 768 ∷ Some 1440 ∷ Some 1536 ∷ [] }
{}

/// What refers to a shared value counts where it stays outside the parts; in a part it is counted as part of it alone.
pub fn references_inside()
    ensures put { reaches_under module_r (codes "{\"r:to\":[5,7,9]}") (codes "create /r:a {\"x\":5,\"in\":[5,5]}" ∷ [])
        ≡ Some 768 ∷ [] }
    ensures taken { reaches_under module_r (codes "{\"r:a\":{\"x\":7,\"in\":[7]},\"r:to\":[5,7,9]}")
        (codes "replace /r:a {\"x\":5,\"in\":[5,5]}" ∷ codes "remove /r:a" ∷ [])
        ≡ Some 1152 ∷ Some 704 ∷ [] }
{}

/// A refused edit has no parts, whatever is wrong: a name, a predicate, what isn't there above it or itself, what is there
/// already, and its value.
pub fn refused()
    ensures all { reaches_under module_h (codes "{\"h:x\":7,\"h:r\":[7,7]}")
        (codes "remove /h:y" ∷ codes "remove /h:x[1]" ∷ codes "remove /h:r[3]" ∷ codes "create /h:x 7" ∷ codes "replace /h:x {" ∷ codes "replace /h:x {}" ∷ [])
        ≡ Some 192 ∷ Some 192 ∷ Some 192 ∷ Some 192 ∷ Some 192 ∷ Some 192 ∷ [] }
    ensures above { reaches_under module_k (codes "{\"k:want\":[3,3,4]}")
        (codes "create /k:slow/rate 3" ∷ codes "replace /k:slow {}" ∷ []) ≡ Some 896 ∷ Some 896 ∷ [] }
{}

/// A node that is moved is no part: what counts is the schema, and the entries with the tuples of the one nearest above it.
pub fn moves()
    ensures items { reaches_under module_h (codes "{\"h:x\":7,\"h:r\":[5,5,7]}")
        (codes "move /h:r[1] 3" ∷ codes "move /h:r[3] 3" ∷ codes "move /h:r[4] 1" ∷ []) ≡ Some 192 ∷ Some 192 ∷ Some 192 ∷ [] }
    ensures entries { reaches_under module_e entries (codes "move /e:e[1] 3" ∷ codes "move /e:e[1]/in/f[3] 1" ∷ [])
        ≡ Some 960 ∷ Some 1248 ∷ [] }
{}
