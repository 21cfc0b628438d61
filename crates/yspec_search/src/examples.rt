//! Worked examples of the search for modules.

ghost use Rattle.std.specs.Prelude.{◌≡◌, [], ◌∷◌, codes, map, None, Some, false, true};
ghost use Rattle.yspec_search.specs.Search.{file_names, files_for};
ghost use Rattle.yspec_search.specs.Samples.{augmented, augmenting, chained, data_of_p, finds, has_augmented_n, has_dated_n, has_n, imports, in_file, last, of_date, plainly, searched, types, with_data};

/// What a module imports: by names and dates alone.
pub fn wants()
    ensures none { imports (codes "prefix m;") ≡ [] }
    ensures two { imports (codes "import n { prefix n; } leaf x { type string; } import o { prefix o; revision-date 2020-01-01; }")
        ≡ plainly (codes "n") ∷ of_date (codes "o") (codes "2020-01-01") ∷ [] }
    ensures inside_another { imports (codes "container c { import n { prefix n; } }") ≡ [] }
    ensures augmented_modules { imports (codes "import n { prefix x; } import o { prefix o; } augment /y:a/x:b/c { } container c { augment /o:c; }")
        ≡ augmented (codes "n") ∷ plainly (codes "o") ∷ [] }
    ensures no_name { imports (codes "import ../n { prefix n; } import n { prefix n; revision-date ../2020; }") ≡ [] }
{}

/// Which texts have a module: of its name and revision, and with definitions alone.
pub fn meets()
    ensures by_name { map has_n (types ∷ last ∷ codes "submodule n { belongs-to m { prefix m; } }" ∷ [])
        ≡ true ∷ false ∷ false ∷ [] }
    ensures data_nodes { map has_n (with_data ∷ codes "module n { augment /m:c { leaf x { type string; } } }" ∷ codes "module n { uses g; }"
        ∷ codes "module n { grouping g { leaf x { type string; } } }" ∷ []) ≡ false ∷ false ∷ false ∷ true ∷ [] }
    ensures augmented_data { map has_augmented_n (with_data ∷ last ∷ codes "module n { uses g; identity d { base b; } }" ∷ [])
        ≡ true ∷ false ∷ true ∷ [] }
    ensures identities { map has_n (codes "module n { identity b; feature f; }" ∷ codes "module n { identity b; identity d { base b; } }" ∷ [])
        ≡ true ∷ false ∷ [] }
    ensures revisions { map has_dated_n (types ∷ codes "module n { revision 2020-01-01; revision 2019-01-01; }"
        ∷ codes "module n { revision 2020-01-01; revision 2021-01-01; }" ∷ []) ≡ false ∷ true ∷ false ∷ [] }
    ensures refused_text { map has_n (codes "module n {" ∷ codes "" ∷ []) ≡ true ∷ true ∷ [] }
{}

/// In which files a module is looked for.
pub fn files()
    ensures plain { files_for (codes "a" ∷ codes "b/c" ∷ []) (plainly (codes "n")) ≡ codes "a/n.yang" ∷ codes "b/c/n.yang" ∷ [] }
    ensures dated { file_names (of_date (codes "n") (codes "2020-01-01")) ≡ codes "n@2020-01-01.yang" ∷ codes "n.yang" ∷ [] }
    ensures by_folder { files_for (codes "a" ∷ codes "b" ∷ []) (of_date (codes "n") (codes "2020-01-01"))
        ≡ codes "a/n@2020-01-01.yang" ∷ codes "a/n.yang" ∷ codes "b/n@2020-01-01.yang" ∷ codes "b/n.yang" ∷ [] }
{}

/// What is found in two folders, and which files are asked for it.
pub fn searches()
    ensures none { searched (codes "prefix m;") (Some types ∷ []) ≡ finds [] [] }
    ensures first_folder { searched (codes "import n { prefix n; }") (Some types ∷ Some types ∷ [])
        ≡ finds (in_file (codes "a/n.yang") types ∷ []) (codes "a/n.yang" ∷ []) }
    ensures second_folder { searched (codes "import n { prefix n; }") (None ∷ Some types ∷ [])
        ≡ finds (in_file (codes "b/n.yang") types ∷ []) (codes "a/n.yang" ∷ codes "b/n.yang" ∷ []) }
    ensures passed_over { searched (codes "import n { prefix n; }") (Some with_data ∷ Some types ∷ [])
        ≡ finds (in_file (codes "b/n.yang") types ∷ []) (codes "a/n.yang" ∷ codes "b/n.yang" ∷ []) }
    ensures nowhere { searched (codes "import n { prefix n; } import o { prefix o; }") (None ∷ None ∷ Some last ∷ None ∷ Some types ∷ [])
        ≡ finds (in_file (codes "a/o.yang") last ∷ in_file (codes "b/n.yang") types ∷ [])
        (codes "a/n.yang" ∷ codes "b/n.yang" ∷ codes "a/o.yang" ∷ codes "a/n.yang" ∷ codes "b/n.yang" ∷ []) }
    ensures augmented_later { searched (codes "import n { prefix n; } import o { prefix o; } augment /o:c;")
        (Some chained ∷ Some augmenting ∷ None ∷ Some data_of_p ∷ [])
        ≡ finds (in_file (codes "a/n.yang") chained ∷ in_file (codes "a/o.yang") augmenting ∷ in_file (codes "b/p.yang") data_of_p ∷ [])
        (codes "a/n.yang" ∷ codes "a/o.yang" ∷ codes "a/p.yang" ∷ codes "b/p.yang" ∷ []) }
    ensures named { searched (codes "import m { prefix n; }") (Some types ∷ []) ≡ finds [] [] }
    ensures chain { searched (codes "import n { prefix n; }") (Some chained ∷ Some last ∷ [])
        ≡ finds (in_file (codes "a/n.yang") chained ∷ in_file (codes "a/o.yang") last ∷ []) (codes "a/n.yang" ∷ codes "a/o.yang" ∷ []) }
    ensures refused { searched (codes "import n { prefix n; } import o { prefix o; }") (Some (codes "module") ∷ Some last ∷ [])
        ≡ finds (in_file (codes "a/n.yang") (codes "module") ∷ []) (codes "a/n.yang" ∷ []) }
    ensures refused_at_once { searched (codes "import n { prefix n; } }") (Some types ∷ []) ≡ finds [] [] }
    ensures in_order { searched (codes "import n { prefix n; } import p { prefix p; }") (Some chained ∷ None ∷ None ∷ Some last ∷ [])
        ≡ finds (in_file (codes "a/n.yang") chained ∷ in_file (codes "a/o.yang") last ∷ [])
        (codes "a/n.yang" ∷ codes "a/p.yang" ∷ codes "b/p.yang" ∷ codes "a/o.yang" ∷ []) }
{}
