//! What is said of names that are taken and of imports, worked out.

ghost use Rattle.std.specs.Prelude.{◌≡◌, [], codes};
ghost use Rattle.ysay_sets.specs.Samples.{import_in, importing, names, taken_in, taken_in_two};

/// Names that are taken.
pub fn takings()
    ensures around { taken_in 4 names ≡ codes "two typedefs are called a; the other stands in line 2." }
    ensures first { taken_in 2 names ≡ [] }
    ensures of_another_kind { taken_in 5 names ≡ [] }
    ensures later { taken_in 9 names ≡ codes "two identities are called i; the other stands in line 7." }
    ensures built_in { taken_in 8 names ≡ codes "string is a built-in type." }
    ensures of_one_line { taken_in 10 names ≡ [] }
    ensures given_twice { taken_in_two 1 names ≡ codes "two modules are called m." }
    ensures given_once { taken_in 1 names ≡ [] }
{}

/// Imports that aren't met.
pub fn unmet()
    ensures near { import_in 2 importing ≡ codes "no module called acme-typs is given; near it: acme-types." }
    ensures far { import_in 3 importing ≡ codes "no module called other is given." }
    ensures revision { import_in 4 importing ≡ codes "the newest revision of acme-types is 2024-01-01." }
    ensures elsewhere { import_in 5 importing ≡ [] }
{}
