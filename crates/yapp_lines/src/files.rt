//! Files by their names.

ghost use Rattle.std.specs.Prelude.{◌≡◌, map};
ghost use Rattle.yspec_run.specs.Lines as spec;

/// The contents of the first of some files that has a name; nothing where there is none.
pub(crate) fn contents_named<'b>(name: &str, names: &[&str], contents: &'b [Vec<u8>]) -> &'b [u8]
    ensures { result.now ≡ spec.contents_named name.now (map (λ n. n.now) names.now)
        (map (λ c. c.items) contents.entry.now) }
{
    let mut rest = contents;
    for file in names {
        match rest.split_first() {
            Some((bytes, others)) => {
                if *file == name {
                    return bytes.as_slice();
                }
                rest = others;
            }
            None => return &[],
        }
    }
    &[]
}
