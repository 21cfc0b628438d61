//! Names of nodes, each once, in their order.

ghost use Rattle.std.specs.Prelude.{◌≡◌, ◌<◌, ◌^◌, ℕ, Some, true, false, length, map, IfOk, OnOk};
ghost use Rattle.std.specs.Ordering.{is_lt};
ghost use Rattle.yspec.specs.text.Text.{Text};
ghost use Rattle.ybase_index.specs.Names.{ascends, number_among, text_in, AreNamesOf};
ghost use Rattle.ybase_index.specs.Sorted.{compared, AreBelow, AreOwn, Ascend, HaveAll, Stands};

use std::alloc::{AllocError, Global};

/// The names of nodes, as numbers: a name has that of the first node that has it.
#[derive(Debug, Drop)]
pub struct Names {
    /// The number of each name, in the order of the names.
    pub ordered: Vec<u32>,
    /// The number of each node's name, in the order of the nodes.
    pub of_nodes: Vec<u32>,
}

/// The number of a name that comes no earlier than the last one: that of the last where it is the same, else its own.
fn number_in_turn<'t>(
    ordered: &mut Vec<u32>,
    last: (&'t str, u32),
    text: &'t str,
    node: u32,
) -> Result<u32, AllocError>
    ensures stands { (text_at : ℕ → Text) → Stands text_at ordered.old.items last.entry
        → is_lt (compared text.now last.entry.0.now) ≡ false → text_at node ≡ text.now
        → IfOk result (λ number. Stands text_at ordered.new.items (text.entry, number)) }
    ensures kept { (text_at : ℕ → Text) → (t : Text) → (number : ℕ)
        → number_among text_at ordered.old.items t ≡ Some number
        → OnOk result (number_among text_at ordered.new.items t ≡ Some number) }
{
    if last.0 == text {
        return Ok(last.1);
    }
    ordered.push(node)?;
    Ok(node)
}

/// What has a name.
pub trait Named {
    /// The name.
    ghost text: { Self → Text };

    /// Its name.
    fn name(&self) -> &str
        ensures { result.now ≡ text self.now };
}

impl<'t> Named for &'t str {
    ghost text = { λ t. t.now };

    fn name(&self) -> &str {
        self
    }
}

/// The name of what has a number; no text where nothing has.
fn name_at<'a, T: Named>(named: &'a [T], number: u32) -> &'a str
    ensures { result.now ≡ text_in (map T.text named.now) number }
{
    match named.get(number as usize) {
        Some(one) => one.name(),
        None => "",
    }
}

/// The texts with their numbers, in the order of the texts.
fn sorted_names<'a, 't>(
    alloc: Global,
    texts: &'a [&'t str],
) -> Result<Vec<(&'a str, u32)>, AllocError>
    requires { length texts.now < 2 ^ 32 }
    ensures own { IfOk result (λ names. AreOwn (text_in (map (λ t. t.now) texts.now)) names.items) }
    ensures below { IfOk result (λ names. AreBelow (length texts.now) names.items) }
    ensures whole { IfOk result (λ names. HaveAll (length texts.now) names.items) }
    ensures ascend { IfOk result (λ names. Ascend names.items) }
{
    let mut names = Vec::with_capacity(alloc, texts.len())?;
    for node in 0..texts.len() {
        let text = name_at(texts, node as u32);
        names.push((text, node as u32))?;
    }
    names.sort()?;
    Ok(names)
}

/// The names of nodes that have these texts, by number.
pub(crate) fn names_of<'a, 't>(alloc: Global, texts: &'a [&'t str]) -> Result<Names, AllocError>
    requires { length texts.now < 2 ^ 32 }
    ensures { IfOk result (λ names. AreNamesOf names (map (λ t. t.now) texts.now)) }
{
    let sorted = sorted_names(alloc, texts)?;
    let mut of_nodes = Vec::with_capacity(alloc, texts.len())?;
    of_nodes.resize(texts.len(), 0)?;
    let mut ordered = Vec::new(alloc);
    if sorted.is_empty() {
        return Ok(Names { ordered, of_nodes });
    }
    let mut last = sorted[0];
    ordered.push(last.1)?;
    for at in 0..sorted.len() {
        let (text, node) = sorted[at];
        let number = number_in_turn(&mut ordered, last, text, node)?;
        of_nodes[node as usize] = number;
        last = (text, number);
    }
    Ok(Names { ordered, of_nodes })
}

/// The number of what has a name, of some whose names ascend.
pub fn number_named<T: Named>(named: &[T], ordered: &[u32], name: &str) -> Option<u32>
    ensures { ascends (text_in (map T.text named.now)) ordered.now ≡ true
        → result ≡ number_among (text_in (map T.text named.now)) ordered.now name.now }
{
    match ordered.binary_search_by(|number| name_at(named, *number).cmp(name)) {
        Ok(place) => Some(ordered[place]),
        Err(_) => None,
    }
}
