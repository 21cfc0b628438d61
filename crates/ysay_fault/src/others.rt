//! Of keys that may be missing, the first other one that is the same.

ghost use Rattle.std.specs.Prelude.{◌≡◌, IfOk};
ghost use Rattle.std.specs.Ordering.{eq_by_cmp, is_eq};
ghost use Rattle.std.specs.Map.{lookup};
ghost use Rattle.ysay_fault.specs.Others as spec;

use std::alloc::{AllocError, Global};
use std::collections::BTreeMap;

/// The positions of the first two that have a key.
#[derive(Clone, Copy, Debug)]
struct FirstTwo {
    first: usize,
    second: Option<usize>,
}

/// The first two with a key, where one more has it.
fn with_position(known: Option<FirstTwo>, position: usize) -> FirstTwo
    ensures { result ≡ spec.with_position known position }
{
    match known {
        None => FirstTwo {
            first: position,
            second: None,
        },
        Some(two) => FirstTwo {
            first: two.first,
            second: two.second.or(Some(position)),
        },
    }
}

/// The first of two but the one at a position.
fn first_but(own: usize, two: FirstTwo) -> Option<usize>
    ensures { result ≡ spec.first_but own two }
{
    if two.first == own {
        two.second
    } else {
        Some(two.first)
    }
}

/// The first two positions of each key.
fn first_positions<'k, K: Ord>(
    alloc: Global,
    keys: &'k [Option<K>],
) -> Result<BTreeMap<&'k K, FirstTwo>, AllocError>
    ensures { IfOk result (λ known. (q : K) → lookup (λ k. is_eq (K.cmp q k.now)) known.entries
        ≡ spec.first_two (eq_by_cmp K.cmp) q keys.now) }
{
    let mut known = BTreeMap::new(alloc);
    'note: for place in 0..keys.len() {
        if let Some(key) = &keys[place] {
            let two = with_position(known.get(&key).copied(), place + 1);
            known.insert(key, two)?;
        }
    }
    Ok(known)
}

/// Of each key that is there, the position of the first other one that is the same; the first position is 1.
pub(crate) fn others_of<K: Ord>(
    alloc: Global,
    keys: &[Option<K>],
) -> Result<Vec<Option<usize>>, AllocError>
    ensures { IfOk result (λ others. others.items
        ≡ spec.others_from (eq_by_cmp K.cmp) keys.now 1 keys.now) }
{
    let known = first_positions(alloc, keys)?;
    let mut others = Vec::with_capacity(alloc, keys.len())?;
    'tell: for place in 0..keys.len() {
        let other = match &keys[place] {
            Some(key) => match known.get(&key) {
                Some(two) => first_but(place + 1, *two),
                None => None,
            },
            None => None,
        };
        others.push(other)?;
    }
    Ok(others)
}
