//! Edits of a row, beside the same edits of a vector.

use crate::Tiers;
use std::alloc::{AllocError, Global};

/// Makes an edit of both, and answers whether the same came out.
fn edit(
    tiers: &mut Tiers<u64>,
    plain: &mut Vec<u64>,
    place: usize,
    step: u64,
) -> Result<bool, AllocError> {
    if step % 4 < 3 {
        tiers.reserve()?;
        plain.reserve(1)?;
        let end = tiers.len();
        tiers.insert(place.min(end), step);
        let end = plain.len();
        let _ = plain.insert(place.min(end), step);
    } else if place < tiers.len() && place < plain.len() {
        return Ok(tiers.remove(place) == plain.remove(place));
    }
    Ok(true)
}

/// Whether both hold the same.
fn are_same(tiers: &Tiers<u64>, plain: &Vec<u64>) -> bool {
    for at in 0..plain.len() {
        if tiers.get(at) != Some(plain[at]) {
            return false;
        }
    }
    tiers.len() == plain.len() && tiers.get(plain.len()).is_none()
}

/// Makes edits at places that a generator of numbers tells, and answers whether both stay the same.
fn stays_same(alloc: Global, edits: u64) -> Result<bool, AllocError> {
    let mut tiers: Tiers<u64> = Tiers::new(alloc);
    let mut plain: Vec<u64> = Vec::new(alloc);
    let mut seed: u64 = 12345;
    for step in 0..edits {
        seed = seed
            .wrapping_mul(6364136223846793005)
            .wrapping_add(1442695040888963407);
        let place = (seed >> 52) as usize;
        if !edit(&mut tiers, &mut plain, place, step)? {
            return Ok(false);
        }
    }
    Ok(are_same(&tiers, &plain))
}

#[test]
fn edits_beside_a_vector(rt: HostRuntime) {
    for edits in [0, 1, 2, 1426, 1427, 1429, 3006, 6000, 9000] {
        let same = stays_same(rt.alloc(), edits);
        assert!(rt; same.is_ok_and(|same| same), "after {edits} edits");
    }
}

#[test]
fn halves(rt: HostRuntime) {
    let mut tiers: Tiers<u64> = Tiers::new(rt.alloc());
    for step in 0..3073u64 {
        assert!(rt; tiers.reserve().is_ok(), "room");
        if tiers.len() < 3200 {
            tiers.insert(0, 3073 - step);
        }
    }
    let point = tiers.partition_point(|x| *x < 1200);
    assert_eq!(rt; point, 1199, "those below");
}
