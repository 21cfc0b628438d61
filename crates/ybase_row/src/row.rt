//! Rows as balanced trees.

ghost use Rattle.std.specs.Prelude.{◌≡◌, ◌<◌, [], ◌∷◌, ◌++◌, length, IfOk, IfSome, eqb, slice_get, option_copied};

use std::alloc::{AllocError, Global};
use std::marker::Model;
use std::rc::Rc;

/// Things in order. Copies share them, and a row that is made of others shares those.
#[cycle(row)]
#[derive(Debug, Drop)]
pub struct Row<T> {
    parts: Parts<T>,
}

#[cycle(row)]
#[derive(Debug, Drop)]
enum Parts<T> {
    Empty,
    One(Rc<T>),
    Two(Rc<Pair<T>>),
}

// Two rows that have things, with how many they have.
#[cycle(row)]
#[derive(Debug, Drop)]
struct Pair<T> {
    len: usize,
    front: Row<T>,
    back: Row<T>,
}

impl<T> Model for Row<T> {
    ghost use Rattle.std.specs.Prelude.{List, length};

    ghost Value = { List T };

    ghost use Rattle.ybase_row.specs.Items.{items, IsCounted};

    ghost view = { λ r. items r.parts };

    ghost invariant = { λ r. IsCounted r.parts };

    ghost size = { length };

    ghost use Rattle.std.proofs.Common.{arith, length-append};

    ghost size_decreases = { λ a h. Prim.grind (arith, length-append) };
}

impl<T: Drop> Clone for Row<T> {
    ghost use Rattle.std.specs.Prelude.{◌≡◌};

    ghost is_clone = { λ row copy. copy ≡ row };

    fn clone(&self) -> Result<Row<T>, AllocError>
        ensures { IfOk result (λ copy. copy ≡ self.now) }
    {
        let parts = match &self.parts {
            Parts::Empty => Parts::Empty,
            Parts::One(thing) => Parts::One(thing.clone()?),
            Parts::Two(pair) => Parts::Two(pair.clone()?),
        };
        Ok(Row { parts })
    }
}

impl<T: Drop> Row<T> {
    /// The row of nothing.
    pub fn new() -> Row<T>
        ensures { result ≡ [] }
    {
        Row {
            parts: Parts::Empty,
        }
    }

    /// The row of one thing, which it shares.
    pub fn one(thing: Rc<T>) -> Row<T>
        ensures { result ≡ thing.value ∷ [] }
    {
        Row {
            parts: Parts::One(thing),
        }
    }

    /// How many things there are.
    pub fn len(&self) -> usize
        ensures { result ≡ length self.now }
    {
        match &self.parts {
            Parts::Empty => 0,
            Parts::One(_) => 1,
            Parts::Two(pair) => pair.len,
        }
    }

    /// Whether there is nothing.
    pub fn is_empty(&self) -> bool
        ensures { result ≡ eqb (length self.now) 0 }
    {
        self.len() == 0
    }

    /// The thing behind so many others, in as many steps as the logarithm of how many there are.
    pub fn get(&self, index: usize) -> Option<&T>
        ensures { option_copied result ≡ slice_get self.now index }
    {
        match &self.parts {
            Parts::Empty => None,
            Parts::One(thing) => { if index == 0 { Some(thing) } else { None } }
            Parts::Two(pair) => {
                if index < pair.front.len() {
                    pair.front.get(index)
                } else {
                    pair.back.get(index - pair.front.len())
                }
            }
        }
    }

    /// The things of two rows, those of the first in front, in as many steps as the logarithm of how many there are.
    pub fn joined(alloc: Global, front: &Row<T>, back: &Row<T>) -> Result<Row<T>, AllocError>
        ensures { IfOk result (λ row. row ≡ front.now ++ back.now) }
    {
        if let Some((first, middle)) = front.halves_over(2, back) {
            let rest = Row::joined(alloc, middle, back)?;
            return Row::with_more_behind(alloc, first, rest);
        }
        if let Some((middle, last)) = back.halves_over(2, front) {
            let start = Row::joined(alloc, front, middle)?;
            return Row::with_more_in_front(alloc, start, last);
        }
        Row::pair(alloc, front.clone()?, back.clone()?)
    }

    /// The two rows that it is made of, where it has more than so many times as many things as another.
    fn halves_over(&self, times: usize, other: &Row<T>) -> Option<(&Row<T>, &Row<T>)>
        requires { 0 < times }
        ensures whole { IfSome result (λ h. h.0.now ++ h.1.now ≡ self.now) }
        ensures shorter { IfSome result (λ h. (length h.0.now < length self.now) × (length h.1.now < length self.now)) }
    {
        match &self.parts {
            Parts::Two(pair) => {
                if pair.len / times > other.len() {
                    Some((&pair.front, &pair.back))
                } else {
                    None
                }
            }
            _ => None,
        }
    }

    /// The row of two, as they are.
    fn pair(alloc: Global, front: Row<T>, back: Row<T>) -> Result<Row<T>, AllocError>
        ensures { IfOk result (λ row. row ≡ front ++ back) }
    {
        if front.is_empty() {
            return Ok(back);
        }
        if back.is_empty() {
            return Ok(front);
        }
        let Some(len) = front.len().checked_add(back.len()) else {
            return Err(AllocError);
        };
        let pair = Pair { len, front, back };
        Ok(Row {
            parts: Parts::Two(Rc::new(alloc, pair)?),
        })
    }

    /// The row of two, the second of which may have somewhat too many things.
    fn with_more_behind(alloc: Global, front: &Row<T>, back: Row<T>) -> Result<Row<T>, AllocError>
        ensures { IfOk result (λ row. row ≡ front.now ++ back) }
    {
        let Some((middle, last)) = back.halves_over(2, front) else {
            return Row::pair(alloc, front.clone()?, back);
        };
        let (near, far) = match middle.halves_over(1, last) {
            None => (middle.clone()?, Row::new()),
            Some((near, far)) => (near.clone()?, far.clone()?),
        };
        let start = Row::pair(alloc, front.clone()?, near)?;
        let end = Row::pair(alloc, far, last.clone()?)?;
        Row::pair(alloc, start, end)
    }

    /// The row of two, the first of which may have somewhat too many things.
    fn with_more_in_front(alloc: Global, front: Row<T>, back: &Row<T>) -> Result<Row<T>, AllocError>
        ensures { IfOk result (λ row. row ≡ front ++ back.now) }
    {
        let Some((first, middle)) = front.halves_over(2, back) else {
            return Row::pair(alloc, front, back.clone()?);
        };
        let (far, near) = match middle.halves_over(1, first) {
            None => (Row::new(), middle.clone()?),
            Some((far, near)) => (far.clone()?, near.clone()?),
        };
        let start = Row::pair(alloc, first.clone()?, far)?;
        let end = Row::pair(alloc, near, back.clone()?)?;
        Row::pair(alloc, start, end)
    }
}
