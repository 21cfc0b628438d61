//! Elements in tiers, of which all but the last are rings.

ghost use Rattle.std.specs.Prelude.{◌<◌, ◌≤◌, ◌+◌, ◌-◌, ◌*◌, ◌≡◌, ◌++◌, true, ltb, length, take, drop, vec_capacity};
ghost use Rattle.std.specs.List.{insert, list_all};
ghost use Rattle.ybase_tiers.specs.Order.{from_start};

use std::alloc::{AllocError, Global};

/// How many elements a tier has.
const TIER: usize = 1024;

/// Elements in order. Behind full tiers, each a ring with a start of its own, stands an open run of at most a tier's length. Where
/// one comes or goes, its tier makes way, and each tier behind it passes one element on.
#[derive(Debug, Drop)]
pub struct Tiers<T> {
    places: Vec<T>,
    starts: Vec<usize>,
    ghost within: { list_all (λ start. ltb start 1024) starts.items ≡ true },
    ghost full: { length starts.items * 1024 ≤ length places.items },
    ghost open: { length places.items ≤ length starts.items * 1024 + 1024 },
    ghost room: { vec_capacity places ≤ vec_capacity starts * 1024 + 1024 },
}

impl<T: Copy> Tiers<T> {
    ghost use Rattle.std.specs.Prelude.{ℕ, ◌≡◌, ◌+◌, ◌*◌, ◌<◌, ◌≤◌, [], Some, true, false, Bool, length, slice_get, slice_index_or, slice_set, IfOk, OnOk, OnErr};
    ghost use Rattle.std.specs.Fn.{ComputesKey};
    ghost use Rattle.std.specs.List.Sorted.{IsPartitionPoint, IsPartitionedBy};
    ghost use Rattle.std.specs.List.{insert, remove};
    ghost use Rattle.ybase_tiers.specs.Tiers.{count_of, end_of, index_in, room_of, tiered, tiers_of};

    /// None, with room for so many.
    pub fn with_capacity(alloc: Global, room: usize) -> Result<Tiers<T>, AllocError>
        ensures none { IfOk result (λ made. tiered made ≡ []) }
        ensures room { IfOk result (λ made. room_of made ≡ room) }
    {
        let starts = Vec::with_capacity(alloc, room / TIER)?;
        Ok(Tiers {
            places: Vec::with_capacity(alloc, room)?,
            starts,
        })
    }

    /// None, without room.
    pub fn new(alloc: Global) -> Tiers<T>
        ensures none { tiered result ≡ [] }
        ensures room { room_of result ≡ 0 }
    {
        Tiers {
            places: Vec::new(alloc),
            starts: Vec::new(alloc),
        }
    }

    /// How many they are.
    pub fn len(&self) -> usize
        ensures { result ≡ length (tiered self.now) }
    {
        self.places.len()
    }

    /// Where the one at a place stands.
    fn index_of(&self, place: usize) -> usize
        requires { place < count_of self.now }
        ensures index { result ≡ index_in self.now place }
        ensures within { result < count_of self.now }
    {
        let tier = place / TIER;
        if tier >= self.starts.len() {
            return place;
        }
        let index = self.starts[tier] + place % TIER;
        if index < TIER {
            tier * TIER + index
        } else {
            tier * TIER + index - TIER
        }
    }

    /// The one at a place.
    fn at(&self, place: usize) -> &T
        requires { place < count_of self.now }
        ensures { result.now ≡ slice_index_or (tiered self.now) place result.now }
    {
        &self.places[self.index_of(place)]
    }

    /// The one at a place, if there is one.
    pub fn get(&self, place: usize) -> Option<T>
        ensures { result ≡ slice_get (tiered self.now) place }
    {
        if place < self.places.len() {
            Some(self.places[self.index_of(place)])
        } else {
            None
        }
    }

    /// How many stand before the first that fails a test, where none behind it passes: the row is halved until one is left.
    pub fn partition_point<P: FnMut(&T) -> bool>(&self, mut pred: P) -> usize
        requires { P.IsAlwaysCallable pred }
        ensures bound { result ≤ length (tiered self.now) }
        ensures partitioned { (p : T → Bool) → ComputesKey P.FnMut p pred → IsPartitionedBy p (tiered self.now)
            → IsPartitionPoint (λ y. p y ≡ true) (λ y. p y ≡ false) (tiered self.now) result }
    {
        let mut size = self.places.len();
        if size == 0 {
            return 0;
        }
        let mut base = 0;
        while size > 1 {
            let half = size / 2;
            let mid = base + half;
            if pred(self.at(mid)) {
                base = mid;
                size -= half;
            } else {
                size -= half;
            }
        }
        if pred(self.at(base)) { base + 1 } else { base }
    }

    /// Puts another in the place of one.
    pub fn set(&mut self, place: usize, x: T)
        requires { place < length (tiered self.old) }
        ensures row { tiered self.new ≡ slice_set (tiered self.old) place x }
        ensures room { room_of self.new ≡ room_of self.old }
    {
        self.replace(place, x);
    }

    /// The same, and answers which one it was.
    fn replace(&mut self, place: usize, x: T) -> T
        requires { place < count_of self.old }
        ensures row { tiered self.new ≡ slice_set (tiered self.old) place x }
        ensures value { slice_get (tiered self.old) place ≡ Some result }
        ensures len { count_of self.new ≡ count_of self.old }
        ensures tiers { tiers_of self.new ≡ tiers_of self.old }
        ensures room { room_of self.new ≡ room_of self.old }
    {
        let index = self.index_of(place);
        let was = self.places[index];
        self.places[index] = x;
        was
    }

    /// Makes room for one more.
    pub fn reserve(&mut self) -> Result<(), AllocError>
        ensures row { tiered self.new ≡ tiered self.old }
        ensures room { OnOk result (length (tiered self.new) < room_of self.new) }
        ensures kept { room_of self.old ≤ room_of self.new }
        ensures err { OnErr result (room_of self.new ≡ room_of self.old) }
    {
        let len = self.places.len();
        if len < self.places.capacity() {
            return Ok(());
        }
        let Some(room) = len.checked_add(len.max(4)) else {
            return Err(AllocError);
        };
        self.starts
            .reserve_exact((room / TIER).saturating_sub(self.starts.len()))?;
        self.places.reserve_exact(room - len)?;
        Ok(())
    }

    /// Puts one in at a place, where there is room for it.
    pub fn insert(&mut self, place: usize, x: T)
        requires within { place ≤ length (tiered self.old) }
        requires room { length (tiered self.old) < room_of self.old }
        ensures row { tiered self.new ≡ insert (tiered self.old) place x }
        ensures room { room_of self.new ≡ room_of self.old }
    {
        self.close_run();
        let end = self.starts.len() * TIER;
        if place < end {
            let next = place / TIER + 1;
            let last = self.shift_on(place, next * TIER, x);
            let last = self.pass_on(next, last);
            self.insert_open(end, last);
        } else {
            self.insert_open(place, x);
        }
    }

    /// Takes out the one at a place.
    pub fn remove(&mut self, place: usize) -> T
        requires { place < length (tiered self.old) }
        ensures row { tiered self.new ≡ remove (tiered self.old) place }
        ensures value { slice_get (tiered self.old) place ≡ Some result }
        ensures room { room_of self.new ≡ room_of self.old }
        ensures spare { length (tiered self.new) < room_of self.new }
    {
        self.open_tier();
        let end = self.starts.len() * TIER;
        if place < end {
            let next = place / TIER + 1;
            let first = self.remove_open(end);
            let first = self.pass_back(next, first);
            self.shift_back(place, next * TIER, first)
        } else {
            self.remove_open(place)
        }
    }

    /// Makes a tier of the open run, if it is full.
    fn close_run(&mut self)
        requires { count_of self.old < room_of self.old }
        ensures row { tiered self.new ≡ tiered self.old }
        ensures run { count_of self.new < end_of self.new + 1024 }
        ensures len { count_of self.new ≡ count_of self.old }
        ensures room { room_of self.new ≡ room_of self.old }
    {
        if self.places.len() - self.starts.len() * TIER == TIER {
            self.starts.push_reserved(0);
        }
    }

    /// Makes an open run of the last tier, if the run is empty.
    fn open_tier(&mut self)
        requires { 0 < count_of self.old }
        ensures row { tiered self.new ≡ tiered self.old }
        ensures run { end_of self.new < count_of self.new }
        ensures len { count_of self.new ≡ count_of self.old }
        ensures room { room_of self.new ≡ room_of self.old }
    {
        if self.places.len() == self.starts.len() * TIER {
            let start = self.starts.take_last();
            let end = self.starts.len() * TIER;
            unroll(&mut self.places, end, start);
        }
    }

    /// Puts one into the open run.
    fn insert_open(&mut self, place: usize, x: T)
        requires run { end_of self.old ≤ place }
        requires within { place ≤ count_of self.old }
        requires open { count_of self.old < end_of self.old + 1024 }
        requires room { count_of self.old < room_of self.old }
        ensures row { tiered self.new ≡ insert (tiered self.old) place x }
        ensures room { room_of self.new ≡ room_of self.old }
    {
        let _ = self.places.insert(place, x);
    }

    /// Takes one out of the open run.
    fn remove_open(&mut self, place: usize) -> T
        requires run { end_of self.old ≤ place }
        requires within { place < count_of self.old }
        ensures row { tiered self.new ≡ remove (tiered self.old) place }
        ensures value { slice_get (tiered self.old) place ≡ Some result }
        ensures len { count_of self.new + 1 ≡ count_of self.old }
        ensures tiers { tiers_of self.new ≡ tiers_of self.old }
        ensures room { room_of self.new ≡ room_of self.old }
    {
        self.places.remove(place)
    }

    /// Puts one in at a place, from which on those up to an end make way, and answers the one that goes there.
    fn shift_on(&mut self, place: usize, end: usize, x: T) -> T
        requires within { end ≤ count_of self.old }
        requires order { place ≤ end }
        ensures row { insert (tiered self.new) end result ≡ insert (tiered self.old) place x }
        ensures len { count_of self.new ≡ count_of self.old }
        ensures tiers { tiers_of self.new ≡ tiers_of self.old }
        ensures room { room_of self.new ≡ room_of self.old }
    {
        let mut carried = x;
        let mut at = place;
        while at < end {
            let next = self.run_behind(at).min(end);
            carried = self.move_on(at, next, carried);
            at = next;
        }
        carried
    }

    /// Puts one in before an end, from which on those back to a place make way, and answers the one that goes there.
    fn shift_back(&mut self, place: usize, end: usize, x: T) -> T
        requires within { end ≤ count_of self.old }
        requires order { place ≤ end }
        ensures row { insert (tiered self.new) place result ≡ insert (tiered self.old) end x }
        ensures len { count_of self.new ≡ count_of self.old }
        ensures room { room_of self.new ≡ room_of self.old }
    {
        let mut carried = x;
        let mut at = end;
        while place < at {
            let next = self.run_before(at).max(place);
            carried = self.move_back(next, at, carried);
            at = next;
        }
        carried
    }

    /// Up to which place those from a place on stand one behind the other.
    fn run_behind(&self, place: usize) -> usize
        requires { place < count_of self.now }
        ensures more { place < result }
        ensures run { (k : ℕ) → place + k < result → index_in self.now (place + k) ≡ index_in self.now place + k }
    {
        let tier = place / TIER;
        if tier >= self.starts.len() {
            return self.places.len();
        }
        let start = self.starts[tier];
        if start + place % TIER < TIER {
            tier * TIER + (TIER - start)
        } else {
            tier * TIER + TIER
        }
    }

    /// From which place on those up to a place stand one behind the other.
    fn run_before(&self, place: usize) -> usize
        requires some { 0 < place }
        requires within { place ≤ count_of self.now }
        ensures more { result < place }
        ensures run { (k : ℕ) → result + k < place → index_in self.now (result + k) ≡ index_in self.now result + k }
    {
        let tier = (place - 1) / TIER;
        if tier >= self.starts.len() {
            return self.starts.len() * TIER;
        }
        let start = self.starts[tier];
        if start + (place - 1) % TIER < TIER {
            tier * TIER
        } else {
            tier * TIER + (TIER - start)
        }
    }

    /// Puts one in at a place, from which on those up to an end make way where they stand, and answers the one that goes there.
    fn move_on(&mut self, place: usize, end: usize, x: T) -> T
        requires within { end ≤ count_of self.old }
        requires order { place < end }
        requires run { (k : ℕ) → place + k < end → index_in self.old (place + k) ≡ index_in self.old place + k }
        ensures row { insert (tiered self.new) end result ≡ insert (tiered self.old) place x }
        ensures len { count_of self.new ≡ count_of self.old }
        ensures tiers { tiers_of self.new ≡ tiers_of self.old }
        ensures room { room_of self.new ≡ room_of self.old }
    {
        let index = self.index_of(place);
        place_first(&mut self.places, index, index + (end - place), x)
    }

    /// Puts one in before an end, from which on those back to a place make way where they stand, and answers the one that goes there.
    fn move_back(&mut self, place: usize, end: usize, x: T) -> T
        requires within { end ≤ count_of self.old }
        requires order { place < end }
        requires run { (k : ℕ) → place + k < end → index_in self.old (place + k) ≡ index_in self.old place + k }
        ensures row { insert (tiered self.new) place result ≡ insert (tiered self.old) end x }
        ensures len { count_of self.new ≡ count_of self.old }
        ensures tiers { tiers_of self.new ≡ tiers_of self.old }
        ensures room { room_of self.new ≡ room_of self.old }
    {
        let index = self.index_of(place);
        place_last(&mut self.places, index, index + (end - place), x)
    }

    /// Puts one in front of a tier and those behind it, each of which passes its last on, and answers the last of all.
    fn pass_on(&mut self, tier: usize, x: T) -> T
        requires { tier ≤ tiers_of self.old }
        ensures row { insert (tiered self.new) (end_of self.new) result ≡ insert (tiered self.old) (tier * 1024) x }
        ensures len { count_of self.new ≡ count_of self.old }
        ensures tiers { tiers_of self.new ≡ tiers_of self.old }
        ensures room { room_of self.new ≡ room_of self.old }
    {
        let tiers = self.starts.len();
        let mut carried = x;
        for at in tier..tiers {
            carried = self.push_front(at, carried);
        }
        carried
    }

    /// Puts one behind the last tier, each of which back to a tier passes its first on, and answers the first of all.
    fn pass_back(&mut self, tier: usize, x: T) -> T
        requires { tier ≤ tiers_of self.old }
        ensures row { insert (tiered self.new) (tier * 1024) result ≡ insert (tiered self.old) (end_of self.old) x }
        ensures len { count_of self.new ≡ count_of self.old }
        ensures tiers { tiers_of self.new ≡ tiers_of self.old }
        ensures room { room_of self.new ≡ room_of self.old }
    {
        let tiers = self.starts.len();
        let mut carried = x;
        for passed in 0..tiers - tier {
            carried = self.push_back(tiers - 1 - passed, carried);
        }
        carried
    }

    /// Puts one in front of a tier, and answers its last, which makes way.
    fn push_front(&mut self, tier: usize, x: T) -> T
        requires { tier < tiers_of self.old }
        ensures row { insert (tiered self.new) (tier * 1024 + 1024) result ≡ insert (tiered self.old) (tier * 1024) x }
        ensures len { count_of self.new ≡ count_of self.old }
        ensures tiers { tiers_of self.new ≡ tiers_of self.old }
        ensures room { room_of self.new ≡ room_of self.old }
    {
        let last = place_before(self.starts[tier]);
        self.change(tier, last, last, x)
    }

    /// Puts one behind the last of a tier, and answers its first, which makes way.
    fn push_back(&mut self, tier: usize, x: T) -> T
        requires { tier < tiers_of self.old }
        ensures row { insert (tiered self.new) (tier * 1024) result ≡ insert (tiered self.old) (tier * 1024 + 1024) x }
        ensures len { count_of self.new ≡ count_of self.old }
        ensures tiers { tiers_of self.new ≡ tiers_of self.old }
        ensures room { room_of self.new ≡ room_of self.old }
    {
        let start = self.starts[tier];
        self.change(tier, start, place_behind(start), x)
    }

    /// Puts one in the place of another in a tier, which begins at another start from now on, and answers the other.
    fn change(&mut self, tier: usize, place: usize, start: usize, x: T) -> T
        requires tier { tier < tiers_of self.old }
        requires place { place < 1024 }
        requires start { start < 1024 }
        ensures places { self.new.places.items ≡ slice_set self.old.places.items (tier * 1024 + place) x }
        ensures starts { self.new.starts.items ≡ slice_set self.old.starts.items tier start }
        ensures value { slice_get self.old.places.items (tier * 1024 + place) ≡ Some result }
        ensures room { room_of self.new ≡ room_of self.old }
    {
        let index = tier * TIER + place;
        let was = self.places[index];
        self.places[index] = x;
        self.starts[tier] = start;
        was
    }
}

/// Brings a ring, behind which there is nothing, into order.
fn unroll<T: Copy>(places: &mut Vec<T>, end: usize, start: usize)
    requires end { end ≤ length places.old.items }
    requires start { start ≤ length places.old.items - end }
    ensures items { places.new.items ≡ take end places.old.items ++ from_start start (drop end places.old.items) }
    ensures len { length places.new.items ≡ length places.old.items }
    ensures room { vec_capacity places.new ≡ vec_capacity places.old }
{
    places[end..].rotate_left(start);
}

/// The place in a ring before another.
fn place_before(place: usize) -> usize
    requires { place < 1024 }
    ensures within { result < 1024 }
    ensures inner { result + 1 < 1024 → place ≡ result + 1 }
    ensures outer { result + 1 ≡ 1024 → place ≡ 0 }
{
    if place == 0 { TIER - 1 } else { place - 1 }
}

/// The place in a ring behind another.
fn place_behind(place: usize) -> usize
    requires { place < 1024 }
    ensures within { result < 1024 }
    ensures inner { place + 1 < 1024 → result ≡ place + 1 }
    ensures outer { place + 1 ≡ 1024 → result ≡ 0 }
{
    if place + 1 == TIER { 0 } else { place + 1 }
}

/// Puts one in, from which on those up to an end make way, and answers the last of them, which goes.
fn place_first<T: Copy>(places: &mut Vec<T>, from: usize, end: usize, x: T) -> T
    requires order { from < end }
    requires within { end ≤ length places.old.items }
    ensures items { insert places.new.items end result ≡ insert places.old.items from x }
    ensures len { length places.new.items ≡ length places.old.items }
    ensures room { vec_capacity places.new ≡ vec_capacity places.old }
{
    let last = places[end - 1];
    places.copy_within(from..end - 1, from + 1);
    places[from] = x;
    last
}

/// Puts one in before an end, from which on those back to another place make way, and answers the first of them, which goes.
fn place_last<T: Copy>(places: &mut Vec<T>, from: usize, end: usize, x: T) -> T
    requires order { from < end }
    requires within { end ≤ length places.old.items }
    ensures items { insert places.new.items from result ≡ insert places.old.items end x }
    ensures len { length places.new.items ≡ length places.old.items }
    ensures room { vec_capacity places.new ≡ vec_capacity places.old }
{
    let first = places[from];
    places.copy_within(from + 1..end, from);
    places[end - 1] = x;
    first
}
