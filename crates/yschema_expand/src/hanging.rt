//! The last nodes of a table put below one before them (RFC 7950, 7.17).

ghost use Rattle.std.specs.Prelude.{◌≡◌, ◌≤◌, ◌+◌, ◌-◌, ◌++◌, drop, length, take};
ghost use Rattle.yschema_expand.specs.Hanging as spec;
ghost use Rattle.yschema_expand.specs.Hanging.{left_behind, moved_one, shifted_from, widened};
ghost use Rattle.yschema_expand.specs.TableView.{lying, lying_slot};

use crate::nodes::ExpandedNode;
use crate::table::NodeTable;
use ybase_preorder::Slot;

/// Which nodes are put where: those from the number `start` on, which stand below the node of the number `target`, to the end of what
/// stands there; that node is among those from the number `first` on. Where there is none, they go.
#[derive(Clone, Copy)]
pub(crate) struct Hanging {
    pub first: u32,
    pub target: Option<u32>,
    pub start: u32,
}

/// The new number of a node above one that moves, where those from a number on come to be those from another one on.
fn moved(from: u32, to: u32, number: u32) -> u32
    ensures { result ≡ spec.moved from to number }
{
    number.saturating_sub(from).saturating_add(to)
}

/// Numbers anew the node above one, but where so many that are left of those below one before it are none; answers how many of the
/// next ones stand below it, or one before it.
fn shift_one(slot: &mut Slot<ExpandedNode<'_, '_>>, from: u32, to: u32, left: usize) -> usize
    ensures place { lying_slot slot.new ≡ moved_one (spec.moved from to) left (lying_slot slot.old) }
    ensures left { result ≡ left_behind left slot.old.below }
{
    if left == 0 {
        return slot.below;
    }
    slot.parent = match slot.parent {
        Some(number) => Some(moved(from, to, number)),
        None => None,
    };
    left - 1
}

/// Numbers anew the nodes above those of the rows from a number on, but the top ones.
fn shift(slots: &mut Vec<Slot<ExpandedNode<'_, '_>>>, first: usize, from: u32, to: u32)
    ensures shifted { lying slots.new.items ≡ shifted_from first (spec.moved from to) 0 (lying slots.old.items) }
    ensures len { length slots.new.items ≡ length slots.old.items }
{
    let mut left = 0;
    for number in first..slots.len() {
        if let Some(slot) = slots.get_mut(number) {
            left = shift_one(slot, from, to, left);
        }
    }
}

/// How many stand below a node once so many more stand below the last of the next ones.
fn wider(count: usize, left: usize, below: usize) -> usize
    ensures { result ≡ spec.wider count left below }
{
    if below < left {
        below
    } else {
        below.saturating_add(count)
    }
}

/// So many more stand below the node of a number, and below all above it from that of another number on.
fn widen(slots: &mut Vec<Slot<ExpandedNode<'_, '_>>>, first: u32, target: u32, count: usize)
    ensures widened { lying slots.new.items ≡ widened count first ((target + 1) - first) (lying slots.old.items) }
    ensures len { length slots.new.items ≡ length slots.old.items }
{
    for number in first as usize..target as usize + 1 {
        if let Some(slot) = slots.get_mut(number) {
            slot.below = wider(count, target as usize - number, slot.below);
        }
    }
}

/// Brings the rows from a number on before those from another one on.
fn bring_before(slots: &mut Vec<Slot<ExpandedNode<'_, '_>>>, place: usize, start: usize)
    requires before { place ≤ start }
    requires within { start ≤ length slots.old.items }
    ensures order { slots.new.items ≡ take place slots.old.items ++ (drop (start - place) (drop place slots.old.items) ++ take (start - place) (drop place slots.old.items)) }
    ensures len { length slots.new.items ≡ length slots.old.items }
{
    slots[place..].rotate_left(start - place);
}

impl<'a, 't> NodeTable<'a, 't> {
    ghost use Rattle.std.specs.Prelude.{◌≡◌, ◌≤◌, ◌<◌, Some};
    ghost use Rattle.yschema_expand.specs.TablesHung.{IsAmong, Puts};

    /// Puts the last nodes where they belong.
    pub(crate) fn hang(&mut self, hanging: Hanging)
        requires { IsAmong hanging }
        ensures { Puts hanging self.old self.new }
    {
        match hanging.target {
            Some(target) => self.put(hanging.first, target, hanging.start),
            None => self.slots.truncate(hanging.start as usize),
        }
    }

    /// Puts the nodes from that of a number on to the end of what stands below another one.
    fn put(&mut self, first: u32, target: u32, start: u32)
        requires from { first ≤ target }
        requires before { target < start }
        ensures { Puts (record { first = first; target = Some target; start = start }) self.old self.new }
    {
        let Some(below) = self.below(target as usize) else {
            return;
        };
        let place = (target as usize).saturating_add(below).saturating_add(1);
        let (from, len) = (start as usize, self.slots.len());
        if place > from || from > len {
            return;
        }
        let past = place + (len - from);
        widen(&mut self.slots, first, target, len - from);
        shift(&mut self.slots, from, start, place as u32);
        bring_before(&mut self.slots, place, from);
        shift(&mut self.slots, past, place as u32, past as u32);
    }
}
