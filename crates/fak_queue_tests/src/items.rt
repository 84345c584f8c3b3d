//! Numbers and loads to insert, and what is asked of those that come out.

ghost use Rattle.std.specs.Prelude.{◌≡◌, ◌++◌, ◌∷◌, []};

use super::assertions::assert_equal;
use std::process::Abort;

/// A value that is moved and never copied: its parts are three times its number.
#[derive(Drop)]
pub struct Load {
    id: u64,
    parts: Vec<u64>,
}

/// Adds the item to the list.
pub fn add<T: Drop>(rt: &impl Abort, list: &mut Vec<T>, item: T)
    ensures { list.new.items ≡ list.old.items ++ item ∷ [] }
{
    list.push(item).expect(rt, "memory for an item");
}

/// The numbers from `first` on, fifty of them, the last first.
pub fn fifty<R: Abort + AllocGlobal>(rt: &R, first: u64) -> Vec<u64> {
    let mut items = Vec::new(rt.alloc());
    for i in 0..50u64 {
        add(rt, &mut items, first.wrapping_add(49 - i));
    }
    items
}

/// The load with this number.
fn load_of(rt: &(impl Abort + AllocGlobal), id: u64) -> Load {
    let parts = Vec::from_elem(rt.alloc(), id, 3).expect(rt, "memory for a load");
    Load { id, parts }
}

/// Loads with these numbers.
pub fn loads_of(rt: &(impl Abort + AllocGlobal), ids: &[u64]) -> Vec<Load> {
    let mut loads = Vec::new(rt.alloc());
    for id in ids {
        add(rt, &mut loads, load_of(rt, *id));
    }
    loads
}

/// The number of a load that came out as it went in.
fn id_of(rt: &impl Abort, load: &Load) -> u64 {
    assert_equal(rt, load.parts.as_slice(), [load.id; 3].as_slice());
    load.id
}

/// The numbers of loads that came out as they went in.
pub fn ids_of(rt: &(impl Abort + AllocGlobal), loads: &[Load]) -> Vec<u64> {
    let mut ids = Vec::new(rt.alloc());
    for load in loads {
        add(rt, &mut ids, id_of(rt, load));
    }
    ids
}

/// Whether those of the fifty numbers from `first` on that are in the list are in rising order.
pub fn rise(items: &[u64], first: u64) -> bool {
    let mut next = first;
    for &item in items {
        if item >= first && item - first < 50 {
            if item < next {
                return false;
            }
            next = item.wrapping_add(1);
        }
    }
    true
}

/// Whether the list has the fifty numbers from each of these on, and nothing else.
pub fn are_all<R: Abort>(rt: &R, mut list: Vec<u64>, firsts: &[u64]) -> bool {
    list.sort().expect(rt, "memory to sort");
    are_fifty_each(list.as_slice(), firsts)
}

/// Whether the list has the fifty numbers from each of these on, in this order, and nothing else.
fn are_fifty_each(list: &[u64], firsts: &[u64]) -> bool {
    let mut place = 0usize;
    for &first in firsts {
        for i in 0..50u64 {
            if list.get(place).copied() != Some(first.wrapping_add(i)) {
                return false;
            }
            place = place.wrapping_add(1);
        }
    }
    place == list.len()
}
