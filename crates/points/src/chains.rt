// The chains of a column of places, by class and by place.
ghost use Rattle.std.specs.Prelude.{◌≡◌, ◌<◌, ◌≤◌, length};
ghost use Rattle.lists.specs.Filled.{Filled};
ghost use Rattle.points.specs.Places.{Chained, Column, place_slot, SlotChains, slots};

use crate::places::{SLOTS, slot};
use buckets::chain;
use types::MOST;

// The classes, and one that stands for none.
pub const CLASSES: usize = MOST + 1;

// A number below that of the buckets, in 32 bits.
pub(crate) fn narrow(slot: usize) -> u32
    requires { slot < slots }
    ensures { result ≡ slot }
{
    slot as u32
}

// The bucket of each place.
fn slot_column(n: usize, classes: &[u32], heights: &[u64], slotted: &mut [u32])
    requires { Column n classes.now heights.now × (n ≤ length slotted.old) }
    ensures { Filled (place_slot classes.now heights.now) 0 n (length slotted.old) slotted.new }
{
    for t in 0..n {
        slotted[t] = narrow(slot(classes[t], heights[t]));
    }
}

// The chains by place.
fn chain_slots(n: usize, classes: &[u32], heights: &[u64], first: &mut [u16], next: &mut [u16])
    requires { Column n classes.now heights.now × ((length first.old ≡ slots) × (n ≤ length next.old)) }
    ensures { SlotChains n classes.now heights.now first.new next.new }
{
    let mut slotted = [0u32; MOST];
    slot_column(n, classes, heights, &mut slotted);
    chain(n, &slotted, first, next);
}

// The chains of both kinds: of each bucket the first number, and of each number the next one.
#[derive(Drop)]
pub struct PlaceChains {
    pub class_first: [u16; CLASSES],
    pub class_next: [u16; MOST],
    pub slot_first: [u16; SLOTS],
    pub slot_next: [u16; MOST],
}

impl PlaceChains {
    pub const EMPTY: Self = PlaceChains {
        class_first: [0; CLASSES],
        class_next: [0; MOST],
        slot_first: [0; SLOTS],
        slot_next: [0; MOST],
    };
}

// Makes the chains. Public for the crates `differences` and `columns`.
pub fn chain_places(n: usize, classes: &[u32], heights: &[u64], chains: &mut PlaceChains)
    requires { Column n classes.now heights.now }
    ensures { let C = chains.new in Chained n classes.now heights.now C.class_first C.class_next C.slot_first C.slot_next }
{
    chain(n, classes, &mut chains.class_first, &mut chains.class_next);
    chain_slots(
        n,
        classes,
        heights,
        &mut chains.slot_first,
        &mut chains.slot_next,
    );
}
