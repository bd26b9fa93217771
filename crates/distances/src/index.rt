// The index of pairs of points by their distance.
ghost use Rattle.std.specs.Prelude.{◌≡◌, length};
ghost use Rattle.points.specs.Places.{class_slots};

use crate::{ENTRIES, STARTS};
use points::chains::CLASSES;
use types::MOST;

// The level of each class, where its points start in their order, that order, where each bucket of distances starts, and the entries of all
// buckets.
#[derive(Clone, Copy)]
pub struct DistanceIndex<'a> {
    pub levels: &'a [u16],
    pub from: &'a [u16],
    pub order: &'a [u16],
    pub starts: &'a [u32],
    pub entries: &'a [u8],
}

// The memory of an index of all points.
#[derive(Drop)]
pub struct IndexStore {
    pub levels: [u16; CLASSES],
    pub from: [u16; CLASSES],
    pub order: [u16; MOST],
    pub starts: [u32; STARTS],
    pub entries: [u8; ENTRIES],
    ghost from_long: { length from ≡ class_slots },
}

impl IndexStore {
    pub const EMPTY: Self = IndexStore {
        levels: [0; CLASSES],
        from: [0; CLASSES],
        order: [0; MOST],
        starts: [0; STARTS],
        entries: [0; ENTRIES],
    };

    pub fn index(&self) -> DistanceIndex<'_>
        ensures classes { (result.levels.now ≡ self.now.levels) × (result.from.now ≡ self.now.from) }
        ensures order { result.order.now ≡ self.now.order }
        ensures buckets { (result.starts.now ≡ self.now.starts) × (result.entries.now ≡ self.now.entries) }
    {
        DistanceIndex {
            levels: &self.levels,
            from: &self.from,
            order: &self.order,
            starts: &self.starts,
            entries: &self.entries,
        }
    }
}
