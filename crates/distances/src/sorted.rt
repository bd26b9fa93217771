// What the pairs of points are placed by.
ghost use Rattle.std.specs.Prelude.{◌≡◌, ◌+◌, length};
ghost use Rattle.points.specs.Places.{class_slots, Column};
ghost use Rattle.distances.specs.Distances.{buckets};
ghost use Rattle.distances.specs.Placing.{Classes};

// The points, and what tells which pairs of them are in the buckets: the table of apart classes, and the level of each class.
#[derive(Clone, Copy)]
pub(crate) struct Layout<'a> {
    pub n: usize,
    pub points: &'a [u32],
    pub heights: &'a [u64],
    pub apart: &'a [u8],
    pub levels: &'a [u16],
    ghost column: { Column n points.now heights.now },
    ghost classes: { Classes n apart.now levels.now },
}

// Where the points of each class start in their order, that order, and where each bucket starts.
#[derive(Clone, Copy)]
pub(crate) struct Sorted<'a> {
    pub layout: Layout<'a>,
    pub from: &'a [u16],
    pub order: &'a [u16],
    pub starts: &'a [u32],
    ghost from_long: { length from.now ≡ class_slots },
    ghost starts_long: { length starts.now ≡ buckets + 1 },
}
