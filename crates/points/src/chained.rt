// Places with their chains.
ghost use Rattle.points.specs.Places.{Chained};

// The places of n numbers, chained by class and by place: a chain leads from a number to the next one of its class or place, and ends at n.
#[derive(Clone, Copy)]
pub struct ChainedPlaces<'a> {
    pub n: usize,
    pub classes: &'a [u32],
    pub heights: &'a [u64],
    pub class_first: &'a [u16],
    pub class_next: &'a [u16],
    pub slot_first: &'a [u16],
    pub slot_next: &'a [u16],
    ghost chained: { Chained n classes.now heights.now class_first.now class_next.now slot_first.now slot_next.now },
}
