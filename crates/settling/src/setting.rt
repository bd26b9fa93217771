// What settling reads.
ghost use Rattle.buckets.specs.Buckets.{Chains};
ghost use Rattle.points.specs.Places.{class_slots};
ghost use Rattle.settling.specs.Settle.{Ready, setting};

use points::chained::ChainedPlaces;

// The places of the homes, the leads by their homes, the places that dereferences read, and the table of apart classes.
#[derive(Clone, Copy)]
pub(crate) struct Setting<'a> {
    pub places: ChainedPlaces<'a>,
    pub keys: &'a [u32],
    pub lead_first: &'a [u16],
    pub lead_next: &'a [u16],
    pub reads: &'a [u32],
    pub read_heights: &'a [u64],
    pub apart: &'a [u8],
    ghost ready: { Ready (setting places.n places.classes.now places.heights.now keys.now reads.now read_heights.now apart.now) },
    ghost leads: { Chains places.n class_slots keys.now lead_first.now lead_next.now },
}
