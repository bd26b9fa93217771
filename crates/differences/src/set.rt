// The places of an accepted set.
ghost use Rattle.differences.specs.Table.{Given};

use points::sides::SidePlaces;

// The places of n terms, the places that dereferences read, the sides of m propositions, and the table of apart classes.
#[derive(Clone, Copy)]
pub struct SetPlaces<'a> {
    pub n: usize,
    pub m: usize,
    pub classes: &'a [u32],
    pub heights: &'a [u64],
    pub reads: &'a [u32],
    pub read_heights: &'a [u64],
    pub sides: SidePlaces<'a>,
    pub apart: &'a [u8],
    pub ghost given: { Given n m classes.now heights.now reads.now read_heights.now sides.left_classes.now sides.left_heights.now sides.right_classes.now sides.right_heights.now apart.now },
}
