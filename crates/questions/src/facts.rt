// What questions are judged by.
ghost use Rattle.questions.specs.Answers.{Judging};

use points::chained::ChainedPlaces;
use points::places::Sizes;
use points::sides::SidePlaces;

// The places that dereferences read, with how many there are of each class, the sides of m propositions, chained by left class and
// distance, the table of apart classes and the pair table.
#[derive(Clone, Copy)]
pub struct Facts<'a> {
    pub reads: ChainedPlaces<'a>,
    pub sizes: &'a Sizes,
    pub m: usize,
    pub sides: SidePlaces<'a>,
    pub side_first: &'a [u16],
    pub side_next: &'a [u16],
    pub apart: &'a [u8],
    pub pairs: &'a [u8],
    pub ghost judging: { Judging reads.n m reads.classes.now reads.heights.now reads.class_first.now reads.class_next.now
        reads.slot_first.now reads.slot_next.now
        sides.left_classes.now sides.left_heights.now sides.right_classes.now sides.right_heights.now
        side_first.now side_next.now apart.now pairs.now },
}
