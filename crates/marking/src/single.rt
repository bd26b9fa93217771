// The pairs of two classes that have one point each, as most classes have.
ghost use Rattle.std.specs.Prelude.{◌<◌};
ghost use Rattle.points.specs.Places.{top};
ghost use Rattle.marking.specs.Marks.{Room};
ghost use Rattle.marking.specs.Single.{Single};

use crate::bits::mark_both;
use crate::notes::Notes;
use points::chained::ChainedPlaces;
use points::places::{Place, linked};
use types::TermNumber;

// The pair of the points of the classes of x and y, if they are as far apart as x and y; tells whether neither class has a second point.
pub(crate) fn mark_single(
    places: &ChainedPlaces,
    x: Place,
    y: Place,
    pairs: &mut [u8],
    notes: &mut Notes,
) -> bool
    requires { let P = places.now in (x.class < P.n) × ((y.class < P.n) × ((x.height < top) × ((y.height < top) × Room P.n pairs.old))) }
    ensures { let P = places.now in Single P.n P.classes.now P.heights.now x.class x.height y.class y.height result pairs.old pairs.new }
{
    let i = linked(places.class_first, x.class as usize);
    let j = linked(places.class_first, y.class as usize);
    if places.n <= i {
        return true;
    }
    if places.n <= j {
        return true;
    }
    if linked(places.class_next, i) < places.n {
        return false;
    }
    if linked(places.class_next, j) < places.n {
        return false;
    }
    if places.heights[i] + y.height != places.heights[j] + x.height {
        return true;
    }
    let fresh = mark_both(places.n, TermNumber(i), TermNumber(j), pairs);
    notes.note_pair(fresh, TermNumber(i), TermNumber(j));
    true
}
