// All pairs of terms that stand as far apart as two places.
ghost use Rattle.std.specs.Prelude.{◌<◌};
ghost use Rattle.distances.specs.Views.{IndexedBy};
ghost use Rattle.points.specs.Places.{AtEither, top};
ghost use Rattle.marking.specs.Known.{Uniform};
ghost use Rattle.marking.specs.Marks.{Adds, Room};

use crate::between::mark_between;
use crate::indexed::{is_indexed, mark_indexed};
use crate::known::is_known;
use crate::notes::Notes;
use crate::single::mark_single;
use distances::index::DistanceIndex;
use points::chained::ChainedPlaces;
use points::places::Place;

// The pairs of terms of the classes of x and y that are as far apart as x and y: by the index, if their pairs are in it, or unless they are
// known to be set.
fn mark_many(
    places: &ChainedPlaces,
    x: Place,
    y: Place,
    apart: &[u8],
    by_distance: &DistanceIndex,
    pairs: &mut [u8],
    notes: &mut Notes,
)
    requires chained { IndexedBy places.now apart.now by_distance.now }
    requires a_lt_n { let P = places.now in (x.class < P.n) × ((y.class < P.n) × ((x.height < top) × ((y.height < top) ×
        (Room P.n apart.now × (Room P.n pairs.old × Uniform P.n P.classes.now P.heights.now pairs.old))))) }
    ensures { let P = places.now in Adds P.n (AtEither P.classes.now P.heights.now x.class x.height y.class y.height) pairs.old pairs.new }
{
    if is_indexed(places.n, x.class, y.class, by_distance.levels, apart) {
        mark_indexed(places, x, y, apart, by_distance, pairs, notes);
        return;
    }
    if is_indexed(places.n, y.class, x.class, by_distance.levels, apart) {
        mark_indexed(places, y, x, apart, by_distance, pairs, notes);
        return;
    }
    if !notes.are_few(x.class, y.class) {
        if is_known(places, x, y, pairs) {
            return;
        }
    }
    mark_between(places, x, y, pairs, notes);
}

// The pairs of terms of the classes of x and y that are as far apart as x and y. Public for the crate `settling`.
pub fn mark_distance(
    places: &ChainedPlaces,
    x: Place,
    y: Place,
    apart: &[u8],
    by_distance: &DistanceIndex,
    pairs: &mut [u8],
    notes: &mut Notes,
)
    requires chained { IndexedBy places.now apart.now by_distance.now }
    requires a_lt_n { let P = places.now in (x.class < P.n) × ((y.class < P.n) × ((x.height < top) × ((y.height < top) ×
        (Room P.n apart.now × (Room P.n pairs.old × Uniform P.n P.classes.now P.heights.now pairs.old))))) }
    ensures { let P = places.now in Adds P.n (AtEither P.classes.now P.heights.now x.class x.height y.class y.height) pairs.old pairs.new }
{
    if mark_single(places, x, y, pairs, notes) {
        return;
    }
    mark_many(places, x, y, apart, by_distance, pairs, notes);
}
