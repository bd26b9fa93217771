// Whether the pairs as far apart as two places are known to be set: one of them that is set tells it of all.
ghost use Rattle.std.specs.Prelude.{◌≡◌, ◌<◌, ◌≤◌, true};
ghost use Rattle.points.specs.Places.{top};
ghost use Rattle.marking.specs.Marks.{Room};
ghost use Rattle.marking.specs.Known.{Known, KnownAt, KnownWith};

use crate::bits::test_both;
use points::chained::ChainedPlaces;
use points::places::{Place, TOP, is_at, linked, slot};
use types::TermNumber;

// Whether the first term at a place, if there is one, has its bits with i set.
fn known_place(places: &ChainedPlaces, i: TermNumber, at: Place, pairs: &[u8]) -> bool
    requires { let P = places.now in (at.class ≤ P.n) × ((at.height < top) × ((i.0 < P.n) × Room P.n pairs.now)) }
    ensures { let P = places.now in result ≡ true → KnownAt P.n P.classes.now P.heights.now pairs.now at.class at.height i.0 }
{
    let mut j = linked(places.slot_first, slot(at.class, at.height));
    while j < places.n {
        if is_at(TermNumber(j), at, places.classes, places.heights) {
            return test_both(places.n, i, TermNumber(j), pairs);
        }
        j = linked(places.slot_next, j);
    }
    false
}

// The same of the terms of the class of y that are as far from i as y from height p.
fn known_with(places: &ChainedPlaces, i: TermNumber, p: u64, y: Place, pairs: &[u8]) -> bool
    requires { let P = places.now in (y.class ≤ P.n) × ((y.height < top) × ((i.0 < P.n) × Room P.n pairs.now)) }
    ensures { let P = places.now in result ≡ true → KnownWith P.n P.classes.now P.heights.now pairs.now p y.class y.height i.0 }
{
    let k = i.0;
    let above = places.heights[k] + y.height;
    if above < p {
        return false;
    }
    let height = above - p;
    if TOP <= height {
        return false;
    }
    known_place(
        places,
        i,
        Place {
            class: y.class,
            height,
        },
        pairs,
    )
}

// How many terms are looked at. More cost more where nothing is known.
const LOOKS: usize = 4;

// Whether a pair of the classes of x and y as far apart as x and y is found set, with its mirror image.
pub(crate) fn is_known(places: &ChainedPlaces, x: Place, y: Place, pairs: &[u8]) -> bool
    requires { let P = places.now in (x.class ≤ P.n) × ((y.class ≤ P.n) × ((y.height < top) × Room P.n pairs.now)) }
    ensures { let P = places.now in result ≡ true → Known P.n P.classes.now P.heights.now pairs.now x.class x.height y.class y.height }
{
    let mut i = linked(places.class_first, x.class as usize);
    for _ in 0..LOOKS {
        if places.n <= i {
            return false;
        }
        if known_with(places, TermNumber(i), x.height, y, pairs) {
            return places.classes[i] == x.class;
        }
        i = linked(places.class_next, i);
    }
    false
}
