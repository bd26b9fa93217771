// The pairs of terms that stand as far apart as two places.
ghost use Rattle.std.specs.Prelude.{◌<◌, ◌≤◌};
ghost use Rattle.points.specs.Places.{AtEither, top};
ghost use Rattle.marking.specs.Marks.{Adds, Inside, Room, Upto};
ghost use Rattle.marking.specs.Pairs.{PairHere, PairsFrom, PairsWith};

use crate::bits::mark_both;
use crate::notes::Notes;
use points::chained::ChainedPlaces;
use points::places::{Place, TOP, is_at, linked, slot};
use types::TermNumber;

// The pair (i, j), if j is at the place.
fn mark_if(
    places: &ChainedPlaces,
    i: TermNumber,
    j: TermNumber,
    at: Place,
    pairs: &mut [u8],
    notes: &mut Notes,
)
    requires { let P = places.now in Inside P.n i.0 j.0 × Room P.n pairs.old }
    ensures { let P = places.now in Adds P.n (PairHere P.classes.now P.heights.now at.class at.height i.0 j.0) pairs.old pairs.new }
{
    if !is_at(j, at, places.classes, places.heights) {
        return;
    }
    let fresh = mark_both(places.n, i, j, pairs);
    notes.note_pair(fresh, i, j);
}

// The pairs of i with the terms at a place.
fn mark_place(places: &ChainedPlaces, i: TermNumber, at: Place, pairs: &mut [u8], notes: &mut Notes)
    requires { let P = places.now in (at.class ≤ P.n) × ((at.height < top) × ((i.0 < P.n) × Room P.n pairs.old)) }
    ensures { let P = places.now in Adds P.n (Upto P.n (PairHere P.classes.now P.heights.now at.class at.height i.0)) pairs.old pairs.new }
{
    let mut j = linked(places.slot_first, slot(at.class, at.height));
    while j < places.n {
        mark_if(places, i, TermNumber(j), at, pairs, notes);
        j = linked(places.slot_next, j);
    }
}

// The pairs of i with the terms of the class of y that are as far from it as y from height p.
pub(crate) fn mark_with(
    places: &ChainedPlaces,
    i: TermNumber,
    p: u64,
    y: Place,
    pairs: &mut [u8],
    notes: &mut Notes,
)
    requires { let P = places.now in (y.class ≤ P.n) × ((y.height < top) × ((i.0 < P.n) × Room P.n pairs.old)) }
    ensures { let P = places.now in Adds P.n (PairsWith P.n P.classes.now P.heights.now p y.class y.height i.0) pairs.old pairs.new }
{
    let k = i.0;
    let above = places.heights[k] + y.height;
    if above < p {
        return;
    }
    let height = above - p;
    if TOP <= height {
        return;
    }
    mark_place(
        places,
        i,
        Place {
            class: y.class,
            height,
        },
        pairs,
        notes,
    );
}

// The pairs of terms of the classes of x and y that are as far apart as x and y.
fn mark_from(places: &ChainedPlaces, x: Place, y: Place, pairs: &mut [u8], notes: &mut Notes)
    requires { let P = places.now in (x.class ≤ P.n) × ((y.class ≤ P.n) × ((y.height < top) × Room P.n pairs.old)) }
    ensures { let P = places.now in Adds P.n (Upto P.n (PairsFrom P.n P.classes.now P.heights.now x.class x.height y.class y.height)) pairs.old pairs.new }
{
    let mut i = linked(places.class_first, x.class as usize);
    while i < places.n {
        mark_with(places, TermNumber(i), x.height, y, pairs, notes);
        i = linked(places.class_next, i);
    }
}

// The same, from the smaller class. Which one that is only counts for the time that it takes.
pub(crate) fn mark_between(
    places: &ChainedPlaces,
    x: Place,
    y: Place,
    pairs: &mut [u8],
    notes: &mut Notes,
)
    requires { let P = places.now in (x.class ≤ P.n) × ((y.class ≤ P.n) × ((x.height < top) × ((y.height < top) × Room P.n pairs.old))) }
    ensures { let P = places.now in Adds P.n (AtEither P.classes.now P.heights.now x.class x.height y.class y.height) pairs.old pairs.new }
{
    let from_a = notes.size(x.class);
    let from_b = notes.size(y.class);
    if from_b < from_a {
        notes.add_steps(from_b);
        mark_from(places, y, x, pairs, notes);
        return;
    }
    notes.add_steps(from_a);
    mark_from(places, x, y, pairs, notes);
}
