// The pairs of terms that stand as far apart as two places, by the index of distances.
ghost use Rattle.std.specs.Prelude.{◌≡◌, ◌+◌, ◌*◌, ◌<◌, ◌≤◌, true, false, length, slice_index};
ghost use Rattle.tables.specs.Limits.{most};
ghost use Rattle.pairbits.specs.Bits.{is_set};
ghost use Rattle.points.specs.Places.{AtEither, class_slots, top};
ghost use Rattle.distances.specs.Distances.{comes_before};
ghost use Rattle.distances.specs.Views.{IndexedBy};
ghost use Rattle.marking.specs.Marks.{Adds, Room};
ghost use Rattle.marking.specs.Pairs.{Candidate, Span};

use crate::between::mark_with;
use crate::bits::test_pair;
use crate::notes::Notes;
use distances::index::DistanceIndex;
use distances::{bucket, candidate, is_before};
use points::chained::ChainedPlaces;
use points::places::Place;
use types::TermNumber;

// Whether the pairs of the classes a and b are in the index, by points of a.
pub(crate) fn is_indexed(n: usize, a: u32, b: u32, levels: &[u16], apart: &[u8]) -> bool
    requires { (n ≤ most) × ((a < n) × ((b < n) × ((length levels.now ≡ class_slots) × Room n apart.now))) }
    ensures { result ≡ true → (comes_before levels.now a b ≡ true) × (is_set apart.now (a * n + b) ≡ false) }
{
    if !is_before(a, b, levels) {
        return false;
    }
    !test_pair(n, TermNumber(a as usize), TermNumber(b as usize), apart)
}

fn wide(start: u32) -> usize
    ensures { result ≡ start }
{
    start as usize
}

// Where a bucket starts; 0 past the last one.
fn start_of(k: usize, starts: &[u32]) -> usize
    ensures { result ≡ slice_index starts.now k }
{
    if k < starts.len() {
        return wide(starts[k]);
    }
    0
}

// The pairs of the candidate that entry c stands for, if it is of class a, with terms of class b.
fn mark_candidate(
    places: &ChainedPlaces,
    c: usize,
    x: Place,
    y: Place,
    by_distance: &DistanceIndex,
    pairs: &mut [u8],
    notes: &mut Notes,
)
    requires column { length by_distance.now.from.now ≡ class_slots }
    requires a_lt_n { let P = places.now in (x.class < P.n) × ((y.class < P.n) × ((y.height < top) × Room P.n pairs.old)) }
    ensures { let I = by_distance.now in let P = places.now in
        Adds P.n (Candidate P.n P.classes.now P.heights.now I.from.now I.order.now I.entries.now x.class x.height y.class y.height c) pairs.old pairs.new }
{
    if by_distance.entries.len() <= c {
        return;
    }
    let i = candidate(
        x.class,
        c,
        by_distance.from,
        by_distance.order,
        by_distance.entries,
    );
    if places.n <= i {
        return;
    }
    if places.classes[i] != x.class {
        return;
    }
    mark_with(places, TermNumber(i), x.height, y, pairs, notes);
}

// The same for the entries from `start` to `end`.
fn mark_candidates(
    places: &ChainedPlaces,
    start: usize,
    end: usize,
    x: Place,
    y: Place,
    by_distance: &DistanceIndex,
    pairs: &mut [u8],
    notes: &mut Notes,
)
    requires column { length by_distance.now.from.now ≡ class_slots }
    requires a_lt_n { let P = places.now in (x.class < P.n) × ((y.class < P.n) × ((y.height < top) × Room P.n pairs.old)) }
    ensures { let I = by_distance.now in let P = places.now in
        Adds P.n (Span start end (Candidate P.n P.classes.now P.heights.now I.from.now I.order.now I.entries.now x.class x.height y.class y.height)) pairs.old pairs.new }
{
    for c in start..end {
        mark_candidate(places, c, x, y, by_distance, pairs, notes);
    }
}

// The pairs of terms of the classes of x and y that are as far apart as x and y, whose pairs are in the index by points of the class of x.
pub(crate) fn mark_indexed(
    places: &ChainedPlaces,
    x: Place,
    y: Place,
    apart: &[u8],
    by_distance: &DistanceIndex,
    pairs: &mut [u8],
    notes: &mut Notes,
)
    requires column { IndexedBy places.now apart.now by_distance.now }
    requires a_lt_n { let I = by_distance.now in let P = places.now in
        (x.class < P.n) × ((y.class < P.n) × ((x.height < top) × ((y.height < top) ×
        ((comes_before I.levels.now x.class y.class ≡ true) × ((is_set apart.now (x.class * P.n + y.class) ≡ false) × Room P.n pairs.old))))) }
    ensures { let P = places.now in Adds P.n (AtEither P.classes.now P.heights.now x.class x.height y.class y.height) pairs.old pairs.new }
{
    let k = bucket(x, y);
    let start = start_of(k, by_distance.starts);
    let end = start_of(k + 1, by_distance.starts);
    mark_candidates(places, start, end, x, y, by_distance, pairs, notes);
}
