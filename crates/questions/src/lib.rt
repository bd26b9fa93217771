// The answer to a question about two places: equal where they are one, different by their classes, by a disequality or by what
// dereferences of them read, or neither.

#![tactic(auto)]

pub mod facts;
pub mod sides;

ghost use Rattle.std.specs.Prelude.{◌≡◌, ◌<◌, ◌≤◌};
ghost use Rattle.tables.specs.Limits.{most};
ghost use Rattle.marking.specs.Marks.{Inside, Room};
ghost use Rattle.points.specs.Places.{top};
ghost use Rattle.questions.specs.Answers.{Judged};
ghost use Rattle.questions.specs.Searches.{bit_of, Found, FoundPair, From, is_met, is_same_slot, is_shown, Listed, Met, OneWay, Opposed, Row, is_row_shown};

use facts::Facts;
use marking::base::classes_differ;
use marking::bits::test_pair;
use points::chained::ChainedPlaces;
use points::places::{Place, Sizes, TOP, is_at, is_smaller, linked, slot};
use points::sides::SidePlaces;
use types::{Answer, PropositionNumber, TermNumber};

// Whether two places are one.
fn same_place(x: Place, y: Place) -> bool
    ensures { result ≡ is_same_slot x.class x.height y.class y.height }
{
    x == y
}

// Whether two places are in the classes of x and y, and as far apart.
fn shows(left: Place, right: Place, x: Place, y: Place) -> bool
    requires { (left.height < top) × ((right.height < top) × ((x.height < top) × (y.height < top))) }
    ensures { result ≡ is_shown left.class left.height right.class right.height x.class x.height y.class y.height }
{
    (left.class == x.class)
        & (right.class == y.class)
        & (left.height + y.height == right.height + x.height)
}

// Whether proposition k is a disequality between places as far apart as x and y.
fn shows_side(k: PropositionNumber, x: Place, y: Place, sides: &SidePlaces) -> bool
    requires { let S = sides.now in Row S.left_classes.now S.left_heights.now S.right_classes.now S.right_heights.now k.0 × ((x.height < top) × (y.height < top)) }
    ensures { let S = sides.now in result ≡ is_row_shown S.left_classes.now S.left_heights.now S.right_classes.now S.right_heights.now x.class x.height y.class y.height k.0 }
{
    let i = k.0;
    let left = Place {
        class: sides.left_classes[i],
        height: sides.left_heights[i],
    };
    let right = Place {
        class: sides.right_classes[i],
        height: sides.right_heights[i],
    };
    shows(left, right, x, y)
}

// Whether a disequality is between places as far apart as x and y: a walk along those of the same left class and distance.
fn any_side(facts: &Facts, x: Place, y: Place) -> bool
    requires rows { (x.height < top) × (y.height < top) }
    requires side_chains { x.class ≤ most }
    ensures { let F = facts.now in
        Found F.m (OneWay F.sides.left_classes.now F.sides.left_heights.now F.sides.right_classes.now F.sides.right_heights.now F.m x.class x.height y.class y.height) result }
{
    let mut k = linked(facts.side_first, slot(x.class, x.height + TOP - y.height));
    while k < facts.m {
        if shows_side(PropositionNumber(k), x, y, &facts.sides) {
            return true;
        }
        k = linked(facts.side_next, k);
    }
    false
}

// Whether a disequality, either way round, says that the places x and y are different.
fn any_listed(facts: &Facts, x: Place, y: Place) -> bool
    requires rows { (x.height < top) × (y.height < top) }
    requires side_chains { (x.class ≤ most) × (y.class ≤ most) }
    ensures { let F = facts.now in Found F.m (Listed F.sides.left_classes.now F.sides.left_heights.now F.sides.right_classes.now F.sides.right_heights.now x.class x.height y.class y.height) result }
{
    let there = any_side(facts, x, y);
    let back = any_side(facts, y, x);
    there | back
}

// Whether the bit of a pair is set, or that of its mirror image.
fn test_either(n: usize, i: TermNumber, j: TermNumber, mirrored: bool, pairs: &[u8]) -> bool
    requires { Inside n i.0 j.0 × Room n pairs.now }
    ensures { result ≡ bit_of n pairs.now mirrored i.0 j.0 }
{
    if mirrored {
        return test_pair(n, j, i, pairs);
    }
    test_pair(n, i, j, pairs)
}

// Whether j reads the place, and differs from i.
fn differs_there(
    places: &ChainedPlaces,
    i: TermNumber,
    j: TermNumber,
    at: Place,
    mirrored: bool,
    pairs: &[u8],
) -> bool
    requires { let P = places.now in Inside P.n i.0 j.0 × Room P.n pairs.now }
    ensures { let P = places.now in result ≡ is_met P.n P.classes.now P.heights.now pairs.now mirrored at.class at.height i.0 j.0 }
{
    if !is_at(j, at, places.classes, places.heights) {
        return false;
    }
    test_either(places.n, i, j, mirrored, pairs)
}

// Whether i differs from a dereference that reads the place.
fn any_there(places: &ChainedPlaces, i: TermNumber, at: Place, mirrored: bool, pairs: &[u8]) -> bool
    requires { let P = places.now in (at.class ≤ P.n) × ((at.height < top) × ((i.0 < P.n) × Room P.n pairs.now)) }
    ensures { let P = places.now in Found P.n (Met P.n P.classes.now P.heights.now pairs.now mirrored at.class at.height i.0) result }
{
    let mut j = linked(places.slot_first, slot(at.class, at.height));
    while j < places.n {
        if differs_there(places, i, TermNumber(j), at, mirrored, pairs) {
            return true;
        }
        j = linked(places.slot_next, j);
    }
    false
}

// Whether i differs from a dereference that reads the class of y, as far from what i reads as y from height p.
fn any_with(
    places: &ChainedPlaces,
    i: TermNumber,
    p: u64,
    y: Place,
    mirrored: bool,
    pairs: &[u8],
) -> bool
    requires { let P = places.now in (y.class ≤ P.n) × ((p < top) × ((y.height < top) × ((i.0 < P.n) × Room P.n pairs.now))) }
    ensures { let P = places.now in Found P.n (Opposed P.n P.classes.now P.heights.now pairs.now mirrored p y.class y.height i.0) result }
{
    let k = i.0;
    let above = places.heights[k] + y.height;
    if above < p {
        return false;
    }
    let height = above - p;
    if TOP <= height {
        return false;
    }
    any_there(
        places,
        i,
        Place {
            class: y.class,
            height,
        },
        mirrored,
        pairs,
    )
}

// Whether dereferences that read the classes of x and y, as far apart as x and y, differ.
fn any_from(places: &ChainedPlaces, x: Place, y: Place, mirrored: bool, pairs: &[u8]) -> bool
    requires { let P = places.now in (x.class ≤ P.n) × ((y.class ≤ P.n) × ((x.height < top) × ((y.height < top) × Room P.n pairs.now))) }
    ensures { let P = places.now in Found P.n (From P.n P.classes.now P.heights.now pairs.now mirrored x.class x.height y.class y.height) result }
{
    let mut i = linked(places.class_first, x.class as usize);
    while i < places.n {
        if any_with(places, TermNumber(i), x.height, y, mirrored, pairs) {
            return true;
        }
        i = linked(places.class_next, i);
    }
    false
}

// The same, from the smaller class; from b, each pair is met mirrored. Which one is smaller only counts for the time that it takes.
fn any_values(places: &ChainedPlaces, x: Place, y: Place, sizes: &Sizes, pairs: &[u8]) -> bool
    requires { let P = places.now in (x.class ≤ P.n) × ((y.class ≤ P.n) × ((x.height < top) × ((y.height < top) × Room P.n pairs.now))) }
    ensures { let P = places.now in FoundPair P.n P.classes.now P.heights.now pairs.now x.class x.height y.class y.height result }
{
    if is_smaller(y.class, x.class, sizes) {
        return any_from(places, y, x, true, pairs);
    }
    any_from(places, x, y, false, pairs)
}

// The answer to the question whether the places x and y are one. Public for the crate `columns`.
pub fn judge(facts: &Facts, x: Place, y: Place) -> Answer
    requires { let F = facts.now in (x.class < F.reads.n) × ((y.class < F.reads.n) × ((x.height < top) × (y.height < top))) }
    ensures { let F = facts.now in Judged F.reads.n F.m F.reads.classes.now F.reads.heights.now
        F.sides.left_classes.now F.sides.left_heights.now F.sides.right_classes.now F.sides.right_heights.now F.apart.now
        F.pairs.now x.class x.height y.class y.height result }
{
    if same_place(x, y) {
        return Answer::Equal;
    }
    if classes_differ(facts.reads.n, x, y, facts.apart) {
        return Answer::Different;
    }
    if any_listed(facts, x, y) {
        return Answer::Different;
    }
    if any_values(&facts.reads, x, y, facts.sizes, facts.pairs) {
        return Answer::Different;
    }
    Answer::Neither
}
