// The pairs that differ by the classes of their terms, or by a listed disequality.
ghost use Rattle.std.specs.Prelude.{◌≡◌, ◌<◌, ◌≤◌, true};
ghost use Rattle.buckets.specs.Buckets.{Chains};
ghost use Rattle.tables.specs.Limits.{most};
ghost use Rattle.marking.specs.Marks.{Adds, Inside, Room, Upto, zeros};
ghost use Rattle.points.specs.Places.{class_slots};
ghost use Rattle.points.specs.Homes.{Unique};
ghost use Rattle.marking.specs.Classes.{differ_by_classes, ListedPair, NoneApart, height_of_other, PointsDiffer, Side, Sides};
ghost use Rattle.marking.specs.Far.{FarRow, Split};
ghost use Rattle.marking.specs.Rows.{Below, ClassRows, MaskPair, OwnMask, OwnRow};

use crate::between::mark_between;
use crate::bits::{pair_number, test_pair};
use crate::far::{Others, far_homes, fill_others, fill_selves};
use crate::notes::Notes;
use buckets::chain;
use points::chained::ChainedPlaces;
use points::places::{Place, linked};
use points::sides::SidePlaces;
use types::{MOST, PropositionNumber, TermNumber};
use words::{or_word, put, word_at, word_without};

// Whether two places are in one class at different heights.
pub(crate) fn other_height(x: Place, y: Place) -> bool
    ensures { result ≡ height_of_other x.class x.height y.class y.height }
{
    (x.class == y.class) & (x.height != y.height)
}

// Whether two places differ by their classes. Public for the crate `questions`.
pub fn classes_differ(n: usize, x: Place, y: Place, apart: &[u8]) -> bool
    requires { (n ≤ most) × ((x.class < n) × ((y.class < n) × Room n apart.now)) }
    ensures { result ≡ differ_by_classes n apart.now x.class x.height y.class y.height }
{
    let apart_classes = test_pair(
        n,
        TermNumber(x.class as usize),
        TermNumber(y.class as usize),
        apart,
    );
    apart_classes | other_height(x, y)
}

// Whether no class is apart from class a: all words that hold its bits are 0.
fn none_apart(n: usize, a: usize, apart: &[u8]) -> bool
    requires { (n ≤ most) × (a < n) }
    ensures { result ≡ true → NoneApart n apart.now a }
{
    let start = pair_number(n, TermNumber(a), TermNumber(0));
    for w in 0..(n + 63) / 64 {
        if word_at(apart, start + 64 * w) != 0 {
            return false;
        }
    }
    true
}

// Puts the homes of class a into a mask. Public for the crates `expansion` and `settling`.
pub fn own_homes(
    n: usize,
    a: usize,
    points: &[u32],
    class_first: &[u16],
    class_next: &[u16],
    own: &mut [u64],
)
    requires { Chains n class_slots points.now class_first.now class_next.now × ((n ≤ most) × ((a < n) × (own.old ≡ zeros 8))) }
    ensures { OwnMask n points.now a own.new }
{
    let mut t = linked(class_first, a);
    while t < n {
        put(own, t);
        t = linked(class_next, t);
    }
}

// The pairs of i with the terms of a mask but j, by words. Public for the crates `expansion` and `placing`.
pub fn mark_masked(n: usize, i: TermNumber, j: usize, mask: &[u64], pairs: &mut [u8])
    requires { Below n mask.now × (Inside n i.0 i.0 × Room n pairs.old) }
    ensures { Adds n (MaskPair mask.now i.0 j) pairs.old pairs.new }
{
    for w in 0..(n + 63) / 64 {
        let at = pair_number(n, i, TermNumber(64 * w));
        or_word(pairs, at, word_without(mask, w, j));
    }
}

// The pairs of the homes of class a, which are those of the mask, with each other.
fn mark_own(places: &ChainedPlaces, a: usize, own: &[u64], pairs: &mut [u8])
    requires { let P = places.now in (P.n ≤ most) × ((a < P.n) × (Below P.n own.now × Room P.n pairs.old)) }
    ensures { let P = places.now in Adds P.n (Upto P.n (OwnRow P.classes.now own.now a)) pairs.old pairs.new }
{
    let mut i = linked(places.class_first, a);
    while i < places.n {
        mark_masked(places.n, TermNumber(i), i, own, pairs);
        i = linked(places.class_next, i);
    }
}

// The pairs of the homes of class a with those of a mask.
fn mark_far(places: &ChainedPlaces, a: usize, far: &[u64], pairs: &mut [u8])
    requires { let P = places.now in (P.n ≤ most) × ((a < P.n) × (Below P.n far.now × Room P.n pairs.old)) }
    ensures { let P = places.now in Adds P.n (Upto P.n (FarRow P.n P.classes.now far.now a)) pairs.old pairs.new }
{
    let mut i = linked(places.class_first, a);
    while i < places.n {
        mark_masked(places.n, TermNumber(i), places.n, far, pairs);
        i = linked(places.class_next, i);
    }
}

// The pairs of the homes of class a that differ by their classes: with each other, as no two of them are at one place, and with the homes
// of classes that are apart from a.
fn mark_class(places: &ChainedPlaces, a: usize, others: &Others, apart: &[u8], pairs: &mut [u8])
    requires column { let P = places.now in Unique P.n P.classes.now P.heights.now × ((a < P.n) × (Room P.n apart.now × Room P.n pairs.old)) }
    requires split { let O = others.now in let P = places.now in Split P.n P.classes.now O.selves.now O.keys.now O.first.now O.next.now }
    ensures { let P = places.now in Adds P.n (ClassRows P.n apart.now P.classes.now P.heights.now a) pairs.old pairs.new }
{
    if places.n <= linked(places.class_first, a) {
        return;
    }
    let mut own = [0u64; 8];
    own_homes(
        places.n,
        a,
        places.classes,
        places.class_first,
        places.class_next,
        &mut own,
    );
    mark_own(places, a, &own, pairs);
    if none_apart(places.n, a, apart) {
        return;
    }
    let mut far = [0u64; 8];
    far_homes(places.n, a, others, places.classes, apart, &mut far);
    mark_far(places, a, &far, pairs);
}

// The same of all classes.
fn mark_each(places: &ChainedPlaces, others: &Others, apart: &[u8], pairs: &mut [u8])
    requires column { let P = places.now in Unique P.n P.classes.now P.heights.now × (Room P.n apart.now × Room P.n pairs.old) }
    requires split { let O = others.now in let P = places.now in Split P.n P.classes.now O.selves.now O.keys.now O.first.now O.next.now }
    ensures { let P = places.now in Adds P.n (PointsDiffer P.n apart.now P.classes.now P.heights.now) pairs.old pairs.new }
{
    for a in 0..places.n {
        mark_class(places, a, others, apart, pairs);
    }
}

// The pairs of homes that differ by their classes. Public for the crate `differences`.
pub fn mark_classes(places: &ChainedPlaces, apart: &[u8], pairs: &mut [u8])
    requires { let P = places.now in Unique P.n P.classes.now P.heights.now × (Room P.n apart.now × Room P.n pairs.old) }
    ensures { let P = places.now in Adds P.n (PointsDiffer P.n apart.now P.classes.now P.heights.now) pairs.old pairs.new }
{
    let mut selves = [0u64; 8];
    let mut keys = [0u32; MOST];
    let mut other_first = [0u16; 2];
    let mut other_next = [0u16; MOST];
    fill_selves(places.n, places.classes, &mut selves);
    fill_others(places.n, places.classes, &mut keys);
    chain(places.n, &keys, &mut other_first, &mut other_next);
    let others = Others {
        selves: &selves,
        keys: &keys,
        first: &other_first,
        next: &other_next,
    };
    mark_each(places, &others, apart, pairs);
}

// The pairs as far apart as the sides of proposition k, if it is a disequality. One inside a class gives pairs that differ by their class.
fn mark_listed_pair(
    places: &ChainedPlaces,
    k: PropositionNumber,
    sides: &SidePlaces,
    pairs: &mut [u8],
    notes: &mut Notes,
)
    requires { let S = sides.now in let P = places.now in Side P.n S.left_classes.now S.left_heights.now S.right_classes.now S.right_heights.now k.0 × Room P.n pairs.old }
    ensures { let S = sides.now in let P = places.now in
        Adds P.n (ListedPair P.n P.classes.now P.heights.now S.left_classes.now S.left_heights.now S.right_classes.now S.right_heights.now k.0) pairs.old pairs.new }
{
    let at = k.0;
    let x = Place {
        class: sides.left_classes[at],
        height: sides.left_heights[at],
    };
    let y = Place {
        class: sides.right_classes[at],
        height: sides.right_heights[at],
    };
    if places.n <= x.class as usize {
        return;
    }
    if other_height(x, y) {
        return;
    }
    mark_between(places, x, y, pairs, notes);
}

// The pairs as far apart as the sides of the listed disequalities. Public for the crate `differences`.
pub fn mark_listed(
    places: &ChainedPlaces,
    m: usize,
    sides: &SidePlaces,
    pairs: &mut [u8],
    notes: &mut Notes,
)
    requires { let S = sides.now in let P = places.now in Sides P.n m S.left_classes.now S.left_heights.now S.right_classes.now S.right_heights.now × Room P.n pairs.old }
    ensures { let S = sides.now in let P = places.now in
        Adds P.n (Upto m (ListedPair P.n P.classes.now P.heights.now S.left_classes.now S.left_heights.now S.right_classes.now S.right_heights.now)) pairs.old pairs.new }
{
    for k in 0..m {
        mark_listed_pair(places, PropositionNumber(k), sides, pairs, notes);
    }
}
