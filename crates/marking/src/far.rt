// The homes whose classes are apart from a class, as a mask. The bit of a class stands at its number in the table of apart classes: a home
// with that number is found by words, and any other one by its class.
ghost use Rattle.std.specs.Prelude.{◌≡◌, ◌+◌, ◌*◌, ◌<◌, ◌≤◌, length};
ghost use Rattle.lists.specs.Filled.{Filled};
ghost use Rattle.outcome.specs.PairBits.{bit_value};
ghost use Rattle.pairbits.specs.Bits.{is_set};
ghost use Rattle.points.specs.Places.{class};
ghost use Rattle.tables.specs.Limits.{most};
ghost use Rattle.marking.specs.Marks.{Inside, Room, zeros};
ghost use Rattle.marking.specs.Far.{FarMask, FarOthers, FarSelves, is_other, key_of_other, PutIf, Selves, Split};

use crate::bits::{pair_number, test_pair};
use points::places::linked;
use types::TermNumber;
use words::{common, put};

// The homes that are their own classes, as a mask, and the other homes, by chains: key 1 has those of the other classes.
#[derive(Clone, Copy)]
pub(crate) struct Others<'a> {
    pub selves: &'a [u64],
    pub keys: &'a [u32],
    pub first: &'a [u16],
    pub next: &'a [u16],
}

// 1 if t is a home that does not have the number of its class, else 0.
fn other_key(n: usize, t: usize, class: u32) -> u32
    ensures { result ≡ bit_value (is_other n class t) }
{
    if ((class as usize) < n) & (class as usize != t) {
        1
    } else {
        0
    }
}

// These keys of all terms.
pub(crate) fn fill_others(n: usize, points: &[u32], others: &mut [u32])
    requires { (n ≤ length points.now) × (n ≤ length others.old) }
    ensures { Filled (key_of_other n points.now) 0 n (length others.old) others.new }
{
    for t in 0..n {
        others[t] = other_key(n, t, points[t]);
    }
}

// Puts the homes that have the number of their class into a mask.
pub(crate) fn fill_selves(n: usize, points: &[u32], selves: &mut [u64])
    requires { (n ≤ most) × ((n ≤ length points.now) × (selves.old ≡ zeros 8)) }
    ensures { Selves n n points.now selves.new }
{
    for t in 0..n {
        if points[t] as usize != t {
            continue;
        }
        put(selves, t);
    }
}

// Puts those whose classes are apart from class a into a mask.
fn far_selves(n: usize, a: usize, selves: &[u64], apart: &[u8], far: &mut [u64])
    requires { (n ≤ most) × ((a < n) × (length far.old ≡ 8)) }
    ensures { FarSelves (a * n) apart.now selves.now 8 far.new }
{
    let start = pair_number(n, TermNumber(a), TermNumber(0));
    for w in 0..8 {
        far[w] = common(start, apart, selves, 64 * w);
    }
}

// Puts t into a mask, if its class is apart from class a.
fn put_far(n: usize, a: usize, t: TermNumber, points: &[u32], apart: &[u8], far: &mut [u64])
    requires { Inside n a t.0 × ((n ≤ length points.now) × ((class points.now t.0 < n) × (Room n apart.now × (length far.old ≡ 8)))) }
    ensures { PutIf (is_set apart.now (a * n + class points.now t.0)) far.old t.0 far.new }
{
    let k = t.0;
    if test_pair(n, TermNumber(a), TermNumber(points[k] as usize), apart) {
        put(far, k);
    }
}

// Puts the other homes whose classes are apart from class a into a mask.
fn far_others(n: usize, a: usize, others: &Others, points: &[u32], apart: &[u8], far: &mut [u64])
    requires { let O = others.now in Split n points.now O.selves.now O.keys.now O.first.now O.next.now × (Inside n a a × ((n ≤ length points.now) × (Room n apart.now × (length far.old ≡ 8)))) }
    ensures { FarOthers n a apart.now points.now n far.old far.new }
{
    let mut t = linked(others.first, 1);
    while t < n {
        put_far(n, a, TermNumber(t), points, apart, far);
        t = linked(others.next, t);
    }
}

// Puts all homes whose classes are apart from class a into a mask.
pub(crate) fn far_homes(
    n: usize,
    a: usize,
    others: &Others,
    points: &[u32],
    apart: &[u8],
    far: &mut [u64],
)
    requires { let O = others.now in Split n points.now O.selves.now O.keys.now O.first.now O.next.now × (Inside n a a × ((n ≤ length points.now) × (Room n apart.now × (length far.old ≡ 8)))) }
    ensures { FarMask n apart.now points.now a far.new }
{
    far_selves(n, a, others.selves, apart, far);
    far_others(n, a, others, points, apart, far);
}
