// Homes: of the terms at one place the first stands for all of them.
ghost use Rattle.std.specs.Prelude.{◌≡◌, ◌<◌, ◌≤◌, length, ◌==◌};
ghost use Rattle.tables.specs.Limits.{most};
ghost use Rattle.points.specs.Places.{Column, SlotChains, Terms};
ghost use Rattle.points.specs.Homes.{FirstThere, Homes, point_of, Points};

use crate::chains::narrow;
use crate::places::{Place, is_at, linked, slot};
use types::TermNumber;

// The first term at the place of t.
fn first_there(
    n: usize,
    t: TermNumber,
    classes: &[u32],
    heights: &[u64],
    slot_first: &[u16],
    slot_next: &[u16],
) -> usize
    requires { Column n classes.now heights.now × (SlotChains n classes.now heights.now slot_first.now slot_next.now × (t.0 < n)) }
    ensures { FirstThere classes.now heights.now t.0 result }
{
    let k = t.0;
    let at = Place {
        class: classes[k],
        height: heights[k],
    };
    let mut j = linked(slot_first, slot(at.class, at.height));
    while j < k {
        if is_at(TermNumber(j), at, classes, heights) {
            return j;
        }
        j = linked(slot_next, j);
    }
    k
}

// The home of each term. Public for the crate `differences`.
pub fn fill_homes(
    n: usize,
    classes: &[u32],
    heights: &[u64],
    slot_first: &[u16],
    slot_next: &[u16],
    homes: &mut [u32],
)
    requires { Terms n classes.now heights.now × (SlotChains n classes.now heights.now slot_first.now slot_next.now × (n ≤ length homes.old)) }
    ensures { Homes n classes.now heights.now homes.new }
{
    for t in 0..n {
        let j = first_there(n, TermNumber(t), classes, heights, slot_first, slot_next);
        homes[t] = narrow(j);
    }
}

// The class of t if it is its own home, else n.
fn point(n: usize, t: TermNumber, class: u32, home: u32) -> u32
    requires { n ≤ most }
    ensures { result ≡ point_of (home == t.0) class n }
{
    if home as usize == t.0 {
        return class;
    }
    narrow(n)
}

// The class of each term that is its own home. Public for the crate `differences`.
pub fn fill_points(n: usize, classes: &[u32], homes: &[u32], points: &mut [u32])
    requires { (n ≤ most) × ((n ≤ length classes.now) × ((n ≤ length homes.now) × (n ≤ length points.old))) }
    ensures { Points n classes.now homes.now points.new }
{
    for t in 0..n {
        points[t] = point(n, TermNumber(t), classes[t], homes[t]);
    }
}
