// Pairs of points of two classes by their distance: for each bucket of distances a list of candidates for the point of the first class,
// each by its rank in its class. Public for the crates `marking` and `settling`.

#![tactic(auto)]

pub mod building;
mod counting;
pub mod index;
mod levels;
mod pairs;
mod placing;
mod ranks;
mod sorted;

ghost use Rattle.std.specs.Prelude.{◌≡◌, ◌+◌, ◌<◌, ◌≤◌, length, slice_index, slice_index_or};
ghost use Rattle.tables.specs.Limits.{most};
ghost use Rattle.points.specs.Places.{class_slots, top};
ghost use Rattle.distances.specs.Distances.{bucket_of_distance, buckets, candidate_of, comes_before};

use points::places::{Place, TOP, linked};
use types::MOST;

// The buckets of distances.
pub const BUCKETS: usize = 8192;

// Where each bucket starts, and where the last one ends. Public for the crate `settling`.
pub const STARTS: usize = BUCKETS + 1;

// Room for the candidates in all buckets: those of two classes of half the terms. Public for the crate `settling`.
pub const ENTRIES: usize = 0x10000;

// The bucket of a distance. Distances in arithmetic progression are spread out. Public for the crate `marking`.
pub fn bucket(x: Place, y: Place) -> usize
    requires { (x.class ≤ most) × ((y.class ≤ most) × ((x.height < top) × (y.height < top))) }
    ensures { (result ≡ bucket_of_distance x.class x.height y.class y.height) × (result < buckets) }
{
    let far = x.height + TOP - y.height;
    let mixed = (far % 0x1_0000_0000
        + far / 0x1_0000_0000 * 31
        + x.class as u64 * 40503
        + y.class as u64 * 30011)
        % 0x1_0000_0000;
    (mixed * 0x9E37_79B1 % 0x1_0000_0000 / 0x8_0000) as usize
}

// Whether class a has a level, and one below that of class b. Public for the crate `marking`.
pub fn is_before(a: u32, b: u32, levels: &[u16]) -> bool
    requires { (a ≤ most) × ((b ≤ most) × (length levels.now ≡ class_slots)) }
    ensures { result ≡ comes_before levels.now a b }
{
    let low = linked(levels, a as usize);
    let high = linked(levels, b as usize);
    (0 < low) & (low < high)
}

fn sum(first: u16, rank: u8) -> usize
    ensures { result ≡ first + rank }
{
    first as usize + rank as usize
}

// The point of class a that has the rank, or MOST.
pub(crate) fn member(a: u32, rank: u8, from: &[u16], order: &[u16]) -> usize
    requires { (a ≤ most) × (length from.now ≡ class_slots) }
    ensures { result ≡ slice_index_or order.now (slice_index from.now a + rank) most }
{
    let k = sum(from[a as usize], rank);
    if k < order.len() {
        return linked(order, k);
    }
    MOST
}

// The candidate that an entry stands for, in class a, or MOST. Public for the crate `marking`.
pub fn candidate(a: u32, c: usize, from: &[u16], order: &[u16], entries: &[u8]) -> usize
    requires { (a ≤ most) × ((length from.now ≡ class_slots) × (c < length entries.now)) }
    ensures { result ≡ candidate_of from.now order.now entries.now a c }
{
    member(a, entries[c], from, order)
}
