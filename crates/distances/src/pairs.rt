// Which pairs of points are in the buckets, and in which.
ghost use Rattle.std.specs.Prelude.{◌≡◌, ◌*◌, ◌<◌, ◌≤◌, true, false, length};
ghost use Rattle.tables.specs.Limits.{most};
ghost use Rattle.distances.specs.Distances.{buckets};
ghost use Rattle.distances.specs.Placing.{Open, Paired, pair_bucket};

use crate::sorted::Layout;
use crate::{bucket, is_before};
use pairbits::test_bit;
use points::places::Place;

// Whether a and b are apart, or one of them is no class.
pub(crate) fn is_apart(n: usize, a: usize, b: usize, apart: &[u8]) -> bool
    requires { (n ≤ most) × (n * n ≤ 8 * length apart.now) }
    ensures { result ≡ true → Open n apart.now a b → ⊥ }
{
    if n <= a {
        return true;
    }
    if n <= b {
        return true;
    }
    test_bit(apart, a * n + b)
}

// Whether a comes before b, and they are not apart.
pub(crate) fn is_paired(layout: &Layout, a: u32, b: u32) -> bool
    requires { (a ≤ layout.now.n) × (b ≤ layout.now.n) }
    ensures { let L = layout.now in result ≡ false → Paired L.n L.apart.now L.levels.now a b → ⊥ }
{
    if !is_before(a, b, layout.levels) {
        return false;
    }
    !is_apart(layout.n, a as usize, b as usize, layout.apart)
}

// The bucket of the points i and j.
pub(crate) fn bucket_of(layout: &Layout, i: usize, j: usize) -> usize
    requires { (i < layout.now.n) × (j < layout.now.n) }
    ensures { let L = layout.now in (result ≡ pair_bucket L.points.now L.heights.now i j) × (result < buckets) }
{
    bucket(
        Place {
            class: layout.points[i],
            height: layout.heights[i],
        },
        Place {
            class: layout.points[j],
            height: layout.heights[j],
        },
    )
}
