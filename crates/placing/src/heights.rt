// Heights: offsets, lifted to numbers that are not negative.
ghost use Rattle.std.specs.Prelude.{◌≡◌, ◌≤◌, ◌+ℤ◌, length};
ghost use Rattle.integers.specs.Within.{Within};
ghost use Rattle.labels.specs.Spread.{far};
ghost use Rattle.tables.specs.Limits.{most, offset_limit};
ghost use Rattle.placing.specs.Filling.{Lifted, TermPlaces};
ghost use Rattle.placing.specs.Placed.{liftable, Offsets};

use offsets::{bits, sum};

// Offsets are lifted by this.
const LEVEL: i64 = 0x8000_0000_0000;

// The height of an offset.
pub(crate) fn lifted(z: i64) -> u64
    requires { Within liftable z }
    ensures { Lifted result z }
{
    bits(sum(z, LEVEL))
}

// The height of an offset of a row and one of a label. Public for the crate `columns`.
pub fn moved(z: i64, o: i64) -> u64
    requires { Within offset_limit z × Within far o }
    ensures { Lifted result (z +ℤ o) }
{
    lifted(sum(z, o))
}

// The heights of the terms. Public for the crate `columns`.
pub fn fill_heights(offs: &[i64], heights: &mut [u64])
    requires { (length offs.now ≤ most) × (Offsets (length offs.now) offs.now × (length heights.old ≡ most)) }
    ensures { TermPlaces (length offs.now) offs.now heights.new }
{
    for t in 0..offs.len() {
        heights[t] = lifted(offs[t]);
    }
}
