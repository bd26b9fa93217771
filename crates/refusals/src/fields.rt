// Tests of single fields.
ghost use Rattle.std.specs.Prelude.{◌≡◌, ◌||◌, leb};
ghost use Rattle.tables.specs.Records.{offset_in_range};

use types::OFFSETS;

// Whether 32 bits hold an offset.
pub(crate) fn in_range(z: i64) -> bool
    ensures { result ≡ offset_in_range z }
{
    (-OFFSETS..OFFSETS).contains(&z)
}

// Whether one of two numbers names none of n terms.
pub(crate) fn unlisted(n: usize, left: u64, right: u64) -> bool
    ensures { result ≡ (leb n left || leb n right) }
{
    n <= left as usize || n <= right as usize
}
