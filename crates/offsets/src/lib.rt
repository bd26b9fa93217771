// Offsets: summed, negated and compared in 64 bits, where no sum within the limits wraps.
// Each function is exact on whole numbers. Public for the crates `tables`, `unionfind`, `lastlook`, `uselists`, `joins`, `consistency`,
// `placing`, `refusals` and `writer`.

#![tactic(auto)]

ghost use Rattle.std.specs.Prelude.{◌≡◌, ℤ, ◌+ℤ◌, ◌-ℤ◌, neg_ℤ};
ghost use Rattle.std.proofs.Common.{SFits, to_z, of_z};
ghost use Rattle.std.specs.Int.{w32, w64};
ghost use Rattle.integers.specs.Compare.{eq_ℤ};

// The offsets of the tables negated and subtracted, over the whole range of 32 bits (specs/Exact.antt: at the lowest number and around
// zero): the form that the scope names for them. Places have no use for them: heights are not negative.
pub fn negated(z: i32) -> i64
    ensures { result ≡ neg_ℤ z }
{
    -i64::from(z)
}

pub fn subtracted(y: i32, z: i32) -> i64
    ensures { result ≡ y -ℤ z }
{
    i64::from(y) - i64::from(z)
}

// Sums of labels. The callers know the bounds by which they fit (specs/Fits.antt).
pub fn sum(a: i64, b: i64) -> i64
    requires { SFits w64 (a +ℤ b) }
    ensures { result ≡ a +ℤ b }
{
    a + b
}

pub fn difference(a: i64, b: i64) -> i64
    requires { SFits w64 (a -ℤ b) }
    ensures { result ≡ a -ℤ b }
{
    a - b
}

pub fn opposite(a: i64) -> i64
    requires { SFits w64 (neg_ℤ a) }
    ensures { result ≡ neg_ℤ a }
{
    -a
}

// It may not go, as the edits same_as_itself and same_reversed are of it.
pub fn is_same(a: i64, b: i64) -> bool
    ensures { result ≡ eq_ℤ a b }
{
    a == b
}

// The number that 64 bits spell in two's complement.
pub fn signed(bits: u64) -> i64
    ensures { result ≡ to_z w64 bits }
{
    bits.cast_signed()
}

// The bits that spell a number in two's complement.
pub fn bits(z: i64) -> u64
    ensures { result ≡ of_z w64 z }
{
    z.cast_unsigned()
}
