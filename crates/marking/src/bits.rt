// The bits of pairs of terms in a byte table: bit i * n + j for the pair (i, j).
ghost use Rattle.std.specs.Prelude.{◌≡◌, ◌+◌, ◌*◌, ◌&&◌};
ghost use Rattle.pairbits.specs.Bits.{is_set};
ghost use Rattle.marking.specs.Marks.{Adds, Both, Inside, One, Room};

use types::TermNumber;

// The number of a pair's bit.
pub(crate) fn pair_number(n: usize, i: TermNumber, j: TermNumber) -> usize
    requires { Inside n i.0 j.0 }
    ensures { result ≡ i.0 * n + j.0 }
{
    i.0 * n + j.0
}

// Sets the bit of a pair. Public for the crates `expansion` and `placing`.
pub fn set_pair(n: usize, i: TermNumber, j: TermNumber, table: &mut [u8])
    requires { Inside n i.0 j.0 × Room n table.old }
    ensures { Adds n (One i.0 j.0) table.old table.new }
{
    let k = pair_number(n, i, j);
    pairbits::set_bit(table, k);
}

// Sets the bits of a pair and of its mirror image. Public for the crate `placing`.
pub fn set_both(n: usize, i: TermNumber, j: TermNumber, table: &mut [u8])
    requires { Inside n i.0 j.0 × Room n table.old }
    ensures { Adds n (Both i.0 j.0) table.old table.new }
{
    set_pair(n, i, j, table);
    set_pair(n, j, i, table);
}

// Whether the bit of a pair is set. Public for the crates `settling` and `questions`.
pub fn test_pair(n: usize, i: TermNumber, j: TermNumber, table: &[u8]) -> bool
    requires { Inside n i.0 j.0 × Room n table.now }
    ensures { result ≡ is_set table.now (i.0 * n + j.0) }
{
    let k = pair_number(n, i, j);
    pairbits::test_bit(table, k)
}

// Sets the bits of a pair and of its mirror image, and says whether the first was not set.
pub(crate) fn mark_both(n: usize, i: TermNumber, j: TermNumber, table: &mut [u8]) -> bool
    requires { Inside n i.0 j.0 × Room n table.old }
    ensures { Adds n (Both i.0 j.0) table.old table.new }
{
    let there = test_pair(n, i, j, table);
    set_both(n, i, j, table);
    !there
}

// Whether the bits of a pair and of its mirror image are set.
pub(crate) fn test_both(n: usize, i: TermNumber, j: TermNumber, table: &[u8]) -> bool
    requires { Inside n i.0 j.0 × Room n table.now }
    ensures { result ≡ (is_set table.now (i.0 * n + j.0) && is_set table.now (j.0 * n + i.0)) }
{
    test_pair(n, i, j, table) & test_pair(n, j, i, table)
}
