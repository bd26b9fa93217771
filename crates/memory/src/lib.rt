// The test of the lent memory, and cells that are all written. Public for the crates `blame` and `solver`.

#![tactic(auto)]

ghost use Rattle.std.specs.Prelude.{◌≡◌, ◌≤◌, length, replicate};
ghost use Rattle.tables.specs.Limits.{most};
ghost use Rattle.tables.specs.TableFaults.{acceptance};
ghost use Rattle.tables.specs.Memory.{room_fault};

use types::{Fault, Refusal};

// 8 for lent memory of fewer cells than n terms, m propositions and q questions need. The lengths stand one by one: a struct of them
// would be made for this call alone.
pub fn check_memory(
    n: usize,
    m: usize,
    q: usize,
    representatives: usize,
    offsets: usize,
    marks: usize,
    pairs: usize,
    answers: usize,
) -> Result<(), Fault>
    requires { n ≤ most }
    ensures { result ≡ acceptance (room_fault n m q representatives offsets marks pairs answers) }
{
    let short_bytes = (marks < m) | ((pairs < (n * n + 7) / 8) | (answers < q));
    if (representatives < n) | ((offsets < n) | short_bytes) {
        return Err(Refusal::TooShort.at(0));
    }
    Ok(())
}

// Writes the value to every cell. No plainer without: the promise of the slice's own `fill` is several clauses, and this one equation.
pub fn fill(cells: &mut [u8], value: u8)
    ensures { cells.new ≡ replicate (length cells.old) value }
{
    cells.fill(value);
}
