// One number for all that a call returns, and for a choice that it takes, for programs in C. Public for the crate `bucketmonk_c`.
// Functions and no `From`: neither `usize` nor what they take or give is a type of this crate.

#![tactic(auto)]

ghost use Rattle.std.specs.Prelude.{◌≤◌, ◌≡◌};
ghost use Rattle.types.specs.Numbers.{number_of_refusal};
ghost use Rattle.numbers.specs.Numbers.{number_of_solved, number_of_read, blame_of_number};

use types::{Blame, Counts, Fault, Refusal, Verdict};

// The number of a refusal, as wide as a result.
fn number_of(r: Refusal) -> usize
    ensures { (result ≡ number_of_refusal r) × (result ≤ 10) }
{
    usize::from(u8::from(r))
}

// The number of what a call returns.
pub fn solved_number(s: Result<Verdict, Fault>) -> usize
    ensures { result ≡ number_of_solved s }
{
    match s {
        Ok(Verdict::Satisfiable) => 0,
        Ok(Verdict::Contradiction) => 1,
        Err(fault) => 65536 * number_of(fault.refusal) + fault.place % 65536,
    }
}

// The number of what `read` returns.
pub fn read_number(r: Result<Counts, Fault>) -> usize
    ensures { result ≡ number_of_read r }
{
    match r {
        Ok(counts) => {
            let terms = counts.terms % 65536;
            let propositions = counts.propositions % 65536;
            let questions = counts.questions % 65536;
            4294967296 * terms + 65536 * propositions + questions
        }
        Err(fault) => { 281474976710656 * number_of(fault.refusal) + fault.place % 281474976710656 }
    }
}

// Whether a number asks for blame: 0 does not, every other does.
pub fn blame_of(number: usize) -> Blame
    ensures { result ≡ blame_of_number number }
{
    if number == 0 {
        return Blame::NotAsked;
    }
    Blame::Asked
}
