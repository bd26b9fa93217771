// The blame for a contradiction. Public for the crate `solver`. The set, the marks and the labels are parameters of their own, since
// `is_consistent` takes them so: a struct would be taken apart at each call.

#![tactic(auto)]

ghost use Rattle.std.specs.Prelude.{◌≡◌, false, suc, ◌-◌, ◌<◌, ◌≤◌, length};
ghost use Rattle.outcome.specs.Outcome.{marks_if};
ghost use Rattle.tables.specs.Sets.{set_of};
ghost use Rattle.blame.specs.Kept.{AllKept};
ghost use Rattle.blame.specs.Runs.{set_run};
ghost use Rattle.blame.specs.Blaming.{MarkedSet, is_droppable, tried_run, BlamedIn, marks_of_blame};

use consistency::is_consistent;
use memory::fill;
use tables::{PropositionRow, TermRow};
use types::{Blame, PropositionNumber};

// Writes the value to the marks with the numbers from..to.
fn write_run(marks: &mut [u8], from: usize, to: usize, value: u8)
    requires { (from ≤ to) × (to ≤ length marks.old) }
    ensures { marks.new ≡ set_run marks.old from to value }
{
    fill(&mut marks[from..to], value);
}

// Drops the propositions from..to, if those kept without them are contradictory, and tells whether it did. The labels are memory to
// work in.
fn drop_run(
    terms: &[TermRow],
    propositions: &[PropositionRow],
    marks: &mut [u8],
    representatives: &mut [u32],
    offsets: &mut [i64],
    from: usize,
    to: usize,
) -> bool
    requires marked_set { MarkedSet (set_of terms.now propositions.now) marks.old representatives.old offsets.old }
    requires from_le_to { (from ≤ to) × (to ≤ length propositions.now) × AllKept marks.old to }
    ensures { let S = set_of terms.now propositions.now in
        (result ≡ is_droppable S marks.old from to) × (marks.new ≡ tried_run S marks.old from to) }
{
    write_run(marks, from, to, 0);
    if !is_consistent(terms, propositions, marks, representatives, offsets) {
        return true;
    }
    write_run(marks, from, to, 1);
    false
}

// The highest of the propositions from..to that can't be dropped, found by halving; those above it are dropped. They can't all be dropped
// at once.
fn find_blamed(
    terms: &[TermRow],
    propositions: &[PropositionRow],
    marks: &mut [u8],
    representatives: &mut [u32],
    offsets: &mut [i64],
    from: usize,
    to: usize,
) -> PropositionNumber
    requires marked_set { MarkedSet (set_of terms.now propositions.now) marks.old representatives.old offsets.old }
    requires from_lt_to { (from < to) × (to ≤ length propositions.now) × AllKept marks.old to }
    requires to_value { is_droppable (set_of terms.now propositions.now) marks.old from to ≡ false }
    ensures { BlamedIn (set_of terms.now propositions.now) marks.old to marks.new result.0 (suc result.0) }
{
    let mut low = from;
    let mut high = to;
    while 1 < high - low {
        let mid = low + (high - low) / 2;
        if drop_run(
            terms,
            propositions,
            marks,
            representatives,
            offsets,
            mid,
            high,
        ) {
            high = mid;
        } else {
            low = mid;
        }
    }
    PropositionNumber(low)
}

// Marks the blamed propositions of a contradictory set: from the highest number down, each that can be dropped is. They are tried in
// runs: a run that is dropped is followed by one of twice its length, and a blamed proposition by a run of one.
fn blame_marks(
    terms: &[TermRow],
    propositions: &[PropositionRow],
    marks: &mut [u8],
    representatives: &mut [u32],
    offsets: &mut [i64],
)
    requires marked_set { MarkedSet (set_of terms.now propositions.now) marks.old representatives.old offsets.old }
    requires all_kept { AllKept marks.old (length propositions.now) }
    ensures { marks.new ≡ marks_of_blame (set_of terms.now propositions.now) }
{
    let mut k = propositions.len();
    let mut run = 1;
    while 0 < k {
        let low = k.saturating_sub(run);
        if drop_run(terms, propositions, marks, representatives, offsets, low, k) {
            run = 2 * (k - low);
            k = low;
        } else {
            k = find_blamed(terms, propositions, marks, representatives, offsets, low, k).0;
            run = 1;
        }
    }
}

// Writes the marks of a contradictory set: 1 for each blamed proposition if blame is asked for, all others 0. The labels are memory to
// work in.
pub fn write_marks(
    blame: Blame,
    terms: &[TermRow],
    propositions: &[PropositionRow],
    marks: &mut [u8],
    representatives: &mut [u32],
    offsets: &mut [i64],
)
    requires marked_set { MarkedSet (set_of terms.now propositions.now) marks.old representatives.old offsets.old }
    requires all_kept { AllKept marks.old (length propositions.now) }
    ensures { marks.new ≡ marks_if blame (marks_of_blame (set_of terms.now propositions.now)) }
{
    match blame {
        Blame::Asked => blame_marks(terms, propositions, marks, representatives, offsets),
        Blame::NotAsked => fill(marks, 0),
    }
}
