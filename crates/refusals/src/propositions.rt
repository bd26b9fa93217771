// The refusals of propositions: 9 and 6.
ghost use Rattle.std.specs.Prelude.{◌≡◌, length};
ghost use Rattle.lists.specs.Search.{is_some};
ghost use Rattle.tables.specs.Records.{proposition_of};
ghost use Rattle.tables.specs.Refusals.{proposition_fault};
ghost use Rattle.tables.specs.Rows.{proposition_in};
ghost use Rattle.tables.specs.PropositionTable.{propositions_fault};
ghost use Rattle.tables.specs.TableFaults.{acceptance};
ghost use Rattle.refusals.specs.FirstFault.{judged};

use crate::each::judge_each;
use crate::fields::{in_range, unlisted};
use offsets::is_same;
use tables::{PropositionRow, proposition_at};
use types::{
    BLOCK_DISEQUALITY, DISEQUALITY, EQUALITY, Fault, PropositionNumber, PropositionRecord, Refusal,
};

// Whether a record stands for a proposition, whatever terms it names.
fn is_proposition(r: PropositionRecord) -> bool
    ensures { result ≡ is_some (proposition_of r) }
{
    match r.kind {
        EQUALITY | DISEQUALITY => in_range(r.offset),
        BLOCK_DISEQUALITY => is_same(r.offset, 0),
        _ => false,
    }
}

// Proposition p, with n terms listed: 9, then 6.
fn judge_proposition(n: usize, r: PropositionRecord, p: PropositionNumber) -> Result<(), Fault>
    ensures { result ≡ judged p.0 (proposition_fault n r) }
{
    if !is_proposition(r) {
        return Err(Refusal::Malformed.at(p.0));
    }
    if unlisted(n, r.left, r.right) {
        return Err(Refusal::PropositionTermNotListed.at(p.0));
    }
    Ok(())
}

// The first refusal of the propositions, with n terms listed.
pub(crate) fn check_propositions(n: usize, propositions: &[PropositionRow]) -> Result<(), Fault>
    ensures { result ≡ acceptance (propositions_fault n (length propositions.now) (proposition_in propositions.now)) }
{
    judge_each(propositions.len(), |i| {
        let p = PropositionNumber(i);
        judge_proposition(n, proposition_at(propositions, p), p)
    })
}
