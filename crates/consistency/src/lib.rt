// The verdict on the kept propositions of a set, by congruence closure: a union-find with offsets, joined along the kept equalities
// and then wherever two dereferences read one address.

#![tactic(auto)]

mod equalities;
mod facts;

ghost use Rattle.std.specs.Prelude.{◌≡◌, ◌≤◌, length};
ghost use Rattle.tables.specs.Sets.{set_of, AcceptedSet};
ghost use Rattle.consistency.specs.Deciding.{Decided};

use congruence::close;
use facts::Labelling;
use tables::{PropositionRow, TermRow};
use unionfind::{Forest, reset};

// An accepted set, of whose propositions those that are marked are kept.
#[derive(Clone, Copy)]
struct Kept<'a> {
    terms: &'a [TermRow],
    propositions: &'a [PropositionRow],
    marks: &'a [u8],
    ghost accepted: { AcceptedSet (set_of terms.now propositions.now) },
    ghost marked: { length propositions.now ≤ length marks.now },
}

// Whether the propositions that are marked are consistent. If they are, the labels are the closure's; else what is left in them is not
// told. Public for the crates `blame` and `solver`.
pub fn is_consistent(
    terms: &[TermRow],
    propositions: &[PropositionRow],
    marks: &[u8],
    representatives: &mut [u32],
    offsets: &mut [i64],
) -> bool
    requires accepted_set { AcceptedSet (set_of terms.now propositions.now) × (length propositions.now ≤ length marks.now) }
    requires representatives_len { (length representatives.old ≡ length terms.now) × (length offsets.old ≡ length terms.now) }
    ensures { Decided (set_of terms.now propositions.now) marks.now representatives.new offsets.new result }
{
    let kept = Kept {
        terms,
        propositions,
        marks,
    };
    reset(representatives, offsets);
    let mut forest = Forest {
        parents: representatives,
        offsets,
    };
    if !kept.join_equalities(&mut forest) {
        return false;
    }
    if !close(terms, &mut forest) {
        return false;
    }
    let labels = Labelling {
        representatives,
        offsets,
    };
    !kept.any_refuted(&labels) && !kept.variables_meet(&labels)
}
