// Congruence closure: dereferences of one address are joined until all agree. The last look shows that none is left. Where to look first
// is noted in `uselists`.

#![tactic(auto)]

ghost use Rattle.std.specs.Prelude.{length};
ghost use Rattle.labels.specs.View.{view};
ghost use Rattle.tables.specs.Rows.{term_in};
ghost use Rattle.tables.specs.TermTable.{AcceptedTerms};
ghost use Rattle.unionfind.specs.Lent.{SameColumns};
ghost use Rattle.lastlook.specs.Addresses.{Labelled, Looked};
ghost use Rattle.joins.specs.Labels.{Labels};
ghost use Rattle.joins.specs.Meeting.{Chased};
ghost use Rattle.congruence.specs.Closing.{Closing};

use joins::step;
use lastlook::unequal_pair;
use tables::{TermRow, term_at};
use types::{DEREF, TermNumber};
use unionfind::{Forest, Joining};
use uselists::UseLists;

// The looks at terms before the last look.
const LOOKS: usize = 8192;

// Looks at one term after another, as the notes lead, until none is left, or two clash, or so many were looked at.
fn chase(terms: &[TermRow], forest: &mut Forest) -> bool
    requires accepted { AcceptedTerms (length terms.now) (term_in terms.now) }
    requires labels { Labels (length terms.now) forest.old.parents.now forest.old.offsets.now }
    ensures same_columns { SameColumns forest.old forest.new }
    ensures chased { Chased (length terms.now) (term_in terms.now) forest.old.parents.now forest.old.offsets.now forest.new.parents.now forest.new.offsets.now result }
{
    let mut uses = UseLists::new();
    for _ in 0..LOOKS {
        let x = uses.next_term();
        if terms.len() <= x.0 {
            return true;
        }
        if !step(terms, forest, &mut uses, x) {
            return false;
        }
    }
    true
}

// Whether there are dereferences. Rows are read by their numbers: only `tables` knows their layout.
fn any_dereference(terms: &[TermRow]) -> bool {
    for t in 0..terms.len() {
        if term_at(terms, TermNumber(t)).kind == DEREF {
            return true;
        }
    }
    false
}

// Joins dereferences of one address as the notes lead to them; tells whether no two clash.
fn propagate(terms: &[TermRow], forest: &mut Forest) -> bool
    requires accepted { AcceptedTerms (length terms.now) (term_in terms.now) }
    requires labels { Labels (length terms.now) forest.old.parents.now forest.old.offsets.now }
    ensures same_columns { SameColumns forest.old forest.new }
    ensures chased { Chased (length terms.now) (term_in terms.now) forest.old.parents.now forest.old.offsets.now forest.new.parents.now forest.new.offsets.now result }
{
    if !any_dereference(terms) {
        return true;
    }
    chase(terms, forest)
}

// The last look, at links that lead to the roots.
fn look(terms: &[TermRow], forest: &Forest) -> Option<(TermNumber, TermNumber)>
    requires { Labelled terms.now forest.now.parents.now forest.now.offsets.now }
    ensures { Looked (length terms.now) (term_in terms.now) (view forest.now.parents.now forest.now.offsets.now) result }
{
    unequal_pair(terms, forest.parents, forest.offsets)
}

// Joins what the last look finds until it finds nothing; or two of one class that differ.
fn settle(terms: &[TermRow], forest: &mut Forest) -> bool
    requires accepted { AcceptedTerms (length terms.now) (term_in terms.now) }
    requires labels { Labels (length terms.now) forest.old.parents.now forest.old.offsets.now }
    ensures same_columns { SameColumns forest.old forest.new }
    ensures closing { Closing (length terms.now) (term_in terms.now) forest.old.parents.now forest.old.offsets.now forest.new.parents.now forest.new.offsets.now result }
{
    loop {
        forest.flatten();
        let found = look(terms, forest);
        let Some((x, y)) = found else { return true };
        match forest.join(x, 0, y) {
            Joining::Joined => continue,
            // This cannot be, as the two differ.
            Joining::Held => return false,
            Joining::Clashed => return false,
        }
    }
}

// Joins dereferences of one address until all agree, and leaves the labels in the columns; or finds two of one class that differ.
// Public for the crate `consistency`.
pub fn close(terms: &[TermRow], forest: &mut Forest) -> bool
    requires accepted { AcceptedTerms (length terms.now) (term_in terms.now) }
    requires labels { Labels (length terms.now) forest.old.parents.now forest.old.offsets.now }
    ensures same_columns { SameColumns forest.old forest.new }
    ensures closing { Closing (length terms.now) (term_in terms.now) forest.old.parents.now forest.old.offsets.now forest.new.parents.now forest.new.offsets.now result }
{
    propagate(terms, forest) && settle(terms, forest)
}
