// Joins of dereferences: one is looked up by the address that it reads, and joined with what is found there. Each join is tested where
// it is made; where to look is noted in `uselists`. Public for the crate `congruence`.

#![tactic(auto)]

ghost use Rattle.std.specs.Prelude.{◌<◌, pos, length};
ghost use Rattle.integers.specs.Within.{Within};
ghost use Rattle.tables.specs.Limits.{offset_limit};
ghost use Rattle.tables.specs.Rows.{term_in};
ghost use Rattle.tables.specs.TermTable.{AcceptedTerms};
ghost use Rattle.unionfind.specs.Forest.{Equated};
ghost use Rattle.unionfind.specs.Lent.{SameColumns};
ghost use Rattle.joins.specs.Labels.{Labels};
ghost use Rattle.joins.specs.Meeting.{Addressed, Reads, Chased};

use offsets::sum;
use tables::{TermRow, term_at};
use types::{DEREF, TermNumber, TermRecord};
use unionfind::{Forest, Joining, Root};
use uselists::UseLists;

// The class and the address that a dereference reads.
fn address(forest: &mut Forest, r: TermRecord) -> Root
    requires labels { Labels (length forest.old.parents.now) forest.old.parents.now forest.old.offsets.now }
    requires in_bounds { (r.number < length forest.old.parents.now) × Within offset_limit r.offset }
    ensures same_columns { SameColumns forest.old forest.new }
    ensures addressed { Addressed forest.old.parents.now forest.old.offsets.now forest.new.parents.now forest.new.offsets.now r result }
{
    let inner = forest.find(TermNumber(r.number as usize));
    Root {
        term: inner.term,
        offset: sum(r.offset, inner.offset),
    }
}

// Whether y is a dereference that reads this address.
fn reads(terms: &[TermRow], forest: &mut Forest, y: TermNumber, at: Root) -> bool
    requires accepted { AcceptedTerms (length terms.now) (term_in terms.now) }
    requires labels { Labels (length terms.now) forest.old.parents.now forest.old.offsets.now }
    requires y_in_bounds { y.0 < length terms.now }
    ensures same_columns { SameColumns forest.old forest.new }
    ensures reads { Reads (term_in terms.now) forest.old.parents.now forest.old.offsets.now forest.new.parents.now forest.new.offsets.now y.0 at result }
{
    let r = term_at(terms, y);
    r.kind == DEREF && address(forest, r) == at
}

// Joins x and y, and their uses.
fn merge(forest: &mut Forest, uses: &mut UseLists, x: TermNumber, y: TermNumber) -> Joining
    requires labels { Labels (length forest.old.parents.now) forest.old.parents.now forest.old.offsets.now }
    requires in_bounds { (x.0 < length forest.old.parents.now) × (y.0 < length forest.old.parents.now) }
    ensures same_columns { SameColumns forest.old forest.new }
    ensures equated { Equated forest.old.parents.now forest.old.offsets.now forest.new.parents.now forest.new.offsets.now x.0 (pos 0) y.0 result }
{
    let a = forest.find(x);
    let b = forest.find(y);
    uses.join_uses(a, b);
    forest.join_found(a, 0, b)
}

// Looks x up by the address that it reads, and joins it with what is found there; tells whether they do not clash.
pub fn step(terms: &[TermRow], forest: &mut Forest, uses: &mut UseLists, x: TermNumber) -> bool
    requires accepted { AcceptedTerms (length terms.now) (term_in terms.now) }
    requires labels { Labels (length terms.now) forest.old.parents.now forest.old.offsets.now }
    requires x_in_bounds { x.0 < length terms.now }
    ensures same_columns { SameColumns forest.old forest.new }
    ensures chased { Chased (length terms.now) (term_in terms.now) forest.old.parents.now forest.old.offsets.now forest.new.parents.now forest.new.offsets.now result }
{
    let r = term_at(terms, x);
    if r.kind != DEREF {
        return true;
    }
    let at = address(forest, r);
    let Some(y) = uses.look_up(at, x) else {
        return true;
    };
    if terms.len() <= y.0 {
        return true;
    }
    if !reads(terms, forest, y, at) {
        return true;
    }
    merge(forest, uses, x, y) != Joining::Clashed
}
