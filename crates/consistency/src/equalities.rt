// The kept equalities, joined. The loop goes over the numbers of rows, by which marks are read, too.
ghost use Rattle.std.specs.Prelude.{◌<◌, length};
ghost use Rattle.unionfind.specs.Forest.{flat};
ghost use Rattle.unionfind.specs.Lent.{SameColumns};
ghost use Rattle.consistency.specs.KeptSet.{set_in};
ghost use Rattle.consistency.specs.Live.{Live, Advanced, Equalities};

use crate::Kept;
use tables::proposition_at;
use types::{EQUALITY, PropositionNumber, TermNumber};
use unionfind::{Forest, Joining};

impl<'a> Kept<'a> {
    // Joins proposition p, if it is a kept equality; tells whether the labels agree with it.
    fn join_equality(&self, forest: &mut Forest, p: PropositionNumber) -> bool
        requires live { Live (set_in self.now) self.now.marks.now forest.old.parents.now forest.old.offsets.now }
        requires p_in_bounds { p.0 < length self.now.propositions.now }
        ensures same_columns { SameColumns forest.old forest.new }
        ensures advanced { Advanced (set_in self.now) self.now.marks.now (flat forest.old.parents.now forest.old.offsets.now) forest.new.parents.now forest.new.offsets.now p.0 result }
    {
        if self.marks[p.0] == 0 {
            return true;
        }
        let r = proposition_at(self.propositions, p);
        if r.kind != EQUALITY {
            return true;
        }
        let a = TermNumber(r.left as usize);
        let b = TermNumber(r.right as usize);
        forest.join(a, r.offset, b) != Joining::Clashed
    }

    // Joins the kept equalities; tells whether the labels agree with all of them.
    pub(crate) fn join_equalities(&self, forest: &mut Forest) -> bool
        requires { Live (set_in self.now) self.now.marks.now forest.old.parents.now forest.old.offsets.now }
        ensures same_columns { SameColumns forest.old forest.new }
        ensures equalities { Equalities (set_in self.now) self.now.marks.now forest.new.parents.now forest.new.offsets.now (length self.now.propositions.now) result }
    {
        for p in 0..self.propositions.len() {
            if !self.join_equality(forest, PropositionNumber(p)) {
                return false;
            }
        }
        true
    }
}
