// The kept facts that labels can contradict: disequalities, block disequalities, and variables in one class. Loops go over the numbers of
// rows, by which labels and marks are read, too.
ghost use Rattle.std.specs.Prelude.{◌≡◌, ◌<◌, length};
ghost use Rattle.integers.specs.Within.{Within};
ghost use Rattle.labels.specs.Spread.{far};
ghost use Rattle.labels.specs.View.{view};
ghost use Rattle.closure.specs.Facts.{comparison};
ghost use Rattle.closure.specs.Verdict.{holds as labelsHold};
ghost use Rattle.tables.specs.Rows.{term_in, proposition_in};
ghost use Rattle.joins.specs.Labels.{Columns};
ghost use Rattle.consistency.specs.Deciding.{Judged, Refuted, Meets};

use crate::Kept;
use offsets::{is_same, sum};
use tables::{proposition_at, term_at};
use types::{BLOCK_DISEQUALITY, DISEQUALITY, MOST, PropositionNumber, TermNumber, VARIABLE};

// The labels in columns: by term the representative of its class, and its offset from there.
#[derive(Clone, Copy)]
pub(crate) struct Labelling<'a> {
    pub(crate) representatives: &'a [u32],
    pub(crate) offsets: &'a [i64],
    pub(crate) ghost columns: { Columns representatives.now offsets.now },
}

impl<'a> Labelling<'a> {
    // Whether the labels say a = z + b.
    fn holds(&self, a: TermNumber, z: i64, b: TermNumber) -> bool
        requires in_bounds { (a.0 < length self.now.representatives.now) × (b.0 < length self.now.representatives.now) }
        requires z_within { Within far z }
        ensures { result ≡ labelsHold (view self.now.representatives.now self.now.offsets.now) (comparison a.0 z b.0) }
    {
        if self.representatives[a.0] != self.representatives[b.0] {
            return false;
        }
        is_same(self.offsets[a.0], sum(z, self.offsets[b.0]))
    }
}

impl<'a> Kept<'a> {
    // Whether the labels contradict proposition p, if it is a kept disequality or block disequality.
    fn is_refuted(&self, labels: &Labelling, p: PropositionNumber) -> bool
        requires in_bounds { (length labels.now.representatives.now ≡ length self.now.terms.now) × (p.0 < length self.now.propositions.now) }
        ensures { Judged (proposition_in self.now.propositions.now) self.now.marks.now (view labels.now.representatives.now labels.now.offsets.now) p.0 result }
    {
        if self.marks[p.0] == 0 {
            return false;
        }
        let r = proposition_at(self.propositions, p);
        let left = r.left as usize;
        let right = r.right as usize;
        if r.kind == DISEQUALITY {
            return labels.holds(TermNumber(left), r.offset, TermNumber(right));
        }
        if r.kind == BLOCK_DISEQUALITY {
            return labels.representatives[left] == labels.representatives[right];
        }
        false
    }

    // Whether the labels contradict a kept disequality or block disequality.
    pub(crate) fn any_refuted(&self, labels: &Labelling) -> bool
        requires { length labels.now.representatives.now ≡ length self.now.terms.now }
        ensures { Refuted (length self.now.propositions.now) (proposition_in self.now.propositions.now) self.now.marks.now (view labels.now.representatives.now labels.now.offsets.now) result }
    {
        for p in 0..self.propositions.len() {
            if self.is_refuted(labels, PropositionNumber(p)) {
                return true;
            }
        }
        false
    }

    // Whether two variables are in one class.
    pub(crate) fn variables_meet(&self, labels: &Labelling) -> bool
        requires { length labels.now.representatives.now ≡ length self.now.terms.now }
        ensures { Meets (length self.now.terms.now) (term_in self.now.terms.now) labels.now.representatives.now result }
    {
        let mut seen = [false; MOST];
        for t in 0..self.terms.len() {
            let r = term_at(self.terms, TermNumber(t));
            if r.kind != VARIABLE {
                continue;
            }
            let class = labels.representatives[t] as usize;
            let met = seen[class];
            if met {
                return true;
            }
            seen[class] = true;
        }
        false
    }
}
