// The record of an accepted frame, stored after those read so far.
ghost use Rattle.std.specs.Prelude.{◌<◌};
ghost use Rattle.tables.specs.Limits.{most};
ghost use Rattle.frames.specs.Taking.{group_count};
ghost use Rattle.frames.specs.Rows.{rows_of, Stored};

use crate::ReadRows;
use lines::Frame;
use tables::{proposition_row, question_row, term_row};

impl ReadRows {
    pub fn store(&mut self, frame: Frame)
        requires { group_count self.old.counts (Some frame) < most }
        ensures { Stored self.old.counts frame (rows_of self.old) self.new.counts (rows_of self.new) }
    {
        match frame {
            Frame::Term(t) => {
                self.terms[self.counts.terms] = term_row(t);
                self.counts.terms += 1;
            }
            Frame::Proposition(p) => {
                self.propositions[self.counts.propositions] = proposition_row(p);
                self.counts.propositions += 1;
            }
            Frame::Question(q) => {
                self.questions[self.counts.questions] = question_row(q);
                self.counts.questions += 1;
            }
        }
    }
}
