// One frame into the tables: its refusals after the records read so far, and its record stored; and tables of records copied. Public for
// the crate `reader`.

#![tactic(auto)]

ghost use Rattle.frames.specs.Rows.{NoneRead};

pub mod copy;
pub mod store;
pub mod take;

use tables::{PropositionRow, QuestionRow, TermRow};
use types::{Counts, MOST};

// How many records are read so far, and rows for the most, which hold them in front.
#[derive(Drop)]
pub struct ReadRows {
    pub counts: Counts,
    pub terms: [TermRow; MOST],
    pub propositions: [PropositionRow; MOST],
    pub questions: [QuestionRow; MOST],
}

impl ReadRows {
    // No records.
    pub fn new() -> ReadRows
        ensures { NoneRead result }
    {
        ReadRows {
            counts: Counts {
                terms: 0,
                propositions: 0,
                questions: 0,
            },
            terms: [[0; 3]; MOST],
            propositions: [[0; 4]; MOST],
            questions: [[0; 3]; MOST],
        }
    }
}
