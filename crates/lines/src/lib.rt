// What one line of hexadecimal says, whatever stands in the other lines. Public for the crates `frames` and `reader`.

#![tactic(auto)]

pub mod line;

use types::{PropositionRecord, QuestionRecord, TermRecord};

// What a well-formed line says.
#[derive(Clone, Copy)]
pub enum Frame {
    Term(TermRecord),
    Proposition(PropositionRecord),
    Question(QuestionRecord),
}
