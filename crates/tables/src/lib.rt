// The rows of the tables: fields of 64 bits, offsets in two's complement. The two functions of each table are the only ones that know
// its layout: one reads a row into a record, one makes a row of a record. No `From`: rows are arrays, as in the C interface, and the rows
// of two tables are one type. Public for the crates
// `lastlook`, `joins`, `congruence`, `consistency`, `placing`, `columns`, `refusals` and `frames`; the types of rows for all that hand them on.

#![tactic(auto)]

pub mod atoms;

ghost use Rattle.std.specs.Prelude.{◌≡◌, ◌<◌, length};
ghost use Rattle.tables.specs.Rows.{term_in, row_of_term, proposition_in, row_of_proposition, question_in, row_of_question};

use offsets::{bits, signed};
use types::{
    PropositionNumber, PropositionRecord, QuestionNumber, QuestionRecord, TermNumber, TermRecord,
};

// kind, number, offset
pub type TermRow = [u64; 3];

// kind, left, offset, right
pub type PropositionRow = [u64; 4];

// left, offset, right
pub type QuestionRow = [u64; 3];

pub fn term_at(terms: &[TermRow], t: TermNumber) -> TermRecord
    requires { t.0 < length terms.now }
    ensures { result ≡ term_in terms.now t.0 }
{
    let [kind, number, offset] = terms[t.0];
    TermRecord {
        kind,
        number,
        offset: signed(offset),
    }
}

pub fn term_row(r: TermRecord) -> TermRow
    ensures { result ≡ row_of_term r }
{
    [r.kind, r.number, bits(r.offset)]
}

pub fn proposition_at(propositions: &[PropositionRow], p: PropositionNumber) -> PropositionRecord
    requires { p.0 < length propositions.now }
    ensures { result ≡ proposition_in propositions.now p.0 }
{
    let [kind, left, offset, right] = propositions[p.0];
    PropositionRecord {
        kind,
        left,
        offset: signed(offset),
        right,
    }
}

pub fn proposition_row(r: PropositionRecord) -> PropositionRow
    ensures { result ≡ row_of_proposition r }
{
    [r.kind, r.left, bits(r.offset), r.right]
}

pub fn question_at(questions: &[QuestionRow], q: QuestionNumber) -> QuestionRecord
    requires { q.0 < length questions.now }
    ensures { result ≡ question_in questions.now q.0 }
{
    let [left, offset, right] = questions[q.0];
    QuestionRecord {
        left,
        offset: signed(offset),
        right,
    }
}

pub fn question_row(r: QuestionRecord) -> QuestionRow
    ensures { result ≡ row_of_question r }
{
    [r.left, bits(r.offset), r.right]
}
