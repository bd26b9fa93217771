// The refusals of questions: 9 and 7.
ghost use Rattle.std.specs.Prelude.{◌≡◌, length};
ghost use Rattle.tables.specs.Refusals.{question_fault};
ghost use Rattle.tables.specs.Rows.{question_in};
ghost use Rattle.tables.specs.QuestionTable.{asked, questions_fault};
ghost use Rattle.tables.specs.TableFaults.{acceptance};
ghost use Rattle.refusals.specs.FirstFault.{judged};

use crate::each::judge_each;
use crate::fields::{in_range, unlisted};
use tables::{QuestionRow, question_at};
use types::{Fault, QuestionNumber, QuestionRecord, Refusal};

// Question q, with n terms listed: 9, then 7.
fn judge_question(n: usize, r: QuestionRecord, q: QuestionNumber) -> Result<(), Fault>
    ensures { result ≡ judged q.0 (question_fault n (asked r)) }
{
    if !in_range(r.offset) {
        return Err(Refusal::Malformed.at(q.0));
    }
    if unlisted(n, r.left, r.right) {
        return Err(Refusal::QuestionTermNotListed.at(q.0));
    }
    Ok(())
}

// The first refusal of the questions, with n terms listed.
pub(crate) fn check_questions(n: usize, questions: &[QuestionRow]) -> Result<(), Fault>
    ensures { result ≡ acceptance (questions_fault n (length questions.now) (question_in questions.now)) }
{
    judge_each(questions.len(), |i| {
        let q = QuestionNumber(i);
        judge_question(n, question_at(questions, q), q)
    })
}
