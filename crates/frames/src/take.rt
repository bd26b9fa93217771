// A judged frame after the records read so far.
ghost use Rattle.std.specs.Prelude.{◌≡◌, List, ◌≤◌, leb, length, Some, IfOk};
ghost use Rattle.tables.specs.Limits.{most};
ghost use Rattle.tables.specs.Records.{is_same_atom};
ghost use Rattle.lists.specs.Search.{any};
ghost use Rattle.tables.specs.QuestionTable.{asked};
ghost use Rattle.text.specs.Reading.{Records, frame_fault};
ghost use Rattle.text.specs.Frames.{term, proposition, question};
ghost use Rattle.lines.specs.Meaning.{meaning};
ghost use Rattle.frames.specs.Taking.{Listing, Counted, Took, group_count, refusal_of, frame_refusal};

use lines::Frame;
use tables::atoms::same_atom;
use tables::{TermRow, term_at};
use types::{
    Counts, DEREF, MOST, PropositionRecord, QuestionRecord, Refusal, TermNumber, TermRecord,
};

// One of the first `count` records is of the same atom. A loop: with `any` over the numbers the proof did not close (what the closure
// answered for each number stayed unknown).
fn listed(t: TermRecord, count: usize, terms: &[TermRow]) -> bool
    requires { count ≤ length terms.now }
    ensures { (rs : List TermRecord) → count ≡ length rs → Listing terms.now rs → result ≡ any (is_same_atom t) rs }
{
    for k in 0..count {
        if same_atom(t, term_at(terms, TermNumber(k))) {
            return true;
        }
    }
    false
}

// No term of so many has this number.
fn is_unlisted(number: u64, terms: usize) -> bool
    ensures { result ≡ leb terms number }
{
    terms <= number as usize
}

fn take_term(t: TermRecord, counts: Counts, terms: &[TermRow]) -> Result<(), Refusal>
    requires { most ≤ length terms.now }
    ensures { Took counts.terms result
        ((R : Records) → Counted counts R → Listing terms.now R.terms → refusal_of result ≡ frame_fault R (term t)) }
{
    if 0 < counts.propositions {
        return Err(Refusal::GroupOrder);
    }
    if 0 < counts.questions {
        return Err(Refusal::GroupOrder);
    }
    if MOST <= counts.terms {
        return Err(Refusal::TooManyTerms);
    }
    if t.kind == DEREF {
        if is_unlisted(t.number, counts.terms) {
            return Err(Refusal::InnerNotListed);
        }
        return Ok(());
    }
    if listed(t, counts.terms, terms) {
        return Err(Refusal::AtomListedTwice);
    }
    Ok(())
}

fn take_proposition(p: PropositionRecord, counts: Counts) -> Result<(), Refusal>
    ensures { Took counts.propositions result
        ((R : Records) → Counted counts R → refusal_of result ≡ frame_fault R (proposition p)) }
{
    if 0 < counts.questions {
        return Err(Refusal::GroupOrder);
    }
    if MOST <= counts.propositions {
        return Err(Refusal::TooManyPropositions);
    }
    if is_unlisted(p.left, counts.terms) | is_unlisted(p.right, counts.terms) {
        return Err(Refusal::PropositionTermNotListed);
    }
    Ok(())
}

fn take_question(q: QuestionRecord, counts: Counts) -> Result<(), Refusal>
    ensures { Took counts.questions result
        ((R : Records) → Counted counts R → refusal_of result ≡ frame_fault R (question (asked q))) }
{
    if MOST <= counts.questions {
        return Err(Refusal::TooManyQuestions);
    }
    if is_unlisted(q.left, counts.terms) | is_unlisted(q.right, counts.terms) {
        return Err(Refusal::QuestionTermNotListed);
    }
    Ok(())
}

// A frame after the records R read so far: the counts are theirs, and the rows start with their terms. A line that holds none is refused.
pub fn take_frame(frame: Option<Frame>, counts: Counts, terms: &[TermRow]) -> Result<Frame, Refusal>
    requires { most ≤ length terms.now }
    ensures took { Took (group_count counts frame) result
        ((R : Records) → Counted counts R → Listing terms.now R.terms → refusal_of result ≡ frame_refusal R (meaning frame)) }
    ensures accepted { IfOk result (λ accepted. frame ≡ Some accepted) }
{
    let frame = frame.ok_or(Refusal::Malformed)?;
    match frame {
        Frame::Term(t) => take_term(t, counts, terms)?,
        Frame::Proposition(p) => take_proposition(p, counts)?,
        Frame::Question(q) => take_question(q, counts)?,
    }
    Ok(frame)
}
