// The rows that were read, copied to the front of the caller's.
ghost use Rattle.std.specs.Prelude.{◌≡◌};
ghost use Rattle.frames.specs.Rows.{rows};
ghost use Rattle.frames.specs.Copying.{RoomFor, copied};

use tables::{PropositionRow, QuestionRow, TermRow};
use types::Counts;

// The counted rows of all three tables. The rows are the caller's, each table lent on its own, as the C interface lends them.
pub fn copy_rows(
    counts: Counts,
    own_terms: &[TermRow],
    own_propositions: &[PropositionRow],
    own_questions: &[QuestionRow],
    terms: &mut [TermRow],
    propositions: &mut [PropositionRow],
    questions: &mut [QuestionRow],
)
    requires room_for { RoomFor counts (rows own_terms.now own_propositions.now own_questions.now) }
    requires room_for_2 { RoomFor counts (rows terms.old propositions.old questions.old) }
    ensures { let own = rows own_terms.now own_propositions.now own_questions.now in
        let C = rows terms.old propositions.old questions.old in
        rows terms.new propositions.new questions.new ≡ copied counts own C }
{
    terms[..counts.terms].copy_from_slice(&own_terms[..counts.terms]);
    propositions[..counts.propositions].copy_from_slice(&own_propositions[..counts.propositions]);
    questions[..counts.questions].copy_from_slice(&own_questions[..counts.questions]);
}
