// The solver: tables of rows in, every answer of paper 01 out. The tables and the parts of the lent memory are parameters of their own,
// as the C interface hands them over and as `consistency`, `columns` and `blame` take them: a struct would be taken apart at each call.

#![tactic(auto)]

ghost use Rattle.std.specs.Prelude.{◌≡◌};
ghost use Rattle.tables.specs.Sets.{set_of};
ghost use Rattle.tables.specs.Memory.{memory_of};
ghost use Rattle.tables.specs.TableFaults.{tables_of};
ghost use Rattle.columns.specs.Telling.{questions_in};
ghost use Rattle.solver.specs.Call.{Answered, unasked, verdict_of};
ghost use Rattle.solver.specs.Solving.{AcceptedCall, Solves};

use blame::write_marks;
use columns::tell_differences;
use consistency::is_consistent;
use memory::{check_memory, fill};
use refusals::{check_records, check_sizes, check_tables};
use tables::{PropositionRow, QuestionRow, TermRow};
use types::{Answer, Blame, Fault, MOST, Verdict};
use unionfind::reset;

// Solves an accepted set in lent memory that has just the cells it needs.
fn solve_accepted(
    terms: &[TermRow],
    propositions: &[PropositionRow],
    questions: &[QuestionRow],
    blame: Blame,
    representatives: &mut [u32],
    offsets: &mut [i64],
    marks: &mut [u8],
    pairs: &mut [u8],
    answers: &mut [u8],
) -> Verdict
    requires { let M = memory_of representatives.old offsets.old marks.old pairs.old answers.old in
        AcceptedCall (set_of terms.now propositions.now) questions.now M }
    ensures { let N = memory_of representatives.new offsets.new marks.new pairs.new answers.new in
        Solves blame (set_of terms.now propositions.now) (questions_in questions.now) N result }
{
    fill(marks, 1);
    if is_consistent(terms, propositions, marks, representatives, offsets) {
        fill(marks, 0);
        tell_differences(
            terms,
            propositions,
            questions,
            representatives,
            offsets,
            pairs,
            answers,
        );
        return Verdict::Satisfiable;
    }
    write_marks(blame, terms, propositions, marks, representatives, offsets);
    reset(representatives, offsets);
    fill(pairs, 0);
    fill(answers, u8::from(Answer::Contradictory));
    Verdict::Contradiction
}

// Solves the set and answers the questions that the first n, m and q rows hold, and leaves in the lent memory what paper 01 says; on
// contradiction every mark is 0 unless blame is asked for. Every call is answered: one that is refused changes nothing.
pub fn solve(
    n: usize,
    terms: &[TermRow],
    m: usize,
    propositions: &[PropositionRow],
    q: usize,
    questions: &[QuestionRow],
    blame: Blame,
    representatives: &mut [u32],
    offsets: &mut [i64],
    marks: &mut [u8],
    pairs: &mut [u8],
    answers: &mut [u8],
) -> Result<Verdict, Fault>
    ensures { let T = tables_of n terms.now m propositions.now q questions.now in
        let M = memory_of representatives.old offsets.old marks.old pairs.old answers.old in
        let N = memory_of representatives.new offsets.new marks.new pairs.new answers.new in
        Answered blame T M N result }
{
    check_sizes(n, terms.len(), m, propositions.len(), q, questions.len())?;
    check_memory(
        n,
        m,
        q,
        representatives.len(),
        offsets.len(),
        marks.len(),
        pairs.len(),
        answers.len(),
    )?;
    check_records(&terms[..n], &propositions[..m], &questions[..q])?;
    let size = (n * n + 7) / 8;
    Ok(solve_accepted(
        &terms[..n],
        &propositions[..m],
        &questions[..q],
        blame,
        &mut representatives[..n],
        &mut offsets[..n],
        &mut marks[..m],
        &mut pairs[..size],
        &mut answers[..q],
    ))
}

// The verdict on the set that the first n and m rows hold.
pub fn verdict(
    n: usize,
    terms: &[TermRow],
    m: usize,
    propositions: &[PropositionRow],
) -> Result<Verdict, Fault>
    ensures { result ≡ verdict_of (unasked n terms.now m propositions.now) }
{
    check_tables(n, terms, m, propositions, 0, &[])?;
    let marks = [1u8; MOST];
    let mut reps = [0u32; MOST];
    let mut offs = [0i64; MOST];
    if !is_consistent(
        &terms[..n],
        &propositions[..m],
        &marks,
        &mut reps[..n],
        &mut offs[..n],
    ) {
        return Ok(Verdict::Contradiction);
    }
    Ok(Verdict::Satisfiable)
}
