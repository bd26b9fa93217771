// The solver, the reader and the program's output for programs in C. The header is include/bucketmonk.h.

#![tactic(auto)]

ghost use Rattle.std.specs.Prelude.{◌≡◌};
ghost use Rattle.tables.specs.Memory.{memory_of};
ghost use Rattle.tables.specs.TableFaults.{tables_of};
ghost use Rattle.solver.specs.Call.{unasked, verdict_of};
ghost use Rattle.frames.specs.Rows.{rows};
ghost use Rattle.reader.specs.Answers.{part_at_fault};
ghost use Rattle.driver.specs.Within.{WritesOutput};
ghost use Rattle.numbers.specs.Numbers.{number_of_solved, blame_of_number};
ghost use Rattle.results.specs.Results.{AnsweredNumber, ReadNumber};

use driver::write_output;
use numbers::{blame_of, read_number, solved_number};
use reader::{faulty_part, read};
use solver::{solve, verdict};
use tables::{PropositionRow, QuestionRow, TermRow};

// `solve`, with the number of what it returns; 0 for `blame` does not ask for blame, any other number does.
#[unsafe(no_mangle)]
pub extern "C" fn bucketmonk_solve(
    n: usize,
    terms: &[TermRow],
    m: usize,
    propositions: &[PropositionRow],
    q: usize,
    questions: &[QuestionRow],
    blame: usize,
    representatives: &mut [u32],
    offsets: &mut [i64],
    marks: &mut [u8],
    pairs: &mut [u8],
    answers: &mut [u8],
) -> usize
    ensures { let T = tables_of n terms.now m propositions.now q questions.now in
        let M = memory_of representatives.old offsets.old marks.old pairs.old answers.old in
        let N = memory_of representatives.new offsets.new marks.new pairs.new answers.new in
        AnsweredNumber (blame_of_number blame) T M N result }
{
    solved_number(solve(
        n,
        terms,
        m,
        propositions,
        q,
        questions,
        blame_of(blame),
        representatives,
        offsets,
        marks,
        pairs,
        answers,
    ))
}

// `verdict`, with the number of what it returns.
#[unsafe(no_mangle)]
pub extern "C" fn bucketmonk_verdict(
    n: usize,
    terms: &[TermRow],
    m: usize,
    propositions: &[PropositionRow],
) -> usize
    ensures { result ≡ number_of_solved (verdict_of (unasked n terms.now m propositions.now)) }
{
    let found = verdict(n, terms, m, propositions);
    solved_number(found)
}

// `read`, with the number of what it returns.
#[unsafe(no_mangle)]
pub extern "C" fn bucketmonk_read(
    text: &[u8],
    terms: &mut [TermRow],
    propositions: &mut [PropositionRow],
    questions: &mut [QuestionRow],
) -> usize
    ensures { let C = rows terms.old propositions.old questions.old in
        let D = rows terms.new propositions.new questions.new in
        ReadNumber text.now C result D }
{
    let found = read(text, terms, propositions, questions);
    read_number(found)
}

// `faulty_part`: its length, and its start in the lent cell.
#[unsafe(no_mangle)]
pub extern "C" fn bucketmonk_faulty_line(
    text: &[u8],
    terms: usize,
    propositions: usize,
    questions: usize,
    start: &mut usize,
) -> usize
    ensures { let part = part_at_fault text.now terms propositions questions in
        (result ≡ part.size) × (start.new ≡ part.start) }
{
    let part = faulty_part(text, terms, propositions, questions);
    *start = part.start;
    part.size
}

// What the program writes for a text, in a buffer.
#[unsafe(no_mangle)]
pub extern "C" fn bucketmonk_output(text: &[u8], out: &mut [u8]) -> usize
    ensures { WritesOutput text.now out.old result out.new }
{
    write_output(text, out)
}
