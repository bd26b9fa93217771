// What the program writes for a text: the reader, the solver and the writer one after another.

#![tactic(auto)]

ghost use Rattle.std.specs.Prelude.{◌≡◌, ◌≤◌, length};
ghost use Rattle.std.proofs.Math.Option.{none};
ghost use Rattle.tables.specs.Limits.{most};
ghost use Rattle.tables.specs.TableFaults.{tables_fault};
ghost use Rattle.text.specs.Reading.{reading};
ghost use Rattle.text.specs.Output.{outcome_frames, reading_frames};
ghost use Rattle.text.specs.OutputSize.{largest_output};
ghost use Rattle.frames.specs.Rows.{rows};
ghost use Rattle.reader.specs.Passing.{read_tables};
ghost use Rattle.writer.specs.Appended.{Appended};
ghost use Rattle.solver.specs.Call.{run};
ghost use Rattle.driver.specs.Within.{WritesOutput};

use reader::read;
use solver::solve;
use tables::{PropositionRow, QuestionRow, TermRow};
use types::{Blame, Counts, MOST, PAIR_BYTES, Verdict};
use writer::{put_contradictory_set, put_refusal, put_satisfiable_set};

// The bytes of a text that are judged.
pub const JUDGED: usize = 32768;

// The bytes of the largest output.
pub const LARGEST: usize = 18437;

// Solves the set that accepted tables hold and writes its frames.
fn answer_set(
    counts: Counts,
    terms: &[TermRow],
    propositions: &[PropositionRow],
    questions: &[QuestionRow],
    out: &mut [u8],
) -> usize
    requires questions_value { tables_fault most (read_tables counts (rows terms.now propositions.now questions.now)) ≡ none }
    requires largest_output_in_bounds { largest_output ≤ length out.old }
    ensures { let T = read_tables counts (rows terms.now propositions.now questions.now) in
        Appended out.old 0 (outcome_frames (run T)) out.new result }
{
    let n = counts.terms;
    let m = counts.propositions;
    let q = counts.questions;
    let mut representatives = [0u32; MOST];
    let mut offsets = [0i64; MOST];
    let mut marks = [0u8; MOST];
    let mut pairs = [0u8; PAIR_BYTES];
    let mut answers = [0u8; MOST];
    let Ok(verdict) = solve(
        n,
        terms,
        m,
        propositions,
        q,
        questions,
        Blame::Asked,
        &mut representatives,
        &mut offsets,
        &mut marks,
        &mut pairs,
        &mut answers,
    ) else {
        unreachable!("the tables are accepted")
    };
    match verdict {
        Verdict::Satisfiable => {
            put_satisfiable_set(out, &representatives[..n], &offsets[..n], &answers[..q])
        }
        Verdict::Contradiction => put_contradictory_set(out, &marks[..m], &answers[..q]),
    }
}

// Writes the frames for a text, all of which is judged.
fn answer_text(text: &[u8], out: &mut [u8]) -> usize
    requires { largest_output ≤ length out.old }
    ensures { Appended out.old 0 (reading_frames (reading text.now)) out.new result }
{
    let mut terms = [[0u64; 3]; MOST];
    let mut propositions = [[0u64; 4]; MOST];
    let mut questions = [[0u64; 3]; MOST];
    match read(text, &mut terms, &mut propositions, &mut questions) {
        Ok(counts) => answer_set(counts, &terms, &propositions, &questions, out),
        Err(fault) => put_refusal(out, fault),
    }
}

// Writes to `out` what the program writes for a text, and answers how many bytes that are. The text may have any length; its first
// JUDGED bytes decide. Where `out` has less room than the largest output takes, nothing is written and the answer is 0.
pub fn write_output(text: &[u8], out: &mut [u8]) -> usize
    ensures { WritesOutput text.now out.old result out.new }
{
    if out.len() < LARGEST {
        return 0;
    }
    let judged = text.len().min(JUDGED);
    answer_text(&text[..judged], out)
}
