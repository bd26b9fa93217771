// The refusals of the three tables, in their order. The functions are public for the crate `solver`.

#![tactic(auto)]

mod each;
mod fields;
mod propositions;
mod questions;
mod terms;

ghost use Rattle.std.specs.Prelude.{◌≡◌, length};
ghost use Rattle.tables.specs.Limits.{most};
ghost use Rattle.tables.specs.TableFaults.{tables_of, lengths_fault, records_fault, tables_fault, acceptance};

use propositions::check_propositions;
use questions::check_questions;
use tables::{PropositionRow, QuestionRow, TermRow};
use terms::check_terms;
use types::{Fault, MOST, Refusal};

// 1, 2, 3, then 8 for a table that has fewer rows than its count.
pub fn check_sizes(
    n: usize,
    terms: usize,
    m: usize,
    propositions: usize,
    q: usize,
    questions: usize,
) -> Result<(), Fault>
    ensures { result ≡ acceptance (lengths_fault most n terms m propositions q questions) }
{
    let many_terms = MOST < n;
    let many_propositions = MOST < m;
    let many_questions = MOST < q;
    let short = (terms < n) | ((propositions < m) | (questions < q));
    if many_terms {
        return Err(Refusal::TooManyTerms.at(MOST));
    }
    if many_propositions {
        return Err(Refusal::TooManyPropositions.at(MOST));
    }
    if many_questions {
        return Err(Refusal::TooManyQuestions.at(MOST));
    }
    if short {
        return Err(Refusal::TooShort.at(0));
    }
    Ok(())
}

// 9, 4 and 5 of the terms, then 9 and 6 of the propositions, then 9 and 7 of the questions.
pub fn check_records(
    terms: &[TermRow],
    propositions: &[PropositionRow],
    questions: &[QuestionRow],
) -> Result<(), Fault>
    ensures { let T = terms.now in let P = propositions.now in let Q = questions.now in
        result ≡ acceptance (records_fault (tables_of (length T) T (length P) P (length Q) Q)) }
{
    check_terms(terms)?;
    check_propositions(terms.len(), propositions)?;
    check_questions(terms.len(), questions)
}

// All refusals of the tables.
pub fn check_tables(
    n: usize,
    terms: &[TermRow],
    m: usize,
    propositions: &[PropositionRow],
    q: usize,
    questions: &[QuestionRow],
) -> Result<(), Fault>
    ensures { result ≡ acceptance (tables_fault most (tables_of n terms.now m propositions.now q questions.now)) }
{
    check_sizes(n, terms.len(), m, propositions.len(), q, questions.len())?;
    check_records(&terms[..n], &propositions[..m], &questions[..q])
}
