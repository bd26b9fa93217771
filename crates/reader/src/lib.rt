// The reader of paper 01's lines of hexadecimal, into the rows of three tables.

#![tactic(auto)]

mod load;

ghost use Rattle.std.specs.Prelude.{◌≡◌};
ghost use Rattle.frames.specs.Rows.{rows};
ghost use Rattle.reader.specs.Answers.{short, ReadAs, part_at_fault, PartAt, HandedBack};

use frames::ReadRows;
use frames::copy::copy_rows;
use load::load;
use tables::{PropositionRow, QuestionRow, TermRow};
use types::{Counts, Fault, MOST, Refusal};

// Where a faulty line stands in a text.
#[derive(Clone, Copy)]
pub struct FaultyPart {
    pub start: usize,
    pub size: usize,
}

// The fault of a text, and its line.
#[derive(Clone, Copy)]
pub(crate) struct FaultyLine {
    fault: Fault,
    part: FaultyPart,
}

impl From<FaultyLine> for Fault {
    ghost from_gives = { λ line fault. fault ≡ line.fault };

    fn from(line: FaultyLine) -> Fault {
        line.fault
    }
}

// A table has no room for the most records.
fn short(terms: usize, propositions: usize, questions: usize) -> bool
    ensures { result ≡ short terms propositions questions }
{
    (terms < MOST) | (propositions < MOST) | (questions < MOST)
}

// Reads a text into the rows of the three tables. A refused text leaves them as they were.
pub fn read(
    text: &[u8],
    terms: &mut [TermRow],
    propositions: &mut [PropositionRow],
    questions: &mut [QuestionRow],
) -> Result<Counts, Fault>
    ensures { ReadAs text.now (rows terms.old propositions.old questions.old) result
        (rows terms.new propositions.new questions.new) }
{
    if short(terms.len(), propositions.len(), questions.len()) {
        return Err(Fault {
            refusal: Refusal::TooShort,
            place: 0,
        });
    }
    let mut own = ReadRows::new();
    load(text, &mut own)?;
    copy_rows(
        own.counts,
        &own.terms,
        &own.propositions,
        &own.questions,
        terms,
        propositions,
        questions,
    );
    Ok(own.counts)
}

// Where the faulty line of a text stands, without its LF, for tables with room for so many records; on success an empty part at the start.
// Public for the crate `bucketmonk_c`, which cannot return a part of a text.
pub fn faulty_part(text: &[u8], terms: usize, propositions: usize, questions: usize) -> FaultyPart
    ensures { PartAt text.now result (part_at_fault text.now terms propositions questions) }
{
    if short(terms, propositions, questions) {
        return FaultyPart { start: 0, size: 0 };
    }
    match load(text, &mut ReadRows::new()) {
        Err(line) => line.part,
        Ok(()) => FaultyPart { start: 0, size: 0 },
    }
}

// That part of the text.
pub fn faulty_line(text: &[u8], terms: usize, propositions: usize, questions: usize) -> &[u8]
    ensures { HandedBack text.entry result (part_at_fault text.now terms propositions questions) }
{
    let part = faulty_part(text, terms, propositions, questions);
    let start = part.start;
    let end = start + part.size;
    &text[start..end]
}
