// The types of the library's answers, for all crates. specs/Numbers.antt gives the numbers of paper 01 for each case.

#![tactic(auto)]

ghost use Rattle.std.specs.Prelude.{◌≡◌};
ghost use Rattle.types.specs.Numbers.{number_of_answer, number_of_refusal};

// The kinds of records, as in the lines of hexadecimal. No enum: a row of the C interface may hold any number, and `term_of` and
// `proposition_of` (tables/Records) speak of all.
pub const VARIABLE: u64 = 0x01;

pub const AUXILIARY: u64 = 0x02;

pub const DEREF: u64 = 0x03;

pub const EQUALITY: u64 = 0x11;

pub const DISEQUALITY: u64 = 0x12;

pub const BLOCK_DISEQUALITY: u64 = 0x13;

pub const QUESTION: u64 = 0x21;

// The most terms, propositions and questions.
pub const MOST: usize = 512;

// The bytes that hold the pair bits of the most terms.
pub const PAIR_BYTES: usize = 32768;

// Atoms are numbered below this.
pub const ATOMS: u64 = 65536;

// Offsets go from the negation of this up to one less than this.
pub const OFFSETS: i64 = 2147483648;

// The verdict on an accepted set.
#[derive(Clone, Copy, Debug, PartialEq, Eq)]
pub enum Verdict {
    Satisfiable,
    Contradiction,
}

// The answer to a question.
#[derive(Clone, Copy, Debug, PartialEq, Eq)]
pub enum Answer {
    Neither,
    Equal,
    Different,
    Contradictory,
}

// Why tables or a text are refused.
#[derive(Clone, Copy, Debug, PartialEq, Eq)]
pub enum Refusal {
    TooManyTerms,
    TooManyPropositions,
    TooManyQuestions,
    // A dereference names a term not listed before it.
    InnerNotListed,
    // An atom is listed twice.
    AtomListedTwice,
    // A proposition names a term not listed.
    PropositionTermNotListed,
    // A question names a term not listed.
    QuestionTermNotListed,
    // Lent memory, or an input table, is shorter than needed.
    TooShort,
    // A frame or a record is badly formed.
    Malformed,
    // A frame of an earlier group after one of a later group.
    GroupOrder,
}

// A refusal and its place: the error of a call.
#[derive(Clone, Copy, Debug, PartialEq, Eq)]
pub struct Fault {
    pub refusal: Refusal,
    pub place: usize,
}

// A record of the table of terms. `number` is the atom's number, or the number of the term that a dereference names.
#[derive(Clone, Copy)]
pub struct TermRecord {
    pub kind: u64,
    pub number: u64,
    pub offset: i64,
}

// A record of the table of propositions.
#[derive(Clone, Copy)]
pub struct PropositionRecord {
    pub kind: u64,
    pub left: u64,
    pub offset: i64,
    pub right: u64,
}

// A record of the table of questions.
#[derive(Clone, Copy)]
pub struct QuestionRecord {
    pub left: u64,
    pub offset: i64,
    pub right: u64,
}

// Whether a call of the solver asks for the blame of a contradiction.
#[derive(Clone, Copy, Debug, PartialEq, Eq)]
pub enum Blame {
    Asked,
    NotAsked,
}

// How many records of each table a text has.
#[derive(Clone, Copy)]
pub struct Counts {
    pub terms: usize,
    pub propositions: usize,
    pub questions: usize,
}

// A number in the table of terms.
#[derive(Clone, Copy, PartialEq, Eq)]
pub struct TermNumber(pub usize);

// A number in the table of propositions.
#[derive(Clone, Copy)]
pub struct PropositionNumber(pub usize);

// A number in the table of questions.
#[derive(Clone, Copy)]
pub struct QuestionNumber(pub usize);

// The number that a record names, as an index. Public for the crates `lastlook`, `joins`, `congruence`,
// `consistency`, `placing` and `columns`.
pub fn index(number: u64) -> usize
    ensures { result ≡ number }
{
    number as usize
}

impl Refusal {
    pub fn at(self, place: usize) -> Fault
        ensures { result ≡ record { refusal = self; place = place } }
    {
        Fault {
            refusal: self,
            place,
        }
    }
}

impl From<Answer> for u8 {
    ghost from_gives = { λ a n. n ≡ number_of_answer a };

    fn from(a: Answer) -> u8 {
        match a {
            Answer::Neither => 0,
            Answer::Equal => 1,
            Answer::Different => 2,
            Answer::Contradictory => 3,
        }
    }
}

impl From<Refusal> for u8 {
    ghost from_gives = { λ r n. n ≡ number_of_refusal r };

    fn from(r: Refusal) -> u8 {
        match r {
            Refusal::TooManyTerms => 1,
            Refusal::TooManyPropositions => 2,
            Refusal::TooManyQuestions => 3,
            Refusal::InnerNotListed => 4,
            Refusal::AtomListedTwice => 5,
            Refusal::PropositionTermNotListed => 6,
            Refusal::QuestionTermNotListed => 7,
            Refusal::TooShort => 8,
            Refusal::Malformed => 9,
            Refusal::GroupOrder => 10,
        }
    }
}
