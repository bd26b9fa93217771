// The answers to the questions that rows hold, by the places of their sides.
ghost use Rattle.std.specs.Prelude.{◌≡◌, ◌<◌, ◌≤◌, pos, ◌+ℤ◌, length, get_or};
ghost use Rattle.tables.specs.Limits.{most};
ghost use Rattle.tables.specs.QuestionTable.{AcceptedQuestions, asked};
ghost use Rattle.tables.specs.Rows.{question_in};
ghost use Rattle.placing.specs.Filling.{Lifted};
ghost use Rattle.marking.specs.Marks.{Room};
ghost use Rattle.questions.specs.Sides.{SideColumns};
ghost use Rattle.columns.specs.Asked.{Placed};
ghost use Rattle.columns.specs.Views.{RowJudgedBy, RowsToldBy, RowsToldOf};

use differences::set::SetPlaces;
use placing::heights::moved;
use points::chained::ChainedPlaces;
use points::chains::{PlaceChains, chain_places};
use points::places::{Place, SLOTS, count_sizes};
use questions::facts::Facts;
use questions::judge;
use questions::sides::chain_sides;
use tables::{QuestionRow, question_at};
use types::{Answer, MOST, QuestionNumber, index};

// The labels of the terms, and their heights.
#[derive(Clone, Copy)]
pub(crate) struct LabelledTerms<'a> {
    pub reps: &'a [u32],
    pub offs: &'a [i64],
    pub heights: &'a [u64],
}

// The height of the right side of question k, with its offset.
fn right_height(
    n: usize,
    terms: &LabelledTerms,
    questions: &[QuestionRow],
    k: QuestionNumber,
) -> u64
    requires { let T = terms.now in Placed n T.reps.now T.offs.now T.heights.now × (AcceptedQuestions n (length questions.now) (question_in questions.now) × (k.0 < length questions.now)) }
    ensures { let c = asked (question_in questions.now k.0) in Lifted result (c.offset +ℤ get_or terms.now.offs.now c.right (pos 0)) }
{
    let r = question_at(questions, k);
    let right = index(r.right);
    moved(r.offset, terms.offs[right])
}

// The answer to question k.
fn answer_one(
    facts: &Facts,
    terms: &LabelledTerms,
    questions: &[QuestionRow],
    k: QuestionNumber,
) -> Answer
    requires { let T = terms.now in let n = facts.now.reads.n in
        Placed n T.reps.now T.offs.now T.heights.now × (AcceptedQuestions n (length questions.now) (question_in questions.now) × (k.0 < length questions.now)) }
    ensures { RowJudgedBy facts.now terms.now (asked (question_in questions.now k.0)) result }
{
    let r = question_at(questions, k);
    let left = index(r.left);
    let right = index(r.right);
    let a = terms.reps[left];
    let b = terms.reps[right];
    let p = terms.heights[left];
    let q = right_height(facts.reads.n, terms, questions, k);
    judge(
        facts,
        Place {
            class: a,
            height: p,
        },
        Place {
            class: b,
            height: q,
        },
    )
}

// The answers to the questions, each into its byte.
fn answer_each(facts: &Facts, terms: &LabelledTerms, questions: &[QuestionRow], answers: &mut [u8])
    requires { let T = terms.now in let n = facts.now.reads.n in
        Placed n T.reps.now T.offs.now T.heights.now ×
        (AcceptedQuestions n (length questions.now) (question_in questions.now) × ((length questions.now ≤ most) × (length answers.old ≡ length questions.now))) }
    ensures { RowsToldBy facts.now terms.now questions.now (length questions.now) answers.new }
{
    for k in 0..questions.len() {
        let a = answer_one(facts, terms, questions, QuestionNumber(k));
        answers[k] = u8::from(a);
    }
}

// The same, with chains made for the places that are read and for the disequalities.
pub(crate) fn answer_all<'x>(
    set: &'x SetPlaces<'x>,
    terms: &LabelledTerms,
    questions: &[QuestionRow],
    pairs: &'x [u8],
    answers: &mut [u8],
)
    requires room { Room set.now.n pairs.now }
    requires placed { let T = terms.now in let n = set.now.n in
        Placed n T.reps.now T.offs.now T.heights.now ×
        (AcceptedQuestions n (length questions.now) (question_in questions.now) × ((length questions.now ≤ most) × (length answers.old ≡ length questions.now))) }
    requires side_columns { let S = set.now in SideColumns S.m S.sides.left_classes.now S.sides.left_heights.now S.sides.right_heights.now }
    ensures { RowsToldOf set.now terms.now pairs.now questions.now (length questions.now) answers.new }
{
    let mut chains = PlaceChains::EMPTY;
    let mut side_first = [0u16; SLOTS];
    let mut side_next = [0u16; MOST];
    let mut sizes = [0u32; 1024];
    chain_places(set.n, set.reads, set.read_heights, &mut chains);
    chain_sides(set.m, &set.sides, &mut side_first, &mut side_next);
    count_sizes(set.n, set.reads, &mut sizes);
    let reads = &ChainedPlaces {
        n: set.n,
        classes: set.reads,
        heights: set.read_heights,
        class_first: &chains.class_first,
        class_next: &chains.class_next,
        slot_first: &chains.slot_first,
        slot_next: &chains.slot_next,
    };
    let sides = &set.sides;
    let facts = Facts {
        reads: *reads,
        sizes: &sizes,
        m: set.m,
        sides: *sides,
        side_first: &side_first,
        side_next: &side_next,
        apart: set.apart,
        pairs,
    };
    answer_each(&facts, terms, questions, answers);
}
