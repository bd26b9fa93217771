// The pair table and the answers of a set in rows: columns of places are filled from the rows and the labels, and judged.

#![tactic(auto)]

mod answering;

ghost use Rattle.std.specs.Prelude.{◌≡◌, length};
ghost use Rattle.tables.specs.Sets.{set_of};
ghost use Rattle.columns.specs.Telling.{Labelling, Asking, pairs_by, answers_by, questions_in};
ghost use Rattle.columns.specs.Asked.{Filled};

use answering::{LabelledTerms, answer_all};
use differences::pair_table;
use differences::set::SetPlaces;
use placing::apart::apart_classes;
use placing::heights::fill_heights;
use placing::reads::fill_reads;
use placing::sides::{SideColumns, fill_sides};
use points::sides::SidePlaces;
use tables::{PropositionRow, QuestionRow, TermRow};
use types::{MOST, PAIR_BYTES};

// The columns that are filled from the rows and the labels.
#[derive(Drop)]
struct Columns {
    heights: [u64; MOST],
    reads: [u32; MOST],
    read_heights: [u64; MOST],
    sides: SideColumns,
    apart: [u8; PAIR_BYTES],
}

impl Columns {
    const EMPTY: Self = Columns {
        heights: [0; MOST],
        reads: [0; MOST],
        read_heights: [0; MOST],
        sides: SideColumns::EMPTY,
        apart: [0; PAIR_BYTES],
    };
}

// The same, with the columns.
fn tell_places(
    terms: &[TermRow],
    propositions: &[PropositionRow],
    questions: &[QuestionRow],
    reps: &[u32],
    offs: &[i64],
    columns: &Columns,
    pairs: &mut [u8],
    answers: &mut [u8],
)
    requires labelling { Labelling (set_of terms.now propositions.now) reps.now offs.now }
    requires filled { let C = columns.now in
        Filled (set_of terms.now propositions.now) reps.now offs.now C.heights C.reads C.read_heights C.sides.left_classes C.sides.left_heights C.sides.right_classes C.sides.right_heights C.apart }
    requires asking { Asking (length terms.now) questions.now pairs.old answers.old }
    ensures pairs_value { pairs.new ≡ pairs_by (set_of terms.now propositions.now) reps.now offs.now }
    ensures answers_value { answers.new ≡ answers_by (set_of terms.now propositions.now) reps.now offs.now (questions_in questions.now) }
{
    let sides = SidePlaces {
        left_classes: &columns.sides.left_classes,
        left_heights: &columns.sides.left_heights,
        right_classes: &columns.sides.right_classes,
        right_heights: &columns.sides.right_heights,
    };
    let set = SetPlaces {
        n: terms.len(),
        m: propositions.len(),
        classes: reps,
        heights: &columns.heights,
        reads: &columns.reads,
        read_heights: &columns.read_heights,
        sides,
        apart: &columns.apart,
    };
    let labelled = LabelledTerms {
        reps,
        offs,
        heights: &columns.heights,
    };
    pair_table(&set, pairs);
    answer_all(&set, &labelled, questions, pairs, answers);
}

// Leaves the pair table and the answers of a set without contradiction, by its labels. Public for the crate `solver`.
pub fn tell_differences(
    terms: &[TermRow],
    propositions: &[PropositionRow],
    questions: &[QuestionRow],
    reps: &[u32],
    offs: &[i64],
    pairs: &mut [u8],
    answers: &mut [u8],
)
    requires labelling { Labelling (set_of terms.now propositions.now) reps.now offs.now }
    requires asking { Asking (length terms.now) questions.now pairs.old answers.old }
    ensures pairs_value { pairs.new ≡ pairs_by (set_of terms.now propositions.now) reps.now offs.now }
    ensures answers_value { answers.new ≡ answers_by (set_of terms.now propositions.now) reps.now offs.now (questions_in questions.now) }
{
    let mut columns = Columns::EMPTY;
    fill_heights(offs, &mut columns.heights);
    fill_reads(
        terms,
        reps,
        offs,
        &mut columns.reads,
        &mut columns.read_heights,
    );
    fill_sides(terms.len(), propositions, reps, offs, &mut columns.sides);
    apart_classes(terms, propositions, reps, &mut columns.apart);
    tell_places(
        terms,
        propositions,
        questions,
        reps,
        offs,
        &columns,
        pairs,
        answers,
    );
}
