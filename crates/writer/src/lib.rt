// Frames as lines of hexadecimal, written to a buffer from a place on; each function answers the place after what it wrote.
// Public for the crate `driver`, which knows that the frames fit.

#![tactic(auto)]

ghost use Rattle.std.specs.Prelude.{◌≡◌, ◌+◌, ◌/◌, ◌%◌, ◌^◌, ◌≤◌, ◌<◌, length};
ghost use Rattle.types.specs.declared.Verdict.TheVariants.{Satisfiable, Contradiction};
ghost use Rattle.text.specs.Output.{line_of, verdict_frame, label_frame, label_frames, blame_if, blame_frames, answer_frame, cell_frames, refusal_frame};
ghost use Rattle.writer.specs.Frames.{cell_frame, set_frames};
ghost use Rattle.writer.specs.Appended.{Appended};

use hexadecimal::digit_of;
use types::{Fault, PropositionNumber, QuestionNumber, TermNumber, Verdict};

// Writes a frame's bytes as a line. Here and below the place goes in and comes back: the buffer is the caller's, and a struct that lends
// it would make each clause speak of a loan in a loan.
fn put_line(out: &mut [u8], at: usize, frame: &[u8]) -> usize
    requires { at + length (line_of frame.now) ≤ length out.old }
    ensures { Appended out.old at (line_of frame.now) out.new result }
{
    let mut next = at;
    for b in frame {
        out[next] = digit_of(b / 16);
        out[next + 1] = digit_of(b % 16);
        next += 2;
    }
    out[next] = 10;
    next + 1
}

fn put_verdict(out: &mut [u8], at: usize, verdict: Verdict) -> usize
    requires { at + length (verdict_frame verdict) ≤ length out.old }
    ensures { Appended out.old at (verdict_frame verdict) out.new result }
{
    let number = match verdict {
        Verdict::Satisfiable => 0,
        Verdict::Contradiction => 1,
    };
    put_line(out, at, &[0xA0, number])
}

// A term's representative and offset.
fn put_label(out: &mut [u8], at: usize, term: TermNumber, representative: u32, offset: i64) -> usize
    requires { at + length (label_frame term.0 representative offset) ≤ length out.old }
    ensures { Appended out.old at (label_frame term.0 representative offset) out.new result }
{
    let [.., t1, t0] = (term.0 as u64).to_be_bytes();
    let [.., r1, r0] = representative.to_be_bytes();
    let [o7, o6, o5, o4, o3, o2, o1, o0] = offset.to_be_bytes();
    let frame = [0xA1, t1, t0, r1, r0, o7, o6, o5, o4, o3, o2, o1, o0];
    put_line(out, at, &frame)
}

// The representatives and offsets of all terms.
fn put_labels(out: &mut [u8], at: usize, representatives: &[u32], offsets: &[i64]) -> usize
    requires representatives_len { length representatives.now ≡ length offsets.now }
    requires offsets_in_bounds { at + length (label_frames 0 representatives.now offsets.now) ≤ length out.old }
    ensures { Appended out.old at (label_frames 0 representatives.now offsets.now) out.new result }
{
    let mut next = at;
    for (t, (r, o)) in representatives.iter().zip(offsets).enumerate() {
        next = put_label(out, next, TermNumber(t), *r, *o);
    }
    next
}

// A proposition, if it is marked.
fn put_blamed(out: &mut [u8], at: usize, proposition: PropositionNumber, mark: u8) -> usize
    requires { at + length (blame_if proposition.0 mark) ≤ length out.old }
    ensures { Appended out.old at (blame_if proposition.0 mark) out.new result }
{
    if mark == 0 {
        return at;
    }
    let [.., p1, p0] = (proposition.0 as u64).to_be_bytes();
    put_line(out, at, &[0xA2, p1, p0])
}

// The answer to a question.
fn put_answer(out: &mut [u8], at: usize, question: QuestionNumber, answer: u8) -> usize
    requires { at + length (answer_frame question.0 answer) ≤ length out.old }
    ensures { Appended out.old at (answer_frame question.0 answer) out.new result }
{
    let [.., q1, q0] = (question.0 as u64).to_be_bytes();
    put_line(out, at, &[0xA3, q1, q0, answer])
}

// The mark of a proposition, or the answer to a question. A switch: a trait or a closure would only wrap the two calls, whose numbers
// have types of their own.
fn put_cell(out: &mut [u8], at: usize, blamed: bool, number: usize, cell: u8) -> usize
    requires { at + length (cell_frame blamed number cell) ≤ length out.old }
    ensures { Appended out.old at (cell_frame blamed number cell) out.new result }
{
    if blamed {
        put_blamed(out, at, PropositionNumber(number), cell)
    } else {
        put_answer(out, at, QuestionNumber(number), cell)
    }
}

// All marks, or answers.
fn put_cells(out: &mut [u8], at: usize, blamed: bool, cells: &[u8]) -> usize
    requires { at + length (cell_frames (cell_frame blamed) 0 cells.now) ≤ length out.old }
    ensures { Appended out.old at (cell_frames (cell_frame blamed) 0 cells.now) out.new result }
{
    let mut next = at;
    for (k, cell) in cells.iter().enumerate() {
        next = put_cell(out, next, blamed, k, *cell);
    }
    next
}

// The only frame of a refusal.
pub fn put_refusal(out: &mut [u8], fault: Fault) -> usize
    requires { length (refusal_frame fault) ≤ length out.old }
    ensures { Appended out.old 0 (refusal_frame fault) out.new result }
{
    let [.., p1, p0] = (fault.place as u64).to_be_bytes();
    put_line(out, 0, &[0xA4, u8::from(fault.refusal), p1, p0])
}

// The frames of a satisfiable set: its verdict, its terms and its questions.
pub fn put_satisfiable_set(
    out: &mut [u8],
    representatives: &[u32],
    offsets: &[i64],
    answers: &[u8],
) -> usize
    requires representatives_len { length representatives.now ≡ length offsets.now }
    requires answers_in_bounds { let labels = label_frames 0 representatives.now offsets.now in
        length (set_frames Satisfiable labels answers.now) ≤ length out.old }
    ensures { let labels = label_frames 0 representatives.now offsets.now in
        Appended out.old 0 (set_frames Satisfiable labels answers.now) out.new result }
{
    let labels = put_verdict(out, 0, Verdict::Satisfiable);
    let questions = put_labels(out, labels, representatives, offsets);
    put_cells(out, questions, false, answers)
}

// The frames of a contradictory set: its verdict, the propositions that are marked, and its questions.
pub fn put_contradictory_set(out: &mut [u8], marks: &[u8], answers: &[u8]) -> usize
    requires { length (set_frames Contradiction (blame_frames marks.now) answers.now) ≤ length out.old }
    ensures { Appended out.old 0 (set_frames Contradiction (blame_frames marks.now) answers.now) out.new result }
{
    let blame = put_verdict(out, 0, Verdict::Contradiction);
    let questions = put_cells(out, blame, true, marks);
    put_cells(out, questions, false, answers)
}
