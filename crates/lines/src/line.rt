// The frame that a line holds, and where a line ends.
ghost use Rattle.std.specs.Prelude.{◌≡◌, ◌+◌, ◌≤◌, ◌==◌, length};
ghost use Rattle.std.specs.List.{position};
ghost use Rattle.std.proofs.Math.Option.{some};
ghost use Rattle.text.specs.Lines.{bytes_of};
ghost use Rattle.text.specs.Frames.{field, field_of_offset, atom, dereference, relation, blocks, asked, frame_of_bytes};
ghost use Rattle.lines.specs.Meaning.{meaning};
ghost use Rattle.lines.specs.Layouts.{framed};
ghost use Rattle.lines.specs.LineEnds.{end_of_line};

use crate::Frame;
use hexadecimal::{decode, number, offset};
use types::{
    AUXILIARY, BLOCK_DISEQUALITY, DEREF, DISEQUALITY, EQUALITY, PropositionRecord, QUESTION,
    QuestionRecord, TermRecord, VARIABLE,
};

// The number in two bytes from `at` on.
fn word(fields: &[u8], at: usize) -> u64
    requires { at + 2 ≤ length fields.now }
    ensures { result ≡ field at 2 fields.now }
{
    u64::from(number(&fields[at..at + 2]))
}

// The offset in bytes 2 to 5.
fn offset_field(fields: &[u8]) -> i64
    requires { 6 ≤ length fields.now }
    ensures { result ≡ field_of_offset 2 fields.now }
{
    offset(number(&fields[2..6]))
}

fn atom_frame(kind: u64, fields: &[u8]) -> Option<Frame>
    ensures { meaning result ≡ framed (atom kind) fields.now }
{
    if fields.len() != 2 {
        return None;
    }
    Some(Frame::Term(TermRecord {
        kind,
        number: word(fields, 0),
        offset: 0,
    }))
}

fn dereference_frame(fields: &[u8]) -> Option<Frame>
    ensures { meaning result ≡ framed dereference fields.now }
{
    if fields.len() != 6 {
        return None;
    }
    Some(Frame::Term(TermRecord {
        kind: DEREF,
        number: word(fields, 0),
        offset: offset_field(fields),
    }))
}

fn relation_frame(kind: u64, fields: &[u8]) -> Option<Frame>
    ensures { meaning result ≡ framed (relation kind) fields.now }
{
    if fields.len() != 8 {
        return None;
    }
    Some(Frame::Proposition(PropositionRecord {
        kind,
        left: word(fields, 0),
        offset: offset_field(fields),
        right: word(fields, 6),
    }))
}

fn blocks_frame(fields: &[u8]) -> Option<Frame>
    ensures { meaning result ≡ framed blocks fields.now }
{
    if fields.len() != 4 {
        return None;
    }
    Some(Frame::Proposition(PropositionRecord {
        kind: BLOCK_DISEQUALITY,
        left: word(fields, 0),
        offset: 0,
        right: word(fields, 2),
    }))
}

fn question_frame(fields: &[u8]) -> Option<Frame>
    ensures { meaning result ≡ framed asked fields.now }
{
    if fields.len() != 8 {
        return None;
    }
    Some(Frame::Question(QuestionRecord {
        left: word(fields, 0),
        offset: offset_field(fields),
        right: word(fields, 6),
    }))
}

// The frame that bytes spell: a kind, and its fields.
fn frame_of(bytes: &[u8]) -> Option<Frame>
    ensures { meaning result ≡ frame_of_bytes (some bytes.now) }
{
    let [kind, fields @ ..] = bytes else {
        return None;
    };
    match u64::from(*kind) {
        VARIABLE => atom_frame(VARIABLE, fields),
        AUXILIARY => atom_frame(AUXILIARY, fields),
        DEREF => dereference_frame(fields),
        EQUALITY => relation_frame(EQUALITY, fields),
        DISEQUALITY => relation_frame(DISEQUALITY, fields),
        BLOCK_DISEQUALITY => blocks_frame(fields),
        QUESTION => question_frame(fields),
        _ => None,
    }
}

// The longest frame has nine bytes, that is 18 digits.
const LONGEST: usize = 18;

// The frame of a line's characters, without the LF.
pub fn judge_line(line: &[u8]) -> Option<Frame>
    ensures { meaning result ≡ frame_of_bytes (bytes_of line.now) }
{
    if line.len() > LONGEST {
        return None;
    }
    let mut bytes = [0u8; 9];
    let size = decode(line, &mut bytes)?;
    frame_of(&bytes[..size])
}

const LF: u8 = 10;

// The place of the first LF.
fn first_lf(text: &[u8]) -> Option<usize>
    ensures { result ≡ position (λ c. c == LF) text.now }
{
    text.iter().position(|c| *c == LF)
}

// Where the line that starts at `at` ends: at its LF, or at the text's end.
pub fn line_end(text: &[u8], at: usize) -> usize
    requires { at ≤ length text.now }
    ensures { result ≡ end_of_line text.now at }
{
    match first_lf(&text[at..]) {
        Some(size) => at + size,
        None => text.len(),
    }
}
