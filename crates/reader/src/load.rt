// The lines of a text, one after another, into rows.
ghost use Rattle.frames.specs.Rows.{rows_of, NoneRead};
ghost use Rattle.reader.specs.Loading.{counted, Lined, LoadedAs};

use crate::{FaultyLine, FaultyPart};
use frames::ReadRows;
use frames::take::take_frame;
use lines::line::{judge_line, line_end};
use types::{Fault, Refusal};

// One line after the records read so far.
pub(crate) fn take_line(line: &[u8], ended: bool, read: &mut ReadRows) -> Result<(), Refusal>
    ensures { Lined (record { characters = line.now; ended = ended }) read.old.counts (rows_of read.old) (counted result read.new)
        (rows_of read.new) }
{
    if !ended {
        return Err(Refusal::Malformed);
    }
    let frame = take_frame(judge_line(line), read.counts, &read.terms)?;
    read.store(frame);
    Ok(())
}

// All lines of a text, after none. By places, since the faulty line's is handed back. After a refusal the rows hold the records read before it.
pub(crate) fn load(text: &[u8], read: &mut ReadRows) -> Result<(), FaultyLine>
    requires { NoneRead read.old }
    ensures { LoadedAs text.now (rows_of read.old) (counted result read.new) (rows_of read.new) }
{
    let mut start = 0;
    let mut place = 0;
    while start < text.len() {
        let end = line_end(text, start);
        let line = &text[start..end];
        let ended = end < text.len();
        if let Err(refusal) = take_line(line, ended, read) {
            let size = end - start;
            return Err(FaultyLine {
                fault: Fault { refusal, place },
                part: FaultyPart { start, size },
            });
        }
        start = end + 1;
        place += 1;
    }
    Ok(())
}
