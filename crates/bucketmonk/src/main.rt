// The program: a text on standard input, frames on standard output. What is written for a text is proved of `driver::write_output`;
// here are the read and the write around it, and the arguments. `answer_input` speaks of readers and writers whose bytes are known;
// of the system's own streams nothing is known.
#![tactic(auto)]

ghost use Rattle.std.specs.Prelude.{◌≡◌, List, ℕ, IfSome};
ghost use Rattle.text.specs.Output.{output};
ghost use Rattle.bucketmonk.specs.Answers.{WritesAnswer};
ghost use Rattle.bucketmonk.specs.Calls.{PutsBytes};

mod arguments;
mod calls;
mod failure;

use arguments::{answer_argument, has_argument, refuse};
use calls::{put, read_input};
use driver::{JUDGED, LARGEST, write_output};
use failure::Failure;
use std::io;
use std::io::{Read, Write};

// Writes what a text asks for.
fn answer<W: Write>(writer: &mut W, text: &[u8]) -> io::Result<()>
    ensures { PutsBytes result (W.contents writer.old) (W.contents writer.new) (output text.now) }
{
    let mut out = [0u8; LARGEST];
    let n = write_output(text, &mut out);
    put(writer, &out[..n])
}

// Answers the text that is read. Its first JUDGED bytes decide what is written, and no more are read.
fn answer_input<R: Read, W: Write>(reader: &mut R, writer: &mut W) -> Result<(), Failure>
    ensures { (text : List ℕ) × IfSome (R.remaining reader.old) (λ bytes. bytes ≡ text)
        × WritesAnswer result (W.contents writer.old) (W.contents writer.new) (output text) }
{
    let mut text = [0u8; JUDGED];
    let n = read_input(reader, &mut text).map_err(Failure::Input)?;
    answer(writer, &text[..n]).map_err(Failure::Output)
}

fn main(rt: HostRuntime) {
    // Argument 0 is the program's own name.
    let end = if has_argument(&rt, 2) {
        refuse(&mut rt.stderr(), b"more than one argument", b"");
        Ok(())
    } else if has_argument(&rt, 1) {
        answer_argument(&rt, &mut rt.stdout(), &mut rt.stderr()).map_err(Failure::Output)
    } else {
        answer_input(&mut rt.stdin(), &mut rt.stdout())
    };
    if let Err(failure) = end {
        // Where this cannot be written either, nothing is left to do.
        let _ = eprintln!(rt; "{failure}");
    }
}
