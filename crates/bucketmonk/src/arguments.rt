// The program's argument.
ghost use Rattle.std.specs.Prelude.{◌≡◌, ◌≤◌, length, take};
ghost use Rattle.bucketmonk.specs.Arguments.{Asks};

use crate::calls::{put, write_bytes};
use std::env::{Env, FillError};
use std::io;
use std::io::Write;

// How much of an argument is looked at: more than one that is known has, and enough to tell which it was.
const SHOWN: usize = 64;

// What an argument asks for.
#[derive(Clone, Copy)]
pub(crate) enum Request {
    Help,
    Version,
    Unknown,
}

fn asked(argument: &[u8]) -> Request
    ensures { Asks result argument.now }
{
    match argument {
        b"--help" => Request::Help,
        b"--version" => Request::Version,
        _ => Request::Unknown,
    }
}

// Whether the program was given an argument at this place; its own name is at place 0.
pub(crate) fn has_argument<E: Env>(env: &E, place: usize) -> bool {
    let mut start = [0u8; 1];
    !matches!(env.arg(place, &mut start), Err(FillError::NotPresent))
}

// Puts the argument, or as much of it as there is room for, into the buffer; tells how many bytes that are.
fn first_argument<E: Env>(env: &E, buffer: &mut [u8]) -> usize
    ensures within { result ≤ length buffer.new }
    ensures prefix { result ≡ length (take result buffer.new) }
{
    match env.arg(1, buffer) {
        Ok(n) => n,
        Err(FillError::TooLong) => buffer.len(),
        Err(FillError::NotPresent) => 0,
    }
}

// Tells what is wrong with the arguments, as far as that can be written.
pub(crate) fn refuse<W: Write>(stderr: &mut W, what: &[u8], argument: &[u8]) {
    let _ = write_bytes(stderr, b"bucketmonk: ");
    let _ = write_bytes(stderr, what);
    let _ = write_bytes(stderr, argument);
    let _ = write_bytes(stderr, b"\ntry bucketmonk --help\n");
}

fn put_help<W: Write>(stdout: &mut W) -> io::Result<()> {
    put(
        stdout,
        b"usage: bucketmonk <TEXT\n\
        \x20      bucketmonk --help\n\
        \x20      bucketmonk --version\n\
        Reads terms, propositions and questions of 2-pointer logic from standard input,\n\
        one frame a line in hexadecimal, at most 512 of each. Only the first 32,768\n\
        bytes are read, more than an accepted text has.\n\
        Writes to standard output, one frame a line: the verdict, the labels or the\n\
        blame, and the answers; or why the text is refused.\n\
        README.md describes the frames.\n\
        Where a read or a write fails, standard error tells why. No answer is empty:\n\
        an empty output is a failure. The exit status is always 0.\n",
    )
}

// Does what the only argument asks for.
pub(crate) fn answer_argument<E: Env, O: Write, W: Write>(
    env: &E,
    stdout: &mut O,
    stderr: &mut W,
) -> io::Result<()> {
    let mut buffer = [0u8; SHOWN];
    let n = first_argument(env, &mut buffer);
    let argument = &buffer[..n];
    match asked(argument) {
        Request::Help => put_help(stdout),
        Request::Version => put(stdout, b"bucketmonk 0.2.0\n"),
        Request::Unknown => {
            refuse(stderr, b"unknown argument: ", argument);
            Ok(())
        }
    }
}
