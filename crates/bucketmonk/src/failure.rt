// Why the program could not answer.
use std::{fmt, io};

#[derive(Clone, Copy)]
pub(crate) enum Failure {
    // Standard input could not be read.
    Input(io::Error),
    // Standard output could not be written.
    Output(io::Error),
}

// The stream, and what the system says of it.
impl fmt::Display for Failure {
    fn fmt<W: fmt::Write>(&self, f: &mut fmt::Formatter<W>) -> fmt::Result {
        match self {
            Failure::Input(e) => write!(f, "stdin: {e}"),
            Failure::Output(e) => write!(f, "stdout: {e}"),
        }
    }
}
