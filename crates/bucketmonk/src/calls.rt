// Reads and writes. A call that a signal interrupts before it moves a byte is made again. A proved loop has to end, and nothing says
// that interruptions do: so many calls are made that no run uses them up.
ghost use Rattle.std.specs.Prelude.{ℕ, List, ◌≡◌, ◌≢◌, ◌<◌, ◌≤◌, length, take, IfOk, IfErr, OnOk, OnErr};
ghost use Rattle.std.specs.Io.KnownBytes.{Appends, Consumes, IsAtEnd, Keeps};
ghost use Rattle.std.specs.IoError.{error_kind};
ghost use Rattle.bucketmonk.specs.Calls.{PutsBytes, Within};

use std::io;
use std::io::{Error, ErrorKind, Read, Write};

// One read.
fn read_some<R: Read>(reader: &mut R, buffer: &mut [u8]) -> io::Result<usize>
    ensures within { Within result (length buffer.new) }
    ensures bytes { IfOk result (λ n. Consumes (R.remaining reader.old) (R.remaining reader.new) (take n buffer.new)) }
    ensures end { IfOk result (λ n. n ≡ 0 → 0 < length buffer.new → IsAtEnd (R.remaining reader.new)) }
    ensures unread { OnErr result (Keeps (R.remaining reader.old) (R.remaining reader.new)) }
    ensures repeated { IfErr result (λ e. error_kind e ≢ ErrorKind.Interrupted) }
{
    for _ in 0..u64::MAX {
        match reader.read(buffer) {
            Ok(got) => return Ok(got),
            Err(e) => {
                if e.kind() != ErrorKind::Interrupted {
                    return Err(e);
                }
            }
        }
    }
    Err(Error::from(ErrorKind::TimedOut))
}

// Reads until the buffer is full, the input ends or a read fails.
pub(crate) fn read_input<R: Read>(reader: &mut R, buffer: &mut [u8]) -> io::Result<usize>
    ensures within { Within result (length buffer.new) }
    ensures bytes { IfOk result (λ n. Consumes (R.remaining reader.old) (R.remaining reader.new) (take n buffer.new)) }
    ensures end { IfOk result (λ n. n < length buffer.new → IsAtEnd (R.remaining reader.new)) }
    ensures lost { OnErr result ((bs : List ℕ) × (length bs ≤ length buffer.new) × Consumes (R.remaining reader.old) (R.remaining reader.new) bs) }
    ensures repeated { IfErr result (λ e. error_kind e ≢ ErrorKind.Interrupted) }
{
    let mut done = 0;
    while done < buffer.len() {
        let got = read_some(reader, &mut buffer[done..])?;
        if got == 0 {
            return Ok(done);
        }
        done = done + got;
    }
    Ok(done)
}

// One write.
fn write_some<W: Write>(writer: &mut W, bytes: &[u8]) -> io::Result<usize>
    ensures within { Within result (length bytes.now) }
    ensures appended { IfOk result (λ n. Appends (W.contents writer.old) (W.contents writer.new) (take n bytes.now)) }
    ensures unwritten { OnErr result (Keeps (W.contents writer.old) (W.contents writer.new)) }
    ensures repeated { IfErr result (λ e. error_kind e ≢ ErrorKind.Interrupted) }
{
    for _ in 0..u64::MAX {
        match writer.write(bytes) {
            Ok(sent) => return Ok(sent),
            Err(e) => {
                if e.kind() != ErrorKind::Interrupted {
                    return Err(e);
                }
            }
        }
    }
    Err(Error::from(ErrorKind::TimedOut))
}

// Writes until all bytes are written or a write takes none or fails; tells how many were written, and why not all.
pub(crate) fn write_bytes<W: Write>(writer: &mut W, bytes: &[u8]) -> (usize, io::Result<()>)
    ensures count { result.0 ≤ length bytes.now }
    ensures appended { Appends (W.contents writer.old) (W.contents writer.new) (take result.0 bytes.now) }
    ensures all { OnOk result.1 (result.0 ≡ length bytes.now) }
{
    let mut done = 0;
    while done < bytes.len() {
        match write_some(writer, &bytes[done..]) {
            Ok(0) => return (done, Err(Error::from(ErrorKind::WriteZero))),
            Ok(sent) => done = done + sent,
            Err(e) => return (done, Err(e)),
        }
    }
    (done, Ok(()))
}

// Writes all of the bytes, or tells why that failed.
pub(crate) fn put<W: Write>(writer: &mut W, bytes: &[u8]) -> io::Result<()>
    ensures { PutsBytes result (W.contents writer.old) (W.contents writer.new) bytes.now }
{
    let (_, end) = write_bytes(writer, bytes);
    end
}
