//! What the program is given: its words, the job, from standard input, and its amendments, from a file. Both go into buffers of `main`, so
//! that no memory has to be asked for.

ghost use Rattle.std.specs.Prelude.{◌≢◌, IfErr};
ghost use Rattle.std.specs.Io.{ReadsAtMost};
ghost use Rattle.std.specs.IoError.{error_kind};

use std::env::FillError;
use std::fs::File;
use std::io;
use std::io::{ErrorKind, Read};
use std::rt::{Env, Files};

// The words are asked for one by one, each into a buffer of its own: `std::env::args` fails where any word of the call is no text.

/// Is a map asked for? The first word is `map`, or at least begins like it.
pub(crate) fn asks_for_map(rt: &impl Env) -> bool {
    let mut word = [0u8; 1];
    // A longer word leaves its first byte too.
    let _ = rt.arg(1, &mut word);
    word == *b"m"
}

/// The file that the second word names, opened for reading, or `None` where there is no such word, and so no amendments. Where it cannot
/// be opened, that is told on standard error.
pub(crate) fn open_amendments<R: Env + Files + Eprint>(rt: &R) -> io::Result<Option<R::File>> {
    let mut path = [0u8; 4096];
    let length = match rt.arg(2, &mut path) {
        Ok(length) => length,
        Err(FillError::NotPresent) => return Ok(None),
        Err(FillError::TooLong) => return told(rt, "amendments", ErrorKind::InvalidFilename.into()),
    };
    // A path of std's is text.
    let Ok(path) = std::str::from_utf8(&path[..length]) else {
        return told(rt, "amendments", ErrorKind::InvalidFilename.into());
    };
    match File::open(rt, path) {
        Ok(file) => Ok(Some(file)),
        Err(e) => told(rt, path, e),
    }
}

// The error, after it is told on standard error.
fn told<T>(rt: &impl Eprint, name: &str, e: io::Error) -> io::Result<T> {
    eprintln!(rt; "{name}: {e}")?;
    Err(e)
}

/// One byte more than the most amendments, 20·512 bytes. Of a longer file so much is enough: where the job is not refused, it is, for its
/// length (`longer_same` in `crates/jobs/proofs/LongInput.antt`).
pub type Amendments = [u8; 10241];

/// Reads the amendments in an open file, as `input::fill` does; where there is no file there are none.
pub(crate) fn read_amendments(
    file: Option<impl Read + Drop>,
    buffer: &mut Amendments,
) -> io::Result<usize>
    ensures prefix { ReadsAtMost result buffer.new }
    ensures retried { IfErr result (λ e. error_kind e ≢ ErrorKind.Interrupted) }
{
    match file {
        Some(mut file) => input::fill(&mut file, buffer),
        None => Ok(0),
    }
}

/// One byte more than the longest lawful job, 24 + 12·256 + 20·1,024 bytes. Of longer input so much is enough: reasons 1 to 3 look only at
/// the header, and as no lawful job is of that length, reason 4 holds of the part as of the whole (`longer_same`: verdict and areas are the
/// same).
pub type Job = [u8; 23577];

/// Reads the job on standard input, as `input::fill` does.
pub(crate) fn read_job(rt: &impl Input, buffer: &mut Job) -> io::Result<usize>
    ensures prefix { ReadsAtMost result buffer.new }
    ensures retried { IfErr result (λ e. error_kind e ≢ ErrorKind.Interrupted) }
{
    input::fill(&mut rt.reader(), buffer)
}
