//! The table of jobs, as text on standard input: a family's name, then its jobs, one to a line. Lines that begin with # are comments.

use crate::answer::Expected;
use crate::format::Equation;
use crate::small::Job;
use crate::tally::Tally;
use crate::text::Line;
use crate::{line, search, trial};
use std::alloc::{AllocError, Global};
use std::io;

// Where memory comes from and where is printed go along as two: a struct of both would name the type of each again.
pub(crate) fn all(rt: &(impl Input + Print), alloc: Global) -> io::Result<()> {
    let text = input::read_text(rt, alloc)?;
    let mut family = Tally::default();
    // What no line end closes is no line, and passed over. Other programs go through their lines likewise; all that they share is `input`.
    for written in text.as_slice().split_inclusive(|x| *x == b'\n') {
        if let Some(written) = written.strip_suffix(b"\n") {
            line(rt, alloc, &mut family, written)?;
        }
    }
    family.report(rt)
}

// One line, without its end.
fn line(rt: &impl Print, alloc: Global, family: &mut Tally, written: &[u8]) -> io::Result<()> {
    if written.is_empty() || written.starts_with(b"#") {
        return Ok(());
    }
    let read = Line::read(alloc, written)?;
    if read.has(b':') {
        return job(rt, alloc, family, &read);
    }
    family.report(rt)?;
    *family = Tally::default();
    rt.write_all(written)
}

// Behind the bar two numbers are a reason and a row, and one says how many forms of the job there are, against the plain search. Without
// a bar it is the plain search that says what is expected.
fn job(rt: &impl Print, alloc: Global, family: &mut Tally, read: &Line) -> io::Result<()> {
    let job = read.job(alloc)?;
    let expected = match read.expected() {
        1 => return forms(rt, alloc, family, read, job),
        2 => Expected::refused(
            alloc,
            line::word(read.after(b'|', 0)),
            line::word(read.after(b'|', 1)),
        ),
        _ if read.has(b'|') => read.expect(alloc)?,
        _ => searched(alloc, job.as_slice())?,
    };
    let right = trial::is_right(rt, alloc, job.as_slice(), &expected)?;
    family.judge(rt, right)
}

fn searched(alloc: Global, job: &[u8]) -> Result<Expected, AllocError> {
    search::expect(alloc, &Job::read(alloc, job)?)
}

// Forms of its last equation in turn stand in the job of the line.
fn forms(
    rt: &impl Print,
    alloc: Global,
    family: &mut Tally,
    read: &Line,
    mut job: Vec<u8>,
) -> io::Result<()> {
    let last = read.equation_count().checked_sub(1);
    for code in 0..read.after(b'|', 0).cast_unsigned() {
        if let Some(k) = last {
            form(code, read.equation(k)).replace_last(&mut job)?;
        }
        let expected = searched(alloc, job.as_slice())?;
        let right = trial::is_right(rt, alloc, job.as_slice(), &expected)?;
        family.judge(rt, right)?;
    }
    Ok(())
}

// With either variable on the left, a and b of both signs and 1 to 3 in size, and c from 0 out to both sides, 72 forms for each.
fn form(code: u64, e: Equation<i64>) -> Equation<i64> {
    let (left, right) = if code % 2 == 1 {
        (e.right, e.left)
    } else {
        (e.left, e.right)
    };
    Equation {
        a: signed(code / 2, 1 + code / 8 % 3),
        left,
        b: signed(code / 4, 1 + code / 24 % 3),
        right,
        c: signed(code / 72, (code / 72 + 1) / 2),
    }
}

fn signed(odd: u64, size: u64) -> i64 {
    let size = size.cast_signed();
    if odd % 2 == 0 {
        size
    } else {
        size.wrapping_neg()
    }
}
