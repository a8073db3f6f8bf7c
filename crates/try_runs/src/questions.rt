//! The questions on standard input, one to a line, as
//!
//!     meet 1 3 3 with 7 0 1
//!     carry 3 p + -5 q = 7 from -10 1 21
//!
//! Each is printed with its answer. Lines that begin with # are comments.

use crate::answer;
use input::Numbers;
use runs::{Equation, Run};
use std::alloc::Global;
use std::io;

pub(crate) fn all(rt: &(impl Input + Print), alloc: Global) -> io::Result<()> {
    let text = input::read_text(rt, alloc)?;
    // What no line end closes is no line, and passed over. The loop of `try_plan` is another: one for both would lend each line to a
    // closure that may fail, and be no shorter.
    for line in text.as_slice().split_inclusive(|x| *x == b'\n') {
        if let Some(line) = line.strip_suffix(b"\n") {
            question(rt, line)?;
        }
    }
    print!(rt; "full range")?;
    answer::show(rt, Ok(Run::full()))
}

// One line, without its end. Nothing is printed of an empty one.
fn question(rt: &impl Print, line: &[u8]) -> io::Result<()> {
    if line.is_empty() || line.starts_with(b"#") {
        return Ok(());
    }
    rt.write_all(line)?;
    let numbers = Numbers::of(line);
    let q = run(&numbers, 3);
    let answer = if line.starts_with(b"c") {
        let e = Equation {
            a: numbers.get(0),
            b: numbers.get(1),
            c: numbers.get(2),
        };
        runs::carrying(e, q)
    } else {
        runs::meeting(run(&numbers, 0), q)
    };
    answer::show(rt, answer)
}

// The run of three numbers from a place on; of how many, the lowest 32 bits.
fn run(numbers: &Numbers, at: u8) -> Run {
    let at = usize::from(at);
    Run {
        first: numbers.get(at),
        step: numbers.get(at + 1),
        many: numbers.get(at + 2).rem_euclid(4294967296) as u32,
    }
}
