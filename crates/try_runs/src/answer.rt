//! What a working answers.

use reasons::Reason;
use runs::Run;
use std::io;

pub(crate) fn show(rt: &impl Print, answer: Result<Run, Reason>) -> io::Result<()> {
    match answer {
        Ok(run) => println!(rt; " is {} {} {}", run.first, run.step, run.many),
        Err(r) => println!(rt; " refused {} row {}", r.number(), r.row()),
    }
}

/// Are the two answers one? If not, both are printed.
pub(crate) fn agree(
    rt: &impl Print,
    x: Result<Run, Reason>,
    y: Result<Run, Reason>,
) -> io::Result<bool> {
    if x == y {
        return Ok(true);
    }
    print!(rt; "disagree:")?;
    show(rt, x)?;
    print!(rt; "and:")?;
    show(rt, y)?;
    Ok(false)
}
