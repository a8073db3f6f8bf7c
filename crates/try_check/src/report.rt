//! The text, with the answer for each job that stands in braces.

use crate::job::Paper;
use input::Numbers;
use std::alloc::Global;
use std::io;

pub(crate) fn run(rt: &impl Print, alloc: Global, text: &[u8]) -> io::Result<()> {
    let mut paper = Paper::new(alloc)?;
    // By a place and no split: a brace without its other has to be passed over.
    let mut printed = 0;
    // What stands behind the last brace that opens: each byte is read once, however many close behind it.
    let mut numbers = Numbers::new();
    for (i, x) in text.iter().enumerate() {
        numbers.read(*x);
        match *x {
            b'{' => {
                rt.write_all(&text[printed..i])?;
                numbers = Numbers::new();
            }
            b'}' => {
                answer(rt, alloc, &mut paper, &numbers)?;
                printed = i + 1;
            }
            _ => {}
        }
    }
    rt.write_all(&text[printed..])
}

// Fewer than three numbers are no job; and of one that does not end on the paper nothing is said.
fn answer(rt: &impl Print, alloc: Global, paper: &mut Paper, t: &Numbers) -> io::Result<()> {
    if t.len() < 3 {
        return Ok(());
    }
    paper.write(alloc, t)?;
    let Some(job) = paper.first(t.get(2)) else {
        return Ok(());
    };
    match jobs::check(job) {
        Ok(()) => print!(rt; "accepted"),
        // `Reason` is in the archive, and formats no text.
        Err(r) => print!(rt; "{} row {}", r.number(), r.row()),
    }
}
