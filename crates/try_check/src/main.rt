//! Runs the job check: every reason and every limit of document 01's table, and the order of its lines. Standard input is printed as it
//! is, with the check's answer in the place of each job. The expected output is not taken from the program: it was worked out from
//! document 01.
#![tactic(auto)]

use std::io;

// the job of some numbers
mod job;
// what is printed
mod report;

fn main(rt: HostRuntime) -> io::Result<()> {
    let alloc = rt.alloc();
    let text = input::read_text(&rt, alloc)?;
    report::run(&rt, alloc, text.as_slice())
}
