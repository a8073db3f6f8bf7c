//! Runs the planner. The jobs on standard input are held to what was worked out by hand, or where they are small to a plain search
//! through all lists of numbers, and so are some thousands of pseudo-random ones. Each is planned in an area that is just long enough,
//! in a longer one, and in one that is a byte too short. What is compared is the outcome, and every byte of the area and of those behind
//! it. A job that differs is named in its family's line.
#![tactic(auto)]

use std::io;

// the bytes of jobs and sheets
mod format;
// jobs written as text
mod text;
// the job of a line, and what it expects
mod line;
// jobs of 256 variables
mod wide;
// what the planner answers
mod answer;
// a job in three areas
mod trial;
// small jobs
mod small;
// the plain search
mod search;
// pseudo-random jobs
mod random;
// how many came out as expected
mod tally;
// the table of jobs
mod table;
// what kinds of jobs there are
mod kinds;
// the pseudo-random jobs against the plain search
mod sweep;

fn main(rt: HostRuntime) -> io::Result<()> {
    let alloc = rt.alloc();
    table::all(&rt, alloc)?;
    sweep::all(&rt, alloc)
}
