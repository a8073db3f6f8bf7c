//! Runs the meeting and the carrying working: each question on standard input, vectors at the edges of their ranges and every refusal,
//! is printed with its answer; then all small cases are compared with a plain search; then lists of runs are met in several orders and
//! groupings. The expected output is not taken from the program: a comment above each group of questions says how its answers were
//! worked out. The results of the search are counted too, and the expected counts come from sets of numbers, so that the output shows
//! that the search itself is right. What the lists come to was worked out by sieving, a run after the other, with whole numbers of any
//! size.
#![tactic(auto)]

use std::io;

// what a working answers
mod answer;
// the questions
mod questions;
// the plain search
mod search;
// how many trials agree, and what their results are
mod tally;
// all small cases against the search
mod compare;
// pseudo-random lists of runs
mod random;
// those lists in several orders and groupings
mod orders;

fn main(rt: HostRuntime) -> io::Result<()> {
    let alloc = rt.alloc();
    questions::all(&rt, alloc)?;
    compare::meetings(&rt, alloc)?;
    compare::carryings(&rt, alloc)?;
    orders::all(&rt, alloc)
}
