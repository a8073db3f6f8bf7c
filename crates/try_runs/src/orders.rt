//! Lists of three to five runs, each met in several orders and groupings: the answers have to be one.

use crate::random::KINDS;
use crate::tally::Tally;
use crate::{answer, random};
use reasons::Reason;
use runs::Run;
use std::alloc::Global;
use std::io;

const LISTS: u64 = 6000;

// Beside the one in which the first two that are left are met each time.
const WAYS: u64 = 12;

// The seed of that one: the number after 0 is 0, so that it stays.
const FIRST_TWO: u64 = 0;

/// What the lists come to, and one number into which all their runs go.
#[derive(Clone, Copy, Default)]
struct Results {
    tally: Tally,
    refused: u64,
    mark: u64,
}

/// The lists that disagree stand on lines above these.
pub(crate) fn all(rt: &impl Print, alloc: Global) -> io::Result<()> {
    let mut results = Results::default();
    for i in 0..LISTS {
        results.take(rt, alloc, i)?;
    }
    results.tally.show(rt, "lists", " ")?;
    println!(rt; "lists refused {} mark {}", results.refused, results.mark)
}

impl Results {
    // List i.
    fn take(&mut self, rt: &impl Print, alloc: Global, i: u64) -> io::Result<()> {
        let seed = pseudo_random::mixed(i);
        let kind = KINDS[(i / 3 % 4) as usize];
        let list = random::list(alloc, seed, kind, (i % 3 + 3) as u32)?;
        let answer = met(list.clone()?, FIRST_TWO);
        let same = agree(rt, &list, seed, answer)?;
        if !same {
            println!(rt; "in list {i}")?;
        }
        self.tally.judge(same);
        match answer {
            Ok(run) => {
                self.tally.count(run.many);
                self.mark = marked(self.mark, run);
            }
            Err(_) => self.refused = self.refused.saturating_add(1),
        }
        Ok(())
    }
}

fn marked(mark: u64, r: Run) -> u64 {
    let first = pseudo_random::next(mark ^ r.first.cast_unsigned());
    let step = pseudo_random::next(first ^ r.step.cast_unsigned());
    pseudo_random::next(step ^ u64::from(r.many))
}

// Do all ways give this answer?
fn agree(
    rt: &impl Print,
    list: &Vec<Run>,
    seed: u64,
    answer: Result<Run, Reason>,
) -> io::Result<bool> {
    for way in 0..WAYS {
        let of_way = pseudo_random::mixed(seed.wrapping_add(1000 + way));
        if !answer::agree(rt, answer, met(list.clone()?, of_way))? {
            return Ok(false);
        }
    }
    Ok(true)
}

// Two of the runs that are left are met, and what they meet in takes their place, until one is left. Which two, the seed says: so
// every order and every grouping may come. A refusal ends it.
fn met(mut left: Vec<Run>, mut seed: u64) -> Result<Run, Reason> {
    // A while: nothing is counted, the list that is left shrinks.
    while left.len() > 1 {
        let many = left.len() as u64;
        let i = (seed % many) as usize;
        let apart = 1 + seed / 65536 % (many - 1);
        let j = ((i as u64 + apart) % many) as usize;
        left[i] = runs::meeting(left[i], left[j])?;
        left.swap_remove(j);
        seed = pseudo_random::next(seed);
    }
    // No run at all: nothing is left out.
    Ok(left.pop().unwrap_or(Run::full()))
}
