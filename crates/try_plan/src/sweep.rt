//! Pseudo-random jobs against the plain search.

use crate::small::Job;
use crate::tally::Tally;
use crate::{kinds, random, search, trial};
use std::alloc::Global;
use std::io;

const JOBS: u64 = 3000;

pub(crate) fn all(rt: &impl Print, alloc: Global) -> io::Result<()> {
    print!(rt; "random")?;
    let mut t = Tally::default();
    for i in 0..JOBS {
        let job = random::job(alloc, i)?;
        let x = search::expect(alloc, &Job::read(alloc, job.as_slice())?)?;
        let right = trial::is_right(rt, alloc, job.as_slice(), &x)?;
        t.judge(rt, right)?;
    }
    let seed = pseudo_random::SEED;
    println!(rt; " jobs {} seed {seed} differ {}", t.jobs, t.differ)?;
    kinds::report(rt, alloc, JOBS)
}
