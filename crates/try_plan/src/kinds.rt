//! How many of the pseudo-random jobs are of each kind: it shows what is tried.

use crate::answer::Answer;
use crate::small::Job;
use crate::{random, search};
use std::alloc::{AllocError, Global};
use std::io;

/// A line for each kind, of the first so many jobs.
pub(crate) fn report(rt: &impl Print, alloc: Global, jobs: u64) -> io::Result<()> {
    let mut seen = Vec::new(alloc);
    for i in 0..jobs {
        let job = random::job(alloc, i)?;
        seen.push(Traits::of(alloc, &Job::read(alloc, job.as_slice())?)?)?;
    }
    let seen = seen.as_slice();
    line(rt, seen, "all", |_| true)?;
    line(rt, seen, "several groups", |job| job.groups > 1)?;
    line(rt, seen, "an untied variable", |job| job.has_untied)?;
    line(rt, seen, "a ring", |job| job.has_ring)?;
    line(rt, seen, "a low above its high", |job| job.has_empty_bounds)?;
    line(rt, seen, "several best", |job| job.best_lists > 1)
}

// How many jobs of a kind are planned, and how many have no fit.
fn line<F: Fn(&Traits) -> bool>(
    rt: &impl Print,
    jobs: &[Traits],
    name: &str,
    is_of_kind: F,
) -> io::Result<()>
    requires { F.IsAlwaysCallable is_of_kind }
{
    let planned = jobs
        .iter()
        .filter(|job| is_of_kind(job) && job.is_planned)
        .count();
    let no_fit = jobs
        .iter()
        .filter(|job| is_of_kind(job) && !job.is_planned)
        .count();
    println!(rt; "{name}: planned {planned} no fit {no_fit}")
}

/// What is told of a job.
#[derive(Clone, Copy)]
struct Traits {
    is_planned: bool,
    groups: u16,
    has_untied: bool,
    has_ring: bool,
    has_empty_bounds: bool,
    best_lists: u32,
}

impl Traits {
    fn of(alloc: Global, job: &Job) -> Result<Traits, AllocError> {
        let groups = job.labels().groups_below(job.len());
        Ok(Traits {
            is_planned: matches!(search::expect(alloc, job)?.answer, Answer::Planned(_)),
            groups,
            has_untied: has_untied(job),
            // More equations than join anything.
            has_ring: job.variables.len() < job.equations.len() + usize::from(groups),
            has_empty_bounds: job.variables.iter().any(|v| v.low > v.high),
            best_lists: search::best_lists(alloc, job)?,
        })
    }
}

// Is there a variable that no equation names, beside others?
fn has_untied(job: &Job) -> bool {
    job.len() > 1 && !(0..job.len()).all(|i| is_named(job, i))
}

fn is_named(job: &Job, i: u16) -> bool {
    job.equations.iter().any(|e| e.left == i || e.right == i)
}
