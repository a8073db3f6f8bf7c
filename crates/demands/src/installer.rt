//! The installer.

ghost use Rattle.jobs.specs.Call.{call_of};
ghost use Rattle.jobs.specs.Demands.{GivesFits};
ghost use Rattle.planner.specs.Outcome.{verdict_of};
ghost use Rattle.planner.specs.Lending.{lent_in, SameBorrows};

use crate::rewrite;
use planner::{Areas, Outcome};
use reasons::Reason;

/// Plans a job with its amendments: any bytes, and any areas.
pub fn plan(job: &[u8], amendments: &[u8], areas: &mut Areas) -> Outcome
    ensures same_areas { SameBorrows areas.old areas.new }
    ensures gives_fits { GivesFits (call_of job.now amendments.now (lent_in areas.old)) (verdict_of result) (lent_in areas.new) }
{
    planner::plan(job, amendments, areas)
}

// A job without a whole header is turned away before the planner is asked.
#[tactic(auto, using(crate::proofs::Carried::early_gives_fits))]
fn plan_early(job: &[u8], amendments: &[u8], areas: &mut Areas) -> Outcome
    ensures same_areas { SameBorrows areas.old areas.new }
    ensures gives_fits { GivesFits (call_of job.now amendments.now (lent_in areas.old)) (verdict_of result) (lent_in areas.new) }
{
    if job.len() < 24 {
        return Outcome::Refused(Reason::ShortJob);
    }
    planner::plan(job, amendments, areas)
}

// Another job is planned first, into other areas.
fn plan_second(
    job: &[u8],
    amendments: &[u8],
    areas: &mut Areas,
    first: &[u8],
    other: &mut Areas,
) -> Outcome
    ensures same_areas { SameBorrows areas.old areas.new }
    ensures gives_fits { GivesFits (call_of job.now amendments.now (lent_in areas.old)) (verdict_of result) (lent_in areas.new) }
{
    planner::plan(first, amendments, other);
    // Named, so that an edit finds this line: the call alone stands here more than once.
    let last = planner::plan(job, amendments, areas);
    last
}

// The answer is taken apart and made again.
fn plan_passed_on(job: &[u8], amendments: &[u8], areas: &mut Areas) -> Outcome
    ensures same_areas { SameBorrows areas.old areas.new }
    ensures gives_fits { GivesFits (call_of job.now amendments.now (lent_in areas.old)) (verdict_of result) (lent_in areas.new) }
{
    match planner::plan(job, amendments, areas) {
        Outcome::Planned(worth) => Outcome::Planned(worth),
        Outcome::NoFit(variable) => Outcome::NoFit(variable),
        Outcome::Refused(reason) => Outcome::Refused(reason),
    }
}

// Bytes of the sheet of one count are written again: its group and its fits.
fn plan_single(job: &[u8], amendments: &[u8], areas: &mut Areas) -> Outcome
    ensures same_areas { SameBorrows areas.old areas.new }
    ensures gives_fits { GivesFits (call_of job.now amendments.now (lent_in areas.old)) (verdict_of result) (lent_in areas.new) }
{
    let outcome = planner::plan(job, amendments, areas);
    let area = &mut *areas.sheet;
    let single = rewrite::is_single(outcome, area);
    let group = rewrite::get(area, 36);
    rewrite::put(area, single, 36, group);
    let fits = rewrite::get(area, 40);
    rewrite::put(area, single, 40, fits);
    outcome
}

// Bytes of count 1, in a group apart from count 0, are written again: its number and its group.
fn plan_apart(job: &[u8], amendments: &[u8], areas: &mut Areas) -> Outcome
    ensures same_areas { SameBorrows areas.old areas.new }
    ensures gives_fits { GivesFits (call_of job.now amendments.now (lent_in areas.old)) (verdict_of result) (lent_in areas.new) }
{
    // Used by an edit alone, which writes it in place of what stood there.
    let low = rewrite::get(job, 36);
    let outcome = planner::plan(job, amendments, areas);
    let area = &mut *areas.sheet;
    let apart = rewrite::is_apart(outcome, area);
    let number = rewrite::get(area, 40);
    rewrite::put(area, apart, 40, number);
    let group = rewrite::get(area, 52);
    rewrite::put(area, apart, 52, group);
    outcome
}
