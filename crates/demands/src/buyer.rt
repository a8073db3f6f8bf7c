//! The buyer.

ghost use Rattle.jobs.specs.Call.{call_of};
ghost use Rattle.jobs.specs.Demands.{CannotBeBettered};
ghost use Rattle.planner.specs.Outcome.{verdict_of};
ghost use Rattle.planner.specs.Lending.{lent_in, SameBorrows};

use crate::rewrite;
use planner::{Areas, Outcome};

/// Plans a job with its amendments: any bytes, and any areas.
pub fn plan(job: &[u8], amendments: &[u8], areas: &mut Areas) -> Outcome
    ensures same_areas { SameBorrows areas.old areas.new }
    ensures cannot_be_bettered { CannotBeBettered (call_of job.now amendments.now (lent_in areas.old)) (verdict_of result) (lent_in areas.new) }
{
    planner::plan(job, amendments, areas)
}

// Bytes of a sheet are written again: the number of count 0, and that of count 1 in a group apart from it.
fn plan_rewritten(job: &[u8], amendments: &[u8], areas: &mut Areas) -> Outcome
    ensures same_areas { SameBorrows areas.old areas.new }
    ensures cannot_be_bettered { CannotBeBettered (call_of job.now amendments.now (lent_in areas.old)) (verdict_of result) (lent_in areas.new) }
{
    // Used by an edit alone, which writes it in place of what stood there.
    let low = rewrite::get(job, 36);
    let outcome = planner::plan(job, amendments, areas);
    let area = &mut *areas.sheet;
    let planned = rewrite::is_planned(outcome);
    let first = rewrite::get(area, 24);
    rewrite::put(area, planned, 24, first);
    let apart = rewrite::is_apart(outcome, area);
    let number = rewrite::get(area, 40);
    rewrite::put(area, apart, 40, number);
    outcome
}
