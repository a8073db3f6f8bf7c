//! The repair bench.

ghost use Rattle.jobs.specs.Call.{call_of};
ghost use Rattle.jobs.specs.Demands.{ShowsMap};
ghost use Rattle.planner.specs.Outcome.{verdict_of};
ghost use Rattle.planner.specs.Lending.{lent_in, SameBorrows};

use crate::rewrite;
use planner::{Areas, Outcome};

/// Plans a job with its amendments: any bytes, and any areas.
pub fn plan(job: &[u8], amendments: &[u8], areas: &mut Areas) -> Outcome
    ensures same_areas { SameBorrows areas.old areas.new }
    ensures shows_map { ShowsMap (call_of job.now amendments.now (lent_in areas.old)) (verdict_of result) (lent_in areas.new) }
{
    planner::plan(job, amendments, areas)
}

// Where there is no fit the first byte of the map is written again.
fn plan_marked(job: &[u8], amendments: &[u8], areas: &mut Areas) -> Outcome
    ensures same_areas { SameBorrows areas.old areas.new }
    ensures shows_map { ShowsMap (call_of job.now amendments.now (lent_in areas.old)) (verdict_of result) (lent_in areas.new) }
{
    // Used by an edit alone, which writes it in place of what stood there.
    let lent_so = rewrite::get(areas.map, 0);
    let outcome = planner::plan(job, amendments, areas);
    let unfit = rewrite::is_unfit(outcome);
    let map = &mut *areas.map;
    let mark = rewrite::get(map, 0);
    rewrite::put(map, unfit, 0, mark);
    outcome
}
