//! The service port.

ghost use Rattle.jobs.specs.Call.{call_of};
ghost use Rattle.jobs.specs.Demands.{TurnsAway};
ghost use Rattle.planner.specs.Outcome.{verdict_of};
ghost use Rattle.planner.specs.Lending.{lent_in, SameBorrows};

use planner::{Areas, Outcome};
use reasons::Reason;

/// Plans a job with its amendments: any bytes, and any areas.
pub fn plan(job: &[u8], amendments: &[u8], areas: &mut Areas) -> Outcome
    ensures same_areas { SameBorrows areas.old areas.new }
    ensures turns_away { TurnsAway (call_of job.now amendments.now (lent_in areas.old)) (verdict_of result) (lent_in areas.new) }
{
    planner::plan(job, amendments, areas)
}

// A job without a whole header is turned away before the planner is asked.
fn plan_early(job: &[u8], amendments: &[u8], areas: &mut Areas) -> Outcome
    ensures same_areas { SameBorrows areas.old areas.new }
    ensures turns_away { TurnsAway (call_of job.now amendments.now (lent_in areas.old)) (verdict_of result) (lent_in areas.new) }
{
    if job.len() < 24 {
        return Outcome::Refused(Reason::ShortJob);
    }
    planner::plan(job, amendments, areas)
}
