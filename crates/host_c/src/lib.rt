//! The archive for a host in C: the entries of the crate `host`, exported under their names, with the same promises. They stand twice because
//! only a static library's own functions are exported, and no crate can rest on one.
#![tactic(auto)]

ghost use Rattle.std.specs.Prelude.{◌≡◌, []};
ghost use Rattle.ints.specs.Division.{division};
ghost use Rattle.runs.specs.Workings.{meeting, carrying};
ghost use Rattle.jobs.specs.Call.{call_of};
ghost use Rattle.jobs.specs.Faults.{checked};
ghost use Rattle.jobs.specs.Demands.{UntouchedUnless};
ghost use Rattle.planner.specs.Lending.{areas_in};
ghost use Rattle.host.specs.Answers.{lent_by, PlansFor, checked_for, quotient_for, run_for, equation_for, working_for};

use host::{FitChecked, FitOutcome, FitQuotient, FitRun, FitWorking};

/// [`host::fit_plan_v2`].
#[unsafe(no_mangle)]
pub extern "C" fn fit_plan_v2(
    job: &[u8],
    amendments: &[u8],
    area: &mut [u8],
    map: &mut [u8],
    lent: u32,
) -> FitOutcome
    ensures plans_for { PlansFor (call_of job.now amendments.now (areas_in (lent_by lent) area.old map.old)) result (areas_in (lent_by lent) area.new map.new) }
    ensures untouched_unless { UntouchedUnless (lent_by lent).map map.old map.new }
{
    host::fit_plan_v2(job, amendments, area, map, lent)
}

/// [`host::fit_check`].
#[unsafe(no_mangle)]
pub extern "C" fn fit_check(job: &[u8]) -> FitChecked
    ensures { result ≡ checked_for (checked job.now []) }
{
    host::fit_check(job)
}

/// [`host::fit_check_amendments`].
#[unsafe(no_mangle)]
pub extern "C" fn fit_check_amendments(job: &[u8], amendments: &[u8]) -> FitChecked
    ensures { result ≡ checked_for (checked job.now amendments.now) }
{
    host::fit_check_amendments(job, amendments)
}

/// [`host::fit_divide`].
#[unsafe(no_mangle)]
pub extern "C" fn fit_divide(n: i64, d: i64) -> FitQuotient
    ensures { result ≡ quotient_for (division n d) }
{
    host::fit_divide(n, d)
}

/// [`host::fit_meet`].
#[unsafe(no_mangle)]
pub extern "C" fn fit_meet(a: FitRun, b: FitRun) -> FitWorking
    ensures { result ≡ working_for (meeting (run_for a) (run_for b)) }
{
    host::fit_meet(a, b)
}

/// [`host::fit_carry`].
#[unsafe(no_mangle)]
pub extern "C" fn fit_carry(a: i64, b: i64, c: i64, q: FitRun) -> FitWorking
    ensures { result ≡ working_for (carrying (equation_for a b c) (run_for q)) }
{
    host::fit_carry(a, b, c, q)
}
