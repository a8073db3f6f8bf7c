//! The planner for a host in C: what each entry of the archive gives. Each gives a struct by value; a field that does not apply is 0.
//! The crate `host_c` exports them.
//!
//! Read `specs/Answers.antt`, which says what each struct is for each answer, beside this file. `host/fitplan.h` declares the same for C,
//! and nothing checks the one against the other: change both.
#![tactic(auto)]

ghost use Rattle.std.specs.Prelude.{◌≡◌, []};
ghost use Rattle.ints.specs.Division.{division};
ghost use Rattle.runs.specs.Workings.{meeting, carrying};
ghost use Rattle.jobs.specs.Call.{call_of};
ghost use Rattle.jobs.specs.Faults.{checked};
ghost use Rattle.jobs.specs.Demands.{UntouchedUnless};
ghost use Rattle.planner.specs.Lending.{areas_in};
ghost use Rattle.host.specs.Answers.{lent_by, PlansFor, checked_for, quotient_for, run_for, equation_for, working_for};

use planner::Areas;
use runs::Equation;

// the structs of the answers, made of what the planner and the workings answer
mod answers;

/// What a planning call gives. `kind` is 1 planned, 2 no fit, 3 refused; `worth` is of the plan, `count` the lowest count of the first group
/// without a fit-out, `reason` and `row` those of the refusal.
// Numbers for kinds and reasons, here and below: the C interface.
#[repr(C)]
#[derive(Clone, Copy)]
pub struct FitOutcome {
    pub kind: u32,
    pub count: u32,
    pub reason: u32,
    pub row: u32,
    pub worth: i64,
}

/// What the checks give: reason 0 where nothing is refused.
#[repr(C)]
#[derive(Clone, Copy)]
pub struct FitChecked {
    pub reason: u32,
    pub row: u32,
}

/// What division gives: reason 0 where there is a quotient.
#[repr(C)]
#[derive(Clone, Copy)]
pub struct FitQuotient {
    pub reason: u32,
    pub row: u32,
    pub quotient: i64,
}

/// A run: a first number, a step and how many.
#[repr(C)]
#[derive(Clone, Copy)]
pub struct FitRun {
    pub first: i64,
    pub step: i64,
    pub many: u32,
}

/// What meeting and carrying give: reason 0 where there is a run.
#[repr(C)]
#[derive(Clone, Copy)]
pub struct FitWorking {
    pub reason: u32,
    pub row: u32,
    pub run: FitRun,
}

/// Plans a job with its amendments. The lowest bit of `lent` says that the map area is lent; the others say nothing. Its name changes with
/// its parameters, so that a host compiled for others does not link.
pub fn fit_plan_v2(
    job: &[u8],
    amendments: &[u8],
    area: &mut [u8],
    map: &mut [u8],
    lent: u32,
) -> FitOutcome
    ensures plans_for { PlansFor (call_of job.now amendments.now (areas_in (lent_by lent) area.old map.old)) result (areas_in (lent_by lent) area.new map.new) }
    ensures untouched_unless { UntouchedUnless (lent_by lent).map map.old map.new }
{
    let mut areas = Areas {
        sheet: &mut *area,
        map: &mut *map,
        lent: answers::lent_by(lent),
    };
    planner::plan(job, amendments, &mut areas).into()
}

/// The job check: as the planner through reason 7.
#[tactic(auto, unfolding(jobs::specs::Faults::checked))]
pub fn fit_check(job: &[u8]) -> FitChecked
    ensures { result ≡ checked_for (checked job.now []) }
{
    FitChecked::from(&jobs::check(job))
}

/// The check of a job and its amendments: as the planner through the amendments' reasons, 11, 12, 13 and 5.
#[tactic(auto, unfolding(jobs::specs::Faults::checked))]
pub fn fit_check_amendments(job: &[u8], amendments: &[u8]) -> FitChecked
    ensures { result ≡ checked_for (checked job.now amendments.now) }
{
    FitChecked::from(&jobs::check_amended(job, amendments))
}

/// n / d rounded towards the lower whole number.
pub fn fit_divide(n: i64, d: i64) -> FitQuotient
    ensures { result ≡ quotient_for (division n d) }
{
    ints::divide(n, d).into()
}

/// The run of the numbers in both runs.
pub fn fit_meet(a: FitRun, b: FitRun) -> FitWorking
    ensures { result ≡ working_for (meeting (run_for a) (run_for b)) }
{
    runs::meeting(a.into(), b.into()).into()
}

/// The run of all p that have a partner q in the run, with a·p + b·q = c.
pub fn fit_carry(a: i64, b: i64, c: i64, q: FitRun) -> FitWorking
    ensures { result ≡ working_for (carrying (equation_for a b c) (run_for q)) }
{
    runs::carrying(Equation { a, b, c }, q.into()).into()
}
