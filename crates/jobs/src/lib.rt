//! Jobs and their amendments: their bytes, what they mean, what is demanded of a plan, and the job check.
//!
//! Read `specs/Lib.antt` for the definitions, then this file, then the modules in the order in which it names them.
#![tactic(auto)]

ghost use Rattle.std.specs.Prelude.{◌≡◌, ◌≤◌, IfOk};
ghost use mathlib.Core.List.{[]};
ghost use Rattle.reasons.specs.Answer.{fault_of};
ghost use Rattle.jobs.specs.Call.{lending_nothing};
ghost use Rattle.jobs.specs.Job.{RowsInside, variable_count, equation_count};
ghost use Rattle.jobs.specs.Lawful.{Lawful};
ghost use Rattle.jobs.specs.ReasonTable.{Faultless};
ghost use Rattle.jobs.specs.Faults.{first_broken, answer_of, ChecksExactly};

use amendments::Amendments;
use reasons::Reason;

// the rows of variables and of equations
mod rows;
// equations in normal form
mod normal_form;
// the header
pub mod header;
// amendment sheets
pub mod amendments;

/// A variable's row, document 01's count row: its bounds and its weight.
#[derive(Clone, Copy)]
pub struct Variable {
    pub low: i64,
    pub high: i64,
    pub weight: i64,
}

/// An equation's row, document 01's tie: a·left + b·right = c, where left and right are numbers of variables.
// A record that the definitions read; its a, b and c alone are a `runs::Equation` (`form`).
#[derive(Clone, Copy)]
pub struct Equation {
    pub left: usize,
    pub right: usize,
    pub a: i64,
    pub b: i64,
    pub c: i64,
}

/// A variable's bounds. They come to the planner apart from the job's bytes, so that the same job can be planned with others.
// A record that the definitions read, and not `Interval` of `runs`, which is private to that crate.
#[derive(Clone, Copy)]
pub struct Bounds {
    pub low: i64,
    pub high: i64,
}

/// An amendment sheet: its number, that of the sheet it supersedes or 0, the variable it is for, and the bounds that replace those in the
/// variable's row while it is in force.
// The definitions of specs/Amendments read this record, so what it supersedes is 0 or a number, as in the bytes, and no Option.
#[derive(Clone, Copy)]
pub struct Amendment {
    pub serial: u32,
    pub supersedes: u32,
    pub variable: usize,
    pub low: i64,
    pub high: i64,
}

/// How many variables and equations a job has, document 01's n and m.
#[derive(Clone, Copy)]
pub struct Shape {
    pub variables: usize,
    pub equations: usize,
    ghost few_variables: { variables ≤ 256 },
    ghost few_equations: { equations ≤ 1024 },
}

/// A job whose bytes are as many as its rows take, so that every row can be read.
#[derive(Clone, Copy)]
pub struct Job<'a> {
    pub bytes: &'a [u8],
    pub shape: Shape,
    ghost rows: { RowsInside bytes.now },
    ghost variables_counted: { shape.variables ≡ variable_count bytes.now },
    ghost equations_counted: { shape.equations ≡ equation_count bytes.now },
}

/// What the job check lets through.
#[derive(Clone, Copy)]
pub struct LawfulJob<'a> {
    pub job: Job<'a>,
    ghost lawful: { Lawful job.bytes.now },
}

/// What the check of a job and its amendments lets through.
#[derive(Clone, Copy)]
pub struct Accepted<'j, 'a> {
    pub lawful: LawfulJob<'j>,
    pub amendments: Amendments<'a>,
    ghost faultless: { Faultless (lending_nothing lawful.job.bytes.now amendments.bytes.now) },
}

/// The job check: accepted, or refused with the first failing check of document 01's table, reasons 1 to 7. Takes any bytes.
#[tactic(auto, using(crate::proofs::Faults::answer_exactly, crate::proofs::Faults::accepted_exactly))]
pub fn check(job: &[u8]) -> Result<(), Reason>
    ensures first_fault { fault_of result ≡ first_broken (lending_nothing job.now []) }
    ensures checks_exactly { ChecksExactly job.now [] (answer_of result) }
{
    LawfulJob::of(job)?;
    Ok(())
}

/// The check of a job and its amendments: as the job check, and then the amendments' reasons, 11, 12, 13 and 5. Takes any bytes.
#[tactic(auto, using(crate::proofs::Faults::answer_exactly, crate::proofs::Faults::accepted_exactly))]
pub fn check_amended(job: &[u8], amendments: &[u8]) -> Result<(), Reason>
    ensures first_fault { fault_of result ≡ first_broken (lending_nothing job.now amendments.now) }
    ensures checks_exactly { ChecksExactly job.now amendments.now (answer_of result) }
{
    Accepted::of(job, amendments)?;
    Ok(())
}

impl<'a> LawfulJob<'a> {
    /// The job that these bytes are, or the first failing check of reasons 1 to 7. All variables' rows come before the equations' rows.
    #[tactic(auto, using(crate::proofs::JobChecks::header_fault))]
    pub fn of(bytes: &'a [u8]) -> Result<LawfulJob<'a>, Reason>
        ensures opened { IfOk result (λ j. j.job.bytes.now ≡ bytes.now) }
        ensures first_fault { fault_of result ≡ first_broken (lending_nothing bytes.now []) }
    {
        let job = Job::open(bytes)?;
        job.check_variables()?;
        job.check_equations()?;
        Ok(LawfulJob { job })
    }
}

impl<'j, 'a> Accepted<'j, 'a> {
    /// The job and the amendments that these bytes are, or the first failing check: the job's reasons, and then 11, 12, 13 and 5, each
    /// over all sheets before the next.
    #[tactic(auto, using(crate::proofs::AmendmentChecks::refused_with_any, crate::proofs::AmendmentChecks::length_fault))]
    pub fn of(job: &'j [u8], amendments: &'a [u8]) -> Result<Accepted<'j, 'a>, Reason>
        ensures job_opened { IfOk result (λ x. x.lawful.job.bytes.now ≡ job.now) }
        ensures amendments_opened { IfOk result (λ x. x.amendments.bytes.now ≡ amendments.now) }
        ensures first_fault { fault_of result ≡ first_broken (lending_nothing job.now amendments.now) }
    {
        let lawful = LawfulJob::of(job)?;
        let amendments = Amendments::open(amendments)?;
        amendments.check_zeros()?;
        amendments.check_references(lawful.job.shape)?;
        amendments.check_twice(lawful.job.shape)?;
        amendments.check_ranges()?;
        Ok(Accepted { lawful, amendments })
    }
}
