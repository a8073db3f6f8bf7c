//! The planner: it reads a job and writes the sheet of its best solution, or says why there is none.
//!
//! Read `specs/Lib.antt`, then this file, then the modules in the order in which they are listed. Arrays have 256 or 1,024 places, as many
//! as a job may have rows of a kind, and are lent: the archive has no heap.
#![tactic(auto)]

ghost use Rattle.std.specs.Prelude.{◌≡◌, ◌+◌, ◌*◌, ◌≤◌, ◌↔◌, IsTrue, length};
ghost use Rattle.jobs.specs.Call.{call_of};
ghost use Rattle.jobs.specs.Solution.{number};
ghost use Rattle.jobs.specs.Component.{component_count};
ghost use Rattle.jobs.specs.SheetOffsets.{sheet_length};
ghost use Rattle.jobs.specs.ReasonTable.{Shorter};
ghost use Rattle.jobs.specs.Faults.{first_broken};
ghost use Rattle.jobs.specs.Findings.{findings};
ghost use Rattle.jobs.specs.Verdict.{fitting};
ghost use Rattle.jobs.specs.SheetLayout.{sheet_of};
ghost use Rattle.jobs.specs.AreasAfter.{sheet_after};
ghost use Rattle.jobs.specs.Demands.{UntouchedUnless, Plans};
ghost use Rattle.families.specs.ModelFindings.{findings_by};
ghost use Rattle.solver.specs.StateArrays.{label_in, run_in};
ghost use Rattle.little_endian.specs.Over.{over};
ghost use Rattle.planner.specs.Outcome.{verdict_of, refusal_of, outcome_of, fit_verdict};
ghost use Rattle.planner.specs.Lending.{lent_in, SameBorrows};
ghost use Rattle.planner.specs.Survey.{job_accepted, Surveyed};

use choose::{Chosen, Families};
use jobs::{Accepted, Bounds};
use reasons::Reason;
use runs::Run;
use solver::structure::Structure;
use solver::{State, components, equations, structure, variables};

// the choice in each component
mod choose;
// what the headers of both begin with
mod header;
// the sheet
mod sheet;
// the map
mod map;

/// The planner's answer: one of three, where a refusal holds its reason with the row, as document 01 wants it.
#[derive(Clone, Copy)]
pub enum Outcome {
    /// The sheet stands in the answer area, and its numbers are worth so much.
    Planned(i64),
    /// No numbers fit; this is the lowest variable of the first component that has none.
    NoFit(u16),
    /// The job or its amendments are faulty, or an area is too short; nothing is written.
    Refused(Reason),
}

// What the plan of a job comes to that is not refused. No fit is an answer and no error, so this is no `Result`: `?` would hand it on as
// a refusal.
#[derive(Clone, Copy)]
enum Fit {
    Planned(i64),
    NoFit(u16),
}

/// Does a call lend the map area? The answer area is always lent.
#[derive(Clone, Copy)]
pub struct Lent {
    pub map: bool,
}

/// The areas of a planning call: the answer area, for the sheet, and the map area, which is any slice where it is not lent. The flag stands
/// beside the slice: with an `Option` of a slice in a field, a caller's proof knows of it no more than its length.
#[derive(Drop)]
pub struct Areas<'s, 'm> {
    pub sheet: &'s mut [u8],
    pub map: &'m mut [u8],
    pub lent: Lent,
}

impl Areas<'_, '_> {
    // Is the map area lent, and shorter than this?
    fn is_map_short(&self, length: usize) -> bool
        ensures { IsTrue result ↔ Shorter (lent_in self.now).map length }
    {
        self.lent.map && self.map.len() < length
    }
}

/// Plans a job with its amendments: any bytes, and any areas. The verdict and the areas afterwards are those of the definitions, and they
/// keep the demands of the service port, of the installer, of the buyer and of the repair bench; a refusal has the first reason of the
/// table whose rule is broken. A map area that is not lent stays as it is.
pub fn plan(job: &[u8], amendments: &[u8], areas: &mut Areas) -> Outcome
    ensures same_areas { SameBorrows areas.old areas.new }
    ensures plans { Plans (call_of job.now amendments.now (lent_in areas.old)) (verdict_of result) (lent_in areas.new) }
    ensures first_broken_rule { refusal_of result ≡ first_broken (call_of job.now amendments.now (lent_in areas.old)) }
    ensures unlent { UntouchedUnless areas.old.lent.map areas.old.map.now areas.new.map.now }
{
    match attempt(job, amendments, areas) {
        Ok(Fit::Planned(worth)) => Outcome::Planned(worth),
        Ok(Fit::NoFit(variable)) => Outcome::NoFit(variable),
        Err(reason) => Outcome::Refused(reason),
    }
}

// The plan, or why there is none. Whether the areas are long enough is asked before any fit is sought and anything written.
fn attempt(job: &[u8], amendments: &[u8], areas: &mut Areas) -> Result<Fit, Reason>
    ensures same_areas { SameBorrows areas.old areas.new }
    ensures plans { Plans (call_of job.now amendments.now (lent_in areas.old)) (verdict_of (outcome_of result)) (lent_in areas.new) }
    ensures first_broken_rule { refusal_of (outcome_of result) ≡ first_broken (call_of job.now amendments.now (lent_in areas.old)) }
    ensures unlent { UntouchedUnless areas.old.lent.map areas.old.map.now areas.new.map.now }
{
    let accepted = Accepted::of(job, amendments)?;
    let g = surveyed(accepted, areas)?;
    Ok(solved(accepted, areas.sheet, g))
}

// Writes the map, if its area is lent, and gives the number of components, where the areas are long enough for the job. The arrays of
// the job's structure end here, so that their stack serves the families too.
fn surveyed(accepted: Accepted, areas: &mut Areas) -> Result<usize, Reason>
    ensures same_areas { SameBorrows areas.old areas.new }
    ensures sheet { areas.new.sheet.now ≡ areas.old.sheet.now }
    ensures surveyed { Surveyed accepted.entry areas.old areas.new.map.now result }
{
    let shape = accepted.lawful.job.shape;
    let mut structure = Structure {
        labels: [0; 256],
        degrees: [0; 256],
        homes: [0; 1024],
        kinds: [0; 1024],
    };
    structure::of_job(accepted.lawful, &mut structure);
    let g = components::count(&structure.labels, shape.variables);
    if areas.sheet.len() < sheet::length(shape, g) {
        return Err(Reason::ShortArea);
    }
    if areas.is_map_short(map::length(shape)) {
        return Err(Reason::ShortMap);
    }
    if areas.lent.map {
        map::write(areas.map, &structure, shape, g);
    }
    Ok(g)
}

// The plan of a job with g components, into an area that is long enough.
fn solved(accepted: Accepted, area: &mut [u8], g: usize) -> Fit
    requires components { g ≡ component_count (job_accepted accepted) }
    requires room { sheet_length (job_accepted accepted) ≤ length area.old }
    ensures fits { fit_verdict result ≡ fitting (job_accepted accepted.entry) }
    ensures area_after { area.new ≡ sheet_after (findings (job_accepted accepted.entry)) (fitting (job_accepted accepted.entry)) area.old }
{
    let shape = accepted.lawful.job.shape;
    let mut bounds = [Bounds { low: 0, high: 0 }; 256];
    let mut weights = [0; 256];
    variables::in_force(accepted, &mut bounds, &mut weights);
    let mut state = State {
        labels: [0; 256],
        runs: [Run::empty(); 256],
    };
    equations::families(accepted.lawful, &bounds, &mut state);
    match choose::first_empty(&state.runs, shape) {
        Some(variable) => Fit::NoFit(variable),
        None => {
            let families = Families {
                state: &state,
                weights: &weights,
                variables: shape.variables,
                components: g,
            };
            Fit::Planned(written(area, families))
        }
    }
}

// The sheet of what is found, and what it is worth.
fn written(area: &mut [u8], families: Families) -> i64
    requires { 24 + 16 * families.variables + 16 * families.components ≤ length area.old }
    ensures worth { result ≡ (findings_by families.entry.variables (number families.entry.weights.now) (label_in families.entry.state.now.labels) (run_in families.entry.state.now.runs)).objective }
    ensures area_after { area.new ≡ over 0 (sheet_of (findings_by families.entry.variables (number families.entry.weights.now) (label_in families.entry.state.now.labels) (run_in families.entry.state.now.runs))) area.old }
{
    let slopes = families.slopes();
    let numbers = families.numbers(&slopes);
    let worth = families.worth(&numbers);
    let chosen = Chosen {
        families,
        slopes: &slopes,
        numbers: &numbers,
        worth,
    };
    sheet::write(area, chosen);
    worth
}
