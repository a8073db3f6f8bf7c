//! The choice in each component, and what it comes to. A label is an index by `as usize`, as in `solver::components`.

ghost use Rattle.std.specs.Prelude.{◌≡◌, ◌≤◌, pos, length};
ghost use Rattle.lists.specs.Table.{Tabulates};
ghost use Rattle.jobs.specs.Solution.{number};
ghost use Rattle.families.specs.FamilyRun.{FamilyRun};
ghost use Rattle.families.specs.Family.{choice};
ghost use Rattle.families.specs.ModelFindings.{leads_by, slope_by};
ghost use Rattle.solver.specs.StateArrays.{label_in, run_in};
ghost use Rattle.solver.specs.Labels.{Lowest};
ghost use Rattle.planner.specs.Choice.{Members, NoneEmpty, AllWithin, FirstEmpty, number_at, number_in, objective_in};

use jobs::Shape;
use runs::Run;
use solver::State;

// The first variable that no number fits: the lowest of its component, since all variables of a component have equally many.
// Document 01 wants the loop left with `break`, so this is no `find`.
pub(crate) fn first_empty(runs: &[Run; 256], shape: Shape) -> Option<u16>
    ensures { FirstEmpty runs.now shape.variables result }
{
    let mut empty = None;
    for i in 0..shape.variables {
        if runs[i].many == 0 {
            empty = Some(i as u16);
            break;
        }
    }
    empty
}

// The index of the member that is chosen: the first where each step loses, and the last elsewhere.
pub(crate) fn choice(slope: i64, many: u32) -> u32
    requires { 1 ≤ many }
    ensures { result ≡ choice slope many }
{
    if 0 <= slope { many - 1 } else { 0 }
}

// A variable's number in the member that is chosen. The index goes by `as`: with `i64::from` the proof did not close.
fn number(run: Run, slope: i64) -> i64
    requires family_run { FamilyRun run }
    requires not_empty { 1 ≤ run.many }
    ensures { result ≡ number_at run slope }
{
    run.first + run.step * choice(slope, run.many) as i64
}

/// The families of so many variables, with a weight each, in so many components; each component has a fit.
#[derive(Clone, Copy)]
pub(crate) struct Families<'s> {
    pub state: &'s State,
    pub weights: &'s [i64; 256],
    pub variables: usize,
    pub components: usize,
    ghost few: { variables ≤ 256 },
    ghost weights_small: { AllWithin 1000000 weights.now variables },
    ghost lowest: { Lowest state.now.labels variables },
    ghost members: { Members state.now.labels state.now.runs variables },
    ghost none_empty: { NoneEmpty state.now.runs variables },
    ghost counted: { components ≡ length (leads_by (label_in state.now.labels) variables) },
}

impl Families<'_> {
    // The slope of each component, at its lowest variable: what a step along its family adds to the objective.
    pub(crate) fn slopes(self) -> [i64; 256]
        ensures { Tabulates (pos 0) (slope_by self.entry.variables (number self.entry.weights.now) (label_in self.entry.state.now.labels) (run_in self.entry.state.now.runs)) self.entry.variables result }
    {
        let mut slopes = [0; 256];
        for i in 0..self.variables {
            slopes[self.state.labels[i] as usize] += self.weights[i] * self.state.runs[i].step;
        }
        slopes
    }

    // The number of each variable.
    pub(crate) fn numbers(self, slopes: &[i64; 256]) -> [i64; 256]
        ensures chosen { Tabulates (pos 0) (number_in self.entry.state.now.labels self.entry.state.now.runs slopes.now) self.entry.variables result }
        ensures numbers_small { AllWithin 1000000000 result self.entry.variables }
    {
        let mut numbers = [0; 256];
        for i in 0..self.variables {
            numbers[i] = number(self.state.runs[i], slopes[self.state.labels[i] as usize]);
        }
        numbers
    }

    // What these numbers are worth.
    pub(crate) fn worth(self, numbers: &[i64; 256]) -> i64
        requires { AllWithin 1000000000 numbers.now self.variables }
        ensures { result ≡ objective_in self.entry.weights.now numbers.now self.entry.variables }
    {
        let mut worth = 0;
        for i in 0..self.variables {
            worth += self.weights[i] * numbers[i];
        }
        worth
    }
}

/// What is chosen of them: a slope for each component, at its lowest variable, a number for each variable, and their worth.
#[derive(Clone, Copy)]
pub(crate) struct Chosen<'s, 'c> {
    pub families: Families<'s>,
    pub slopes: &'c [i64; 256],
    pub numbers: &'c [i64; 256],
    pub worth: i64,
    ghost numbers_small: { AllWithin 1000000000 numbers.now families.variables },
}
