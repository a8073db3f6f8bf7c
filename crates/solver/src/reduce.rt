//! What an equation leaves of the families of its two variables, for all variables of their components.
//!
//! While equations are taken in, how many numbers a variable's run has stands at the lowest variable of its component alone, so that an
//! equation which takes only the last members away writes one number and walks through no component.
//!
//! Components and runs stay two parameters: the runs lie in the caller's `State`, and a struct that holds them by reference would ask each
//! method to say that it still holds the same ones.

ghost use Rattle.std.specs.Prelude.{◌≡◌, ◌<◌, true};
ghost use Rattle.lists.specs.Table.{Tabulates};
ghost use Rattle.runs.specs.Run.{empty};
ghost use Rattle.solver.specs.Runs.{gathered};
ghost use Rattle.solver.specs.Spans.{Leads};
ghost use Rattle.solver.specs.Steps.{Stays, Reducible, Reduces, BothReducible, BothReduce};

use crate::components::Components;
use crate::join::Indices;
use crate::parts;
use runs::Run;

// What variable i can be.
pub(crate) fn run_of(components: &Components, runs: &[Run; 256], i: usize) -> Run
    requires { i < components.now.variables }
    ensures { result ≡ gathered components.now.labels runs.now i }
{
    Run {
        many: runs[components.label(i) as usize].many,
        ..runs[i]
    }
}

// Of the families of the components l and r those members at their indices stay.
#[tactic(auto, using(crate::proofs::ReducedRuns::both_two))]
pub(crate) fn both(components: &Components, runs: &mut [Run; 256], l: u16, r: u16, kept: Indices)
    requires left_leads { Leads components.now.labels components.now.variables l }
    requires right_leads { Leads components.now.labels components.now.variables r }
    requires reducible { BothReducible components.now.labels runs.old l r kept components.now.variables }
    ensures { BothReduce components.now.labels runs.old l r kept components.now.variables runs.new }
{
    one(components, runs, l, kept.left);
    if l != r {
        one(components, runs, r, kept.right);
    }
}

// Of the family of the component g. Its variables lie from g to its last.
fn one(components: &Components, runs: &mut [Run; 256], g: u16, kept: Run)
    requires leads { Leads components.now.labels components.now.variables g }
    requires reducible { Reducible components.now.labels runs.old g kept components.now.variables }
    ensures { Reduces components.now.labels runs.old g kept components.now.variables runs.new }
{
    let many = runs[g as usize].many;
    runs[g as usize].many = kept.many;
    if stay(kept, many) {
        return;
    }
    let end = components.lasts[g as usize] as usize + 1;
    for i in g as usize..end {
        if components.labels[i] == g {
            let run = &mut runs[i];
            let part = parts::through(Run { many, ..*run }, kept);
            run.first = part.first;
            run.step = part.step;
        }
    }
}

// Do the members at these indices keep their places, so that at most how many there are can change?
fn stay(kept: Run, many: u32) -> bool
    ensures { result ≡ true → Stays kept many }
{
    many == 0 || (kept.many != 0 && kept.first == 0 && (many == 1 || kept.step == 1))
}

// How many numbers each run has, from the lowest variable of its component to every other.
pub(crate) fn fill(components: &Components, runs: &mut [Run; 256])
    ensures { Tabulates empty (gathered components.now.labels runs.old) components.now.variables runs.new }
{
    for i in 0..components.variables {
        runs[i].many = runs[components.label(i) as usize].many;
    }
}
