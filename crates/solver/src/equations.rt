//! The equations, one after the other and in normal form: what each leaves of the families.
//!
//! What is asked of an equation's numbers and of a family's run stays in clauses, as in `cycle` and `parts`.

ghost use Rattle.std.specs.Prelude.{◌≡◌, ◌≢◌};
ghost use Rattle.runs.specs.Workings.{CarryLimits};
ghost use Rattle.families.specs.FamilyRun.{FamilyRun};
ghost use Rattle.jobs.specs.Job.{job_of};
ghost use Rattle.families.specs.Model.{kept};
ghost use Rattle.solver.specs.Families.{Families};
ghost use Rattle.jobs.specs.Bounds.{with_bounds, BoundedBy};
ghost use Rattle.solver.specs.Widths.{Combinable};
ghost use Rattle.solver.specs.Steps.{kept_by};

use crate::components::Components;
use crate::join::Indices;
use crate::{State, cycle, join, range, reduce};
use jobs::{Bounds, LawfulJob};
use runs::Run;

/// The families of a job with these bounds, after all of its equations, put in `state`, whatever that has.
pub fn families(job: LawfulJob, bounds: &[Bounds; 256], state: &mut State)
    requires { BoundedBy bounds.now job.job.shape.variables }
    ensures { Families (with_bounds (job_of job.entry.job.bytes.now) bounds.now) state.new }
{
    let job = job.job;
    let mut components = Components::apart(job.shape.variables);
    range::start(bounds, &mut state.runs, job.shape);
    for k in 0..job.shape.equations {
        let e = job.equation(k).normal();
        let l = components.label(e.left);
        let r = components.label(e.right);
        let p = reduce::run_of(&components, &state.runs, e.left);
        let q = reduce::run_of(&components, &state.runs, e.right);
        if let Some(kept) = leaves(e.form(), l, r, p, q) {
            reduce::both(&components, &mut state.runs, l, r, kept);
            components.join(l, r);
        }
    }
    reduce::fill(&components, &mut state.runs);
    state.labels = components.labels;
}

/// What an equation between variables of the components l and r, which have the runs p and q, leaves of their families: the members at
/// some indices. None: all of both stay.
fn leaves(e: runs::Equation, l: u16, r: u16, p: Run, q: Run) -> Option<Indices>
    requires combinable { Combinable e }
    requires carry_limits { l ≢ r → CarryLimits e }
    requires left_family { FamilyRun p }
    requires right_family { FamilyRun q }
    ensures { kept_by result ≡ kept e l r p q }
{
    if l != r {
        return Some(join::between(e, p, q, l < r));
    }
    let i = cycle::inside(e, p, q)?;
    Some(Indices { left: i, right: i })
}
